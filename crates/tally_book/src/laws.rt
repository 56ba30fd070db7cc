//! Laws of books, over the definitions alone.
ghost use Rattle.std.specs.Prelude.{◌≡◌, List};
ghost use Rattle.tally_answers.specs.Answers.{answer_of};
ghost use Rattle.tally_book.specs.Books.{IsLegal};
ghost use Rattle.tally_book.specs.Contents.{Contents};
ghost use Rattle.tally_book.specs.Deeds.{EntriesArePosts, SameOfEachHost};
ghost use Rattle.tally_answers.specs.declared.question.Question.{Question};
ghost use Rattle.tally_clock.specs.Rows.{ClockRows};
ghost use Rattle.tally_sessions.specs.declared.entry.Entry.{Entry};
ghost use Rattle.tally_usage.specs.declared.entry.ProcEntry.{ProcEntry};

/// In a legal book a caller's entries are the records of its posts, joined in order.
pub fn entries_are_posts()
    ensures { (b : Contents) → IsLegal b → EntriesArePosts b }
{}

/// An answer depends on the records of each host in their order, and on no order among hosts.
pub fn host_order_is_enough()
    ensures { (logins others : List Entry) (procs rest : List ProcEntry) → SameOfEachHost logins others procs rest
        → (clock : ClockRows) (question : Question) → answer_of clock question logins procs ≡ answer_of clock question others rest }
{
    tally_usage::record_order_is_free();
    tally_attempts::record_order_is_free();
}
