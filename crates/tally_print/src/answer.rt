ghost use Rattle.tally_answers.specs.Answers.{HasDays};
ghost use Rattle.tally_print.specs.AnswerText.{answer_text};
ghost use Rattle.tally_sessions.specs.Days.{IsOffset, local};
ghost use Rattle.tally_print.specs.Output.{IsWritable, Prints, failed_calls};

use crate::{
    Output, PrintFault, print_attempt_sums, print_attempts, print_commands, print_connect,
    print_last, print_users,
};
use std::alloc::Global;
use tally_answers::Answer;
use tally_clock::Clock;

/// Prints an answer as its kind of report, moments by a clock with an offset in minutes east of it,
/// with the moment that its question gave. `Write` is a failure of the output in this call; a first
/// part of the text was written then.
pub fn print_answer<O: Output>(
    alloc: Global,
    clock: &Clock,
    answer: &Answer,
    offset: i32,
    out: &mut O,
    until: Option<i32>,
) -> Result<(), PrintFault>
    requires writable { IsWritable (O.state out.old) }
    requires offset { IsOffset offset }
    requires days { HasDays answer.now }
    ensures writes { Prints (O.state out.old) (O.state out.new) result (failed_calls result)
        (answer_text answer.now (local clock.now offset) until) }
{
    match answer {
        Answer::Last { rows, first } => {
            print_last(alloc, clock, rows.as_slice(), *first, offset, out, until)
        }
        Answer::Attempts { rows, first } => {
            print_attempts(alloc, clock, rows.as_slice(), *first, offset, out)
        }
        Answer::AttemptSums { rows } => print_attempt_sums(alloc, rows.as_slice(), out),
        Answer::Connect { rows, total } => print_connect(alloc, rows.as_slice(), *total, out),
        Answer::Commands { rows, total } => print_commands(alloc, rows.as_slice(), total, out),
        Answer::Users { rows, total } => print_users(alloc, rows.as_slice(), total, out),
    }
}
