//! Answers on processes, printed with the names of users where they are given.
ghost use Rattle.std.specs.Prelude.{◌≡◌, ◌∷◌, []};
ghost use Rattle.tally_answers.specs.Answers.{HasDays};
ghost use Rattle.tally_cli.specs.Apart.{answers_text, named_text, names_given};
ghost use Rattle.tally_print.specs.Output.{IsWritable, Prints, failed_calls};
ghost use Rattle.tally_sessions.specs.Days.{IsOffset};
ghost use Rattle.tally_usage.specs.Names.{names_of};

use crate::running::forms::print_answers;
use std::alloc::Global;
use std::slice;
use tally_book::Answer;
use tally_clock::Clock;
use tally_line::{Form, Job};
use tally_print::{Output, PrintFault, print_named_user_table, print_named_users};
use tally_usage::{UidRow, Usage, UserNames};

/// Prints usage by user in a form, with the names of users.
fn print_named<O: Output>(
    alloc: Global,
    form: Form,
    names: &UserNames,
    rows: &[UidRow],
    total: &Usage,
    out: &mut O,
) -> Result<(), PrintFault>
    requires writable { IsWritable (O.state out.old) }
    ensures writes { Prints (O.state out.old) (O.state out.new) result (failed_calls result)
        (named_text form (names_of names.now) rows.now total.now) }
{
    match form {
        Form::Text => print_named_users(alloc, names, rows, total, out),
        Form::Csv => print_named_user_table(alloc, names, rows, out),
    }
}

/// Prints an answer on processes in the job's form, in the time of a clock. Users have their names, where names are given.
pub(crate) fn print_usage<O: Output>(
    alloc: Global,
    clock: &Clock,
    job: &Job,
    names: Option<&UserNames>,
    answer: &Answer,
    out: &mut O,
) -> Result<(), PrintFault>
    requires writable { IsWritable (O.state out.old) }
    requires offset { IsOffset job.now.offset }
    requires days { HasDays answer.now }
    ensures writes { Prints (O.state out.old) (O.state out.new) result (failed_calls result)
        (answers_text clock.now job.now (names_given names.entry) (answer.now ∷ [])) }
{
    match (names, answer) {
        (Some(names), Answer::Users { rows, total }) => {
            print_named(alloc, job.form, names, rows.as_slice(), total, out)
        }
        (Some(_), Answer::Last { .. })
        | (Some(_), Answer::Attempts { .. })
        | (Some(_), Answer::AttemptSums { .. })
        | (Some(_), Answer::Connect { .. })
        | (Some(_), Answer::Commands { .. })
        | (None, _) => print_answers(alloc, clock, job, slice::from_ref(answer), out),
    }
}
