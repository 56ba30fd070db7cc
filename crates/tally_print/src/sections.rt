//! Several answers, a section for each.
ghost use Rattle.std.specs.Prelude.{All};
ghost use Rattle.tally_answers.specs.Answers.{HasDays};
ghost use Rattle.tally_print.specs.Output.{IsWritable, Prints, failed_calls};
ghost use Rattle.tally_print.specs.Sections.{sections_text};
ghost use Rattle.tally_sessions.specs.Days.{IsOffset, local};

use crate::put::put_all;
use crate::{Output, PrintFault, print_answer};
use std::alloc::Global;
use tally_answers::Answer;
use tally_clock::Clock;

/// Prints the answers, each as its kind of report, with an empty line between each two, moments by
/// a clock with an offset in minutes east of it, with the moment that their questions gave. `Write`
/// is a failure of the output in this call; a first part of the text was written then.
pub fn print_sections<O: Output>(
    alloc: Global,
    clock: &Clock,
    answers: &[Answer],
    offset: i32,
    out: &mut O,
    until: Option<i32>,
) -> Result<(), PrintFault>
    requires writable { IsWritable (O.state out.old) }
    requires offset { IsOffset offset }
    requires days { All HasDays answers.now }
    ensures writes { Prints (O.state out.old) (O.state out.new) result (failed_calls result)
        (sections_text answers.now (local clock.now offset) until) }
{
    let Some((first, others)) = answers.split_first() else {
        return Ok(());
    };
    print_answer(alloc, clock, first, offset, out, until)?;
    for answer in others {
        put_all(b"\n", out)?;
        print_answer(alloc, clock, answer, offset, out, until)?;
    }
    Ok(())
}
