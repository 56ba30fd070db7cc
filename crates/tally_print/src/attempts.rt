//! Failed logins as lastb(8) prints them, and their sums.
ghost use Rattle.std.specs.Prelude.{◌≡◌, ◌++◌, OnOk, ⊤};
ghost use Rattle.tally_sessions.specs.Days.{IsOffset, local};
ghost use Rattle.tally_print.specs.AttemptText.{attempt_line, attempt_sum_line, attempt_sums_text, attempts_text};
ghost use Rattle.tally_print.specs.Output.{IsWritable, Prints, failed_calls};
ghost use Rattle.tally_print.specs.inside.LocalTime.{clock_of};

use crate::beginning::push_beginning;
use crate::date::push_moment;
use crate::lines::{Line, print_lines, put_lines};
use crate::local::Local;
use crate::printed_day::{PrintedDay, PrintedDays};
use crate::put::{new_page, put_all};
use crate::text::{push_left_shown, push_right_number, push_shown};
use crate::{Output, PrintFault};
use std::alloc::{AllocError, Global};
use tally_attempts::{Attempt, AttemptSum};
use tally_clock::Clock;

#[tactic(auto, unfolding(crate::specs::AttemptText::attempt_line))]
fn push_attempt(
    line: &mut Vec<u8>,
    last: &mut PrintedDay,
    attempt: &Attempt,
    local: &Local<'_>,
) -> Result<(), AllocError>
    ensures { OnOk result (line.new.items ≡ line.old.items ++ attempt_line (clock_of local.now) attempt.now) }
{
    push_left_shown(line, &attempt.user, 8)?;
    line.push(b' ')?;
    push_left_shown(line, &attempt.line, 12)?;
    line.push(b' ')?;
    push_left_shown(line, &attempt.remote, 16)?;
    line.push(b' ')?;
    push_moment(line, last, attempt.time, local)?;
    line.push(b'\n')?;
    Ok(())
}

#[tactic(auto, unfolding(crate::specs::AttemptText::attempt_sum_line))]
fn push_sum(line: &mut Vec<u8>, sum: &AttemptSum) -> Result<(), AllocError>
    ensures { OnOk result (line.new.items ≡ line.old.items ++ attempt_sum_line sum.now) }
{
    push_right_number(line, sum.attempts, 8)?;
    line.push(b' ')?;
    push_left_shown(line, &sum.user, 8)?;
    line.push(b' ')?;
    push_shown(line, &sum.remote)?;
    line.push(b'\n')?;
    Ok(())
}

/// The line of a failed login.
#[derive(Drop)]
pub(crate) struct AttemptLine<'a> {
    pub(crate) local: Local<'a>,
}

impl Line<Attempt> for AttemptLine<'_> {
    ghost prints = { λ _. ⊤ };

    ghost text = { λ line attempt. attempt_line (clock_of line.local) attempt };

    fn push(
        &self,
        page: &mut Vec<u8>,
        days: &mut PrintedDays,
        attempt: &Attempt,
    ) -> Result<(), AllocError> {
        push_attempt(page, &mut days.start, attempt, &self.local)
    }
}

/// The line of a sum.
struct AttemptSumLine;

impl Line<AttemptSum> for AttemptSumLine {
    ghost prints = { λ _. ⊤ };

    ghost text = { λ _ sum. attempt_sum_line sum };

    fn push(
        &self,
        page: &mut Vec<u8>,
        _days: &mut PrintedDays,
        sum: &AttemptSum,
    ) -> Result<(), AllocError> {
        push_sum(page, sum)
    }
}

/// Prints failed logins as lastb(8) does: a line for each, then the time of the host's first record,
/// all by a clock with an offset in minutes east of it. `Write` is a failure of the output in this
/// call; a first part of the text was written then.
pub fn print_attempts<O: Output>(
    alloc: Global,
    clock: &Clock,
    rows: &[Attempt],
    first: Option<i32>,
    offset: i32,
    out: &mut O,
) -> Result<(), PrintFault>
    requires writable { IsWritable (O.state out.old) }
    requires offset_in_range { IsOffset offset }
    ensures writes { Prints (O.state out.old) (O.state out.new) result (failed_calls result)
        (attempts_text rows.now first (local clock.now offset)) }
{
    let mut page = new_page(alloc)?;
    let line = AttemptLine {
        local: Local { clock, offset },
    };
    put_lines(&mut page, &line, rows, out)?;
    push_beginning(&mut page, b"btmp", first, &line.local)?;
    put_all(page.as_slice(), out)
}

/// Prints sums of failed logins: a line for each, with how many there are, their user and their
/// remote host. `Write` is a failure of the output in this call; a first part of the text was
/// written then.
pub fn print_attempt_sums<O: Output>(
    alloc: Global,
    rows: &[AttemptSum],
    out: &mut O,
) -> Result<(), PrintFault>
    requires writable { IsWritable (O.state out.old) }
    ensures writes { Prints (O.state out.old) (O.state out.new) result (failed_calls result)
        (attempt_sums_text rows.now) }
{
    print_lines(new_page(alloc)?, &AttemptSumLine, rows, out)
}
