ghost use Rattle.std.specs.Prelude.{◌≡◌, ◌++◌, ◌<◌, OnOk, codes, if◌then◌else◌, ⊤};
ghost use Rattle.tally_sessions.specs.Days.{IsOffset, local};
ghost use Rattle.tally_sessions.specs.Totals.{first_time, latest_stays};
ghost use Rattle.tally_print.specs.Output.{IsWritable, Prints, failed_calls};
ghost use Rattle.tally_print.specs.Text.{left, moment, shown, span};
ghost use Rattle.tally_print.specs.inside.LocalTime.{clock_of};
ghost use Rattle.tally_print.specs.LastText.{ending, still_ending, still_words, stay_line, last_text};

use crate::beginning::push_beginning;
use crate::date::push_moment;
use crate::lines::{Line, put_lines};
use crate::local::Local;
use crate::printed_day::{PrintedDay, PrintedDays};
use crate::put::{new_page, put_all};
use crate::stays::put_stays;
use crate::text::{push_left, push_left_shown, push_span};
use crate::{Output, PrintFault};
use std::alloc::{AllocError, Global};
use tally_clock::Clock;
use tally_records::LoginChoice;
use tally_sessions::{End, Sessions, Stay};

/// Appends a field of a stay in its column, or the words that a boot has there.
#[inline(always)]
fn push_column(
    line: &mut Vec<u8>,
    is_boot: bool,
    words: &[u8],
    field: &[u8],
    width: u8,
) -> Result<(), AllocError>
    ensures { OnOk result (line.new.items
        ≡ line.old.items ++ left (if is_boot then words.now else shown field.now) width) }
{
    if is_boot {
        push_left(line, words, width)
    } else {
        push_left_shown(line, field, width)
    }
}

fn push_cut_off(line: &mut Vec<u8>, how: &[u8], length: u64) -> Result<(), AllocError>
    ensures { OnOk result (line.new.items
        ≡ line.old.items ++ (codes " - " ++ left how.now 19 ++ codes " " ++ span length)) }
{
    line.extend_from_slice(b" - ")?;
    push_left(line, how, 19)?;
    line.push(b' ')?;
    push_span(line, length)
}

/// The words for a stay that nothing has ended.
fn still_words(stay: &Stay) -> &'static [u8]
    ensures { result.now ≡ still_words stay.now }
{
    if stay.is_boot {
        b"still running"
    } else {
        b"still logged in"
    }
}

fn push_still(line: &mut Vec<u8>, stay: &Stay) -> Result<(), AllocError>
    ensures { OnOk result (line.new.items ≡ line.old.items ++ (codes "   " ++ still_words stay.now)) }
{
    line.extend_from_slice(b"   ")?;
    line.extend_from_slice(still_words(stay))
}

/// The line of a stay.
#[derive(Drop)]
struct StayLine<'a> {
    local: Local<'a>,
    until: Option<i32>,
}

impl StayLine<'_> {
    fn push_logout(
        &self,
        page: &mut Vec<u8>,
        last: &mut PrintedDay,
        stay: &Stay,
    ) -> Result<(), AllocError>
        ensures { OnOk result (page.new.items ≡ page.old.items
            ++ (codes " - " ++ moment stay.now.end_time (clock_of self.now.local) ++ codes " " ++ span stay.now.length)) }
    {
        page.extend_from_slice(b" - ")?;
        push_moment(page, last, stay.end_time, &self.local)?;
        page.push(b' ')?;
        push_span(page, stay.length)
    }

    /// Appends when its record says that a stay started.
    fn push_start(
        &self,
        page: &mut Vec<u8>,
        last: &mut PrintedDay,
        stay: &Stay,
    ) -> Result<(), AllocError>
        ensures { OnOk result (page.new.items ≡ page.old.items ++ moment stay.now.start (clock_of self.now.local)) }
    {
        push_moment(page, last, stay.start, &self.local)
    }

    fn push_open(&self, page: &mut Vec<u8>, stay: &Stay) -> Result<(), AllocError>
        ensures { OnOk result (page.new.items ≡ page.old.items ++ still_ending stay.now self.now.until) }
    {
        match self.until {
            None => push_still(page, stay),
            Some(_) => push_cut_off(page, still_words(stay), stay.length),
        }
    }

    #[tactic(auto, unfolding(crate::specs::LastText::ending))]
    fn push_ending(
        &self,
        page: &mut Vec<u8>,
        last: &mut PrintedDay,
        stay: &Stay,
    ) -> Result<(), AllocError>
        ensures { OnOk result (page.new.items
            ≡ page.old.items ++ ending stay.now.end stay.now (clock_of self.now.local) self.now.until) }
    {
        match stay.end {
            End::Logout => self.push_logout(page, last, stay),
            End::Next => self.push_logout(page, last, stay),
            End::Down => push_cut_off(page, b"down", stay.length),
            End::Crash => push_cut_off(page, b"crash", stay.length),
            End::Still => self.push_open(page, stay),
        }
    }

    #[tactic(auto, unfolding(crate::specs::LastText::stay_line))]
    fn push_stay(
        &self,
        page: &mut Vec<u8>,
        days: &mut PrintedDays,
        stay: &Stay,
    ) -> Result<(), AllocError>
        ensures { OnOk result (page.new.items ≡ page.old.items ++ stay_line (clock_of self.now.local) self.now.until stay.now) }
    {
        push_column(page, stay.is_boot, b"reboot", &stay.user, 8)?;
        page.push(b' ')?;
        push_column(page, stay.is_boot, b"system boot", &stay.line, 12)?;
        page.push(b' ')?;
        push_left_shown(page, &stay.remote, 16)?;
        page.push(b' ')?;
        self.push_start(page, &mut days.start, stay)?;
        self.push_ending(page, &mut days.end, stay)?;
        page.push(b'\n')?;
        Ok(())
    }
}

impl Line<Stay> for StayLine<'_> {
    ghost prints = { λ _. ⊤ };

    ghost text = { λ line stay. stay_line (clock_of line.local) line.until stay };

    fn push(
        &self,
        page: &mut Vec<u8>,
        days: &mut PrintedDays,
        stay: &Stay,
    ) -> Result<(), AllocError> {
        self.push_stay(page, days, stay)
    }
}

/// Prints stays as last(1) does: a line for each, then the time of the host's first record, all by
/// a clock with an offset in minutes east of it. Where stays that nothing has ended were counted up
/// to a moment, their lines have their span. `Write` is a failure of the output in this call; a
/// first part of the text was written then.
pub fn print_last<O: Output>(
    alloc: Global,
    clock: &Clock,
    rows: &[Stay],
    first: Option<i32>,
    offset: i32,
    out: &mut O,
    until: Option<i32>,
) -> Result<(), PrintFault>
    requires writable { IsWritable (O.state out.old) }
    requires offset_in_range { IsOffset offset }
    ensures writes { Prints (O.state out.old) (O.state out.new) result (failed_calls result)
        (last_text rows.now first (local clock.now offset) until) }
{
    let mut page = new_page(alloc)?;
    let line = StayLine {
        local: Local { clock, offset },
        until,
    };
    put_lines(&mut page, &line, rows, out)?;
    push_beginning(&mut page, b"wtmp", first, &line.local)?;
    put_all(page.as_slice(), out)
}

/// Prints the latest chosen stays of a host, no more than the limit and counted up to a moment, as `print_last` does a list of
/// them. No list is made: each is looked up when its line is printed.
pub(crate) fn print_stays<O: Output>(
    alloc: Global,
    clock: &Clock,
    sessions: &Sessions,
    host: u32,
    limit: Option<u32>,
    choice: &LoginChoice,
    counted: Option<i32>,
    offset: i32,
    out: &mut O,
    until: Option<i32>,
) -> Result<(), PrintFault>
    requires writable { IsWritable (O.state out.old) }
    requires host { host < sessions.now.hosts }
    requires offset_in_range { IsOffset offset }
    ensures writes { Prints (O.state out.old) (O.state out.new) result (failed_calls result)
        (last_text (latest_stays host limit choice.now sessions.now.entries counted) (first_time host sessions.now.entries) (local clock.now offset) until) }
{
    let mut page = new_page(alloc)?;
    let line = StayLine {
        local: Local { clock, offset },
        until,
    };
    put_stays(
        &mut page, &line, sessions, host, limit, choice, counted, out,
    )?;
    push_beginning(&mut page, b"wtmp", sessions.first(host), &line.local)?;
    put_all(page.as_slice(), out)
}
