//! The stays of a host, printed one by one: no list of them is made.
ghost use Rattle.std.specs.Prelude.{◌≡◌, ◌<◌, ◌++◌, List, length, flat_map, reverse};
ghost use Rattle.tally_sessions.specs.Totals.{latest_stays, limited, stays_of};
ghost use Rattle.tally_sessions.specs.declared.entry.Stay.{Stay as Row};
ghost use Rattle.tally_print.specs.Output.{IsWritable, failed_calls};
ghost use Rattle.tally_print.specs.inside.Pages.{Fills};

use crate::lines::Line;
use crate::printed_day::PrintedDays;
use crate::put::turn_page;
use crate::{Output, PrintFault};
use tally_records::LoginChoice;
use tally_sessions::{End, Sessions, Stay};

/// How many of so many stays are within a limit.
fn count_within(limit: Option<u32>, count: usize) -> usize
    ensures { (stays : List Row) → count ≡ length stays → result ≡ length (limited limit stays) }
{
    match limit {
        None => count,
        Some(limit) => count.min(limit as usize),
    }
}

/// A stay that others are written over.
fn blank() -> Stay
    ensures { result.length ≡ 0 }
{
    Stay {
        host: 0,
        is_boot: false,
        user: [0; 32],
        line: [0; 32],
        remote: [0; 256],
        start: 0,
        begin: 0,
        end: End::Still,
        end_time: 0,
        length: 0,
    }
}

/// Appends a line for each of the latest stays of a host to the page, which is written out each time that it is full.
fn put_all_stays<L: Line<Stay>, O: Output>(
    page: &mut Vec<u8>,
    line: &L,
    sessions: &Sessions,
    host: u32,
    limit: Option<u32>,
    until: Option<i32>,
    out: &mut O,
) -> Result<(), PrintFault>
    requires writable { IsWritable (O.state out.old) }
    requires host { host < sessions.now.hosts }
    requires printed { (stay : Row) → L.prints stay }
    ensures fills { Fills (O.state out.old) (O.state out.new) result (failed_calls result) page.new.items
        (page.old.items ++ flat_map (L.text line.now) (limited limit (reverse (stays_of host sessions.now.entries until)))) }
{
    let mut stay = blank();
    let mut days = PrintedDays::first();
    for place in 0..count_within(limit, sessions.stay_count(host)) {
        sessions.put_latest_stay(host, place, until, &mut stay);
        line.push(page, &mut days, &stay)?;
        turn_page(page, out)?;
    }
    Ok(())
}

/// Appends a line for each of the chosen ones among these: no other counts for the limit.
fn put_chosen_stays<L: Line<Stay>, O: Output>(
    page: &mut Vec<u8>,
    line: &L,
    sessions: &Sessions,
    host: u32,
    limit: Option<u32>,
    choice: &LoginChoice,
    until: Option<i32>,
    out: &mut O,
) -> Result<(), PrintFault>
    requires writable { IsWritable (O.state out.old) }
    requires host { host < sessions.now.hosts }
    requires printed { (stay : Row) → L.prints stay }
    ensures fills { Fills (O.state out.old) (O.state out.new) result (failed_calls result) page.new.items
        (page.old.items ++ flat_map (L.text line.now) (latest_stays host limit choice.now sessions.now.entries until)) }
{
    let mut stay = blank();
    let mut days = PrintedDays::first();
    let mut from = 0;
    for _shown in 0..count_within(limit, sessions.stay_count(host)) {
        let Some(place) = sessions.next_shown(host, from, choice, until) else {
            return Ok(());
        };
        sessions.put_latest_stay(host, place, until, &mut stay);
        line.push(page, &mut days, &stay)?;
        turn_page(page, out)?;
        from = place + 1;
    }
    Ok(())
}

/// Appends a line for each of the latest chosen stays of a host up to a limit to the page, which is written out each time that
/// it is full.
pub(crate) fn put_stays<L: Line<Stay>, O: Output>(
    page: &mut Vec<u8>,
    line: &L,
    sessions: &Sessions,
    host: u32,
    limit: Option<u32>,
    choice: &LoginChoice,
    until: Option<i32>,
    out: &mut O,
) -> Result<(), PrintFault>
    requires writable { IsWritable (O.state out.old) }
    requires host { host < sessions.now.hosts }
    requires printed { (stay : Row) → L.prints stay }
    ensures fills { Fills (O.state out.old) (O.state out.new) result (failed_calls result) page.new.items
        (page.old.items ++ flat_map (L.text line.now) (latest_stays host limit choice.now sessions.now.entries until)) }
{
    if sessions.shows_all(choice) {
        put_all_stays(page, line, sessions, host, limit, until, out)
    } else {
        put_chosen_stays(page, line, sessions, host, limit, choice, until, out)
    }
}
