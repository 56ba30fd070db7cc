//! The failed logins of hosts, printed one by one: no list of them is made.
ghost use Rattle.std.specs.Prelude.{◌≡◌, ◌++◌, ℤ, Option as Opt, OnOk, flat_map, length, map};
ghost use Rattle.std.specs.List.{range_with_len};
ghost use Rattle.tally_attempts.specs.Attempts.{latest_attempts};
ghost use Rattle.tally_attempts.specs.declared.attempt.Attempt.{Attempt as Row};
ghost use Rattle.tally_sessions.specs.Days.{IsOffset, local};
ghost use Rattle.tally_sessions.specs.Lent.{entries_in};
ghost use Rattle.tally_sessions.specs.Totals.{limited};
ghost use Rattle.tally_print.specs.AttemptSections.{attempt_answers};
ghost use Rattle.tally_print.specs.Output.{IsWritable, Prints, failed_calls};
ghost use Rattle.tally_print.specs.ReportTable.{table_text};
ghost use Rattle.tally_print.specs.Sections.{sections_text};
ghost use Rattle.tally_print.specs.Tables.{csv_text};
ghost use Rattle.tally_print.specs.inside.Attempts.{gap, section};
ghost use Rattle.tally_print.specs.inside.LocalTime.{clock_of};
ghost use Rattle.tally_print.specs.inside.Pages.{Fills};

use crate::attempt_table::{AttemptFields, attempt_header};
use crate::attempts::AttemptLine;
use crate::beginning::push_beginning;
use crate::lines::{Fields, Line};
use crate::local::Local;
use crate::printed_day::PrintedDays;
use crate::put::{new_page, put_all, turn_page};
use crate::{Output, PrintFault, Table};
use std::alloc::{AllocError, Global};
use tally_attempts::{Attempt, first_time, put_latest_before};
use tally_clock::Clock;
use tally_records::LoginChoice;
use tally_sessions::Entries;

/// A failed login that others are written over.
fn blank() -> Attempt {
    Attempt {
        host: 0,
        user: [0; 32],
        line: [0; 32],
        remote: [0; 256],
        time: 0,
    }
}

/// How many failed logins of entries a limit leaves at most.
fn most_shown(limit: Option<u32>, entries: Entries<'_>) -> usize
    ensures { result ≡ length (limited limit (entries_in entries.entry)) }
{
    let count = entries.len();
    match limit {
        None => count,
        Some(limit) => count.min(limit as usize),
    }
}

/// Appends a line for each of the latest chosen failed logins of a host up to a limit to the page, which is written out each
/// time that it is full.
fn put_attempts<L: Line<Attempt>, O: Output>(
    page: &mut Vec<u8>,
    line: &L,
    entries: Entries<'_>,
    host: u32,
    limit: Option<u32>,
    choice: &LoginChoice,
    out: &mut O,
) -> Result<(), PrintFault>
    requires writable { IsWritable (O.state out.old) }
    requires printed { (attempt : Row) → L.prints attempt }
    ensures fills { Fills (O.state out.old) (O.state out.new) result (failed_calls result) page.new.items
        (page.old.items ++ flat_map (L.text line.now) (latest_attempts host limit choice.now (entries_in entries.entry))) }
{
    let mut attempt = blank();
    let mut days = PrintedDays::first();
    let mut before = entries.len();
    for _shown in 0..most_shown(limit, entries) {
        let Some(place) = put_latest_before(&mut attempt, entries, host, choice, before) else {
            return Ok(());
        };
        line.push(page, &mut days, &attempt)?;
        turn_page(page, out)?;
        before = place;
    }
    Ok(())
}

/// Prints a row of a table for each of them.
pub(crate) fn print_host_attempts<F: Fields<Attempt>, O: Output>(
    alloc: Global,
    fields: &F,
    entries: Entries<'_>,
    host: u32,
    limit: Option<u32>,
    choice: &LoginChoice,
    out: &mut O,
) -> Result<(), PrintFault>
    requires writable { IsWritable (O.state out.old) }
    requires printed { (attempt : Row) → F.Line.prints attempt }
    ensures writes { Prints (O.state out.old) (O.state out.new) result (failed_calls result)
        (csv_text (map (F.fields fields.now) (latest_attempts host limit choice.now (entries_in entries.entry)))) }
{
    let mut page = new_page(alloc)?;
    put_attempts(&mut page, fields, entries, host, limit, choice, out)?;
    put_all(page.as_slice(), out)
}

/// Appends an empty line before each section but the first.
fn push_gap(page: &mut Vec<u8>, host: u32) -> Result<(), AllocError>
    ensures { OnOk result (page.new.items ≡ page.old.items ++ gap host) }
{
    if host > 0 {
        page.push(b'\n')?;
    }
    Ok(())
}

/// Appends the section of a host.
fn put_section<O: Output>(
    page: &mut Vec<u8>,
    line: &AttemptLine<'_>,
    entries: Entries<'_>,
    host: u32,
    limit: Option<u32>,
    choice: &LoginChoice,
    out: &mut O,
) -> Result<(), PrintFault>
    requires writable { IsWritable (O.state out.old) }
    ensures fills { Fills (O.state out.old) (O.state out.new) result (failed_calls result) page.new.items
        (page.old.items ++ section (clock_of line.now.local) limit choice.now (entries_in entries.entry) host) }
{
    push_gap(page, host)?;
    put_attempts(page, line, entries, host, limit, choice, out)?;
    push_beginning(page, b"btmp", first_time(entries, host), &line.local)?;
    turn_page(page, out)
}

/// Appends the sections of the hosts from 0 on.
fn put_sections<O: Output>(
    page: &mut Vec<u8>,
    line: &AttemptLine<'_>,
    entries: Entries<'_>,
    hosts: u32,
    limit: Option<u32>,
    choice: &LoginChoice,
    out: &mut O,
) -> Result<(), PrintFault>
    requires writable { IsWritable (O.state out.old) }
    ensures fills { Fills (O.state out.old) (O.state out.new) result (failed_calls result) page.new.items
        (page.old.items ++ flat_map (section (clock_of line.now.local) limit choice.now (entries_in entries.entry)) (range_with_len 0 hosts)) }
{
    for host in 0..hosts {
        put_section(page, line, entries, host, limit, choice, out)?;
    }
    Ok(())
}

/// Prints the latest chosen failed logins of each of so many hosts, from host 0 on, no more of each than the limit, as
/// `print_sections` does the answers that have them. No list is made: each is looked up when its line is printed. `Write` is
/// a failure of the output in this call; a first part of the text was written then.
pub fn print_all_attempts<O: Output>(
    alloc: Global,
    clock: &Clock,
    entries: Entries<'_>,
    hosts: u32,
    limit: Option<u32>,
    choice: &LoginChoice,
    offset: i32,
    out: &mut O,
) -> Result<(), PrintFault>
    requires writable { IsWritable (O.state out.old) }
    requires offset_in_range { IsOffset offset }
    ensures writes { (until : Opt ℤ) → Prints (O.state out.old) (O.state out.new) result (failed_calls result)
        (sections_text (attempt_answers hosts limit choice.now (entries_in entries.entry)) (local clock.now offset) until) }
{
    let mut page = new_page(alloc)?;
    let line = AttemptLine {
        local: Local { clock, offset },
    };
    put_sections(&mut page, &line, entries, hosts, limit, choice, out)?;
    put_all(page.as_slice(), out)
}

/// Appends the lines of the hosts from 0 on.
fn put_hosts<L: Line<Attempt>, O: Output>(
    page: &mut Vec<u8>,
    line: &L,
    entries: Entries<'_>,
    hosts: u32,
    limit: Option<u32>,
    choice: &LoginChoice,
    out: &mut O,
) -> Result<(), PrintFault>
    requires writable { IsWritable (O.state out.old) }
    requires printed { (attempt : Row) → L.prints attempt }
    ensures fills { Fills (O.state out.old) (O.state out.new) result (failed_calls result) page.new.items
        (page.old.items ++ flat_map (λ host. flat_map (L.text line.now) (latest_attempts host limit choice.now (entries_in entries.entry))) (range_with_len 0 hosts)) }
{
    for host in 0..hosts {
        put_attempts(page, line, entries, host, limit, choice, out)?;
    }
    Ok(())
}

/// Prints them as `print_table` does these answers: one table, and a row for each failed login. `Write` is a failure of the
/// output in this call; a first part of the text was written then.
pub fn print_attempt_table<O: Output>(
    alloc: Global,
    clock: &Clock,
    entries: Entries<'_>,
    hosts: u32,
    limit: Option<u32>,
    choice: &LoginChoice,
    offset: i32,
    out: &mut O,
) -> Result<(), PrintFault>
    requires writable { IsWritable (O.state out.old) }
    requires offset_in_range { IsOffset offset }
    ensures writes { Prints (O.state out.old) (O.state out.new) result (failed_calls result)
        (table_text Table.Attempts (local clock.now offset) (attempt_answers hosts limit choice.now (entries_in entries.entry))) }
{
    let mut page = new_page(alloc)?;
    page.extend_from_slice(attempt_header())?;
    let fields = AttemptFields {
        local: Local { clock, offset },
    };
    put_hosts(&mut page, &fields, entries, hosts, limit, choice, out)?;
    put_all(page.as_slice(), out)
}
