//! The login records of moments, as utmp(5) lays them out on Linux x86-64.
ghost use Rattle.std.specs.Prelude.{◌≡◌, ◌≤◌, ◌++◌, OnOk, IfOk, Some, [], flat_map, length, map};
ghost use Rattle.std.specs.List.{cons_option, range_with_len};
ghost use Rattle.tally_wtmpdb.specs.Fields.{field};
ghost use Rattle.tally_wtmpdb.specs.Lines.{mark_at};
ghost use Rattle.tally_wtmpdb.specs.Made as Spec;
ghost use Rattle.tally_wtmpdb.specs.Moments as Of;
ghost use Rattle.tally_wtmpdb.specs.Moments.{AreInOrder};

use crate::field::{NAME_SIZE, kept};
use crate::lines::marks;
use crate::moment::{Moment, What};
use crate::row::{id, remote, row_at, second, tty, user};
use itoa::Buffer;
use sqlite_value::row::Row;
use std::alloc::{AllocError, Global};

/// The bytes of `ut_host`.
const REMOTE_SIZE: usize = 256;

/// `ut_type` of utmp(5).
const RUN_LVL: u8 = 1;

const BOOT_TIME: u8 = 2;

const USER_PROCESS: u8 = 7;

const DEAD_PROCESS: u8 = 8;

/// Zeros, as many as the largest field has bytes.
const ZEROS: [u8; REMOTE_SIZE] = [0; REMOTE_SIZE];

fn push_zeros(out: &mut Vec<u8>, count: usize) -> Result<(), AllocError>
    requires { count ≤ REMOTE_SIZE }
    ensures { OnOk result (out.new.items ≡ out.old.items ++ Spec.zeros count) }
{
    out.extend_from_slice(&ZEROS[..count])
}

fn push_field(out: &mut Vec<u8>, size: usize, text: &[u8]) -> Result<(), AllocError>
    requires { size ≤ REMOTE_SIZE }
    ensures { OnOk result (out.new.items ≡ out.old.items ++ field size text.now) }
{
    let text = kept(size, text);
    out.extend_from_slice(text)?;
    push_zeros(out, size.saturating_sub(text.len()))
}

/// Adds the bytes of a login record with these texts.
fn push_record(
    out: &mut Vec<u8>,
    kind: u8,
    line: &[u8],
    user: &[u8],
    remote: &[u8],
    time: i32,
) -> Result<(), AllocError>
    ensures { OnOk result (out.new.items ≡ out.old.items ++ Spec.bytes_of (Spec.login_record kind line.now user.now remote.now time)) }
{
    out.push(kind)?;
    push_zeros(out, 7)?;
    push_field(out, NAME_SIZE, line)?;
    push_zeros(out, 4)?;
    push_field(out, NAME_SIZE, user)?;
    push_field(out, REMOTE_SIZE, remote)?;
    push_zeros(out, 8)?;
    out.extend_from_slice(&time.to_le_bytes())?;
    push_zeros(out, 40)?;
    Ok(())
}

/// The line of a session that has a mark.
fn marked_line(alloc: Global, row: &Row) -> Result<Vec<u8>, AllocError>
    ensures { IfOk result (λ line. line.items ≡ Spec.marked_line row.now) }
{
    let mut digits = Buffer::new();
    let digits = digits.format(id(row)).as_bytes();
    let mut line = Vec::new(alloc);
    line.extend_from_slice(kept(NAME_SIZE.saturating_sub(1 + digits.len()), tty(row)))?;
    line.push(b'#')?;
    line.extend_from_slice(digits)?;
    Ok(line)
}

/// Adds the record of a row's moment; a session is on this line.
fn push_record_of(
    out: &mut Vec<u8>,
    row: &Row,
    line: &[u8],
    what: What,
    time: i32,
) -> Result<(), AllocError>
    ensures { OnOk result (out.new.items ≡ out.old.items ++ Spec.bytes_of (Spec.record_of row.now line.now what time)) }
{
    match what {
        What::Login => push_record(out, USER_PROCESS, line, user(row), remote(row), time),
        What::Logout | What::LogoutAtOnce => push_record(out, DEAD_PROCESS, line, &[], &[], time),
        What::Boot => push_record(out, BOOT_TIME, b"~", b"reboot", remote(row), time),
        What::Down => push_record(out, RUN_LVL, b"~", b"shutdown", remote(row), time),
    }
}

/// Adds the record of a moment, whose line has a mark or has none.
fn push_made(
    alloc: Global,
    out: &mut Vec<u8>,
    row: &Row,
    marked: bool,
    moment: Moment,
) -> Result<(), AllocError>
    ensures { OnOk result (out.new.items ≡ out.old.items ++ Spec.bytes_of (Spec.made_of row.now marked moment)) }
{
    let time = second(moment.micros).unwrap_or(0);
    if !marked {
        return push_record_of(out, row, tty(row), moment.what, time);
    }
    let line = marked_line(alloc, row)?;
    push_record_of(out, row, &line, moment.what, time)
}

/// Adds the record of a moment, if it has one.
fn push_moment(
    alloc: Global,
    out: &mut Vec<u8>,
    rows: &[Row],
    none: &Row,
    mark: Option<bool>,
    moment: Moment,
) -> Result<(), AllocError>
    requires { none.now ≡ [] }
    ensures { OnOk result (out.new.items ≡ out.old.items ++ flat_map Spec.bytes_of (cons_option (Spec.made_if rows.now mark (Some moment)) [])) }
{
    match mark {
        Some(marked) => push_made(alloc, out, row_at(rows, none, moment.place), marked, moment),
        None => Ok(()),
    }
}

/// Adds the records of these moments.
fn push_moments(
    alloc: Global,
    out: &mut Vec<u8>,
    rows: &[Row],
    none: &Row,
    marks: &[Option<bool>],
    moments: &[Moment],
) -> Result<(), AllocError>
    requires empty { out.old.items ≡ [] }
    requires none { none.now ≡ [] }
    requires marks { marks.now ≡ map (mark_at rows.now moments.now) (range_with_len 0 (length moments.now)) }
    ensures { OnOk result (out.new.items ≡ flat_map Spec.bytes_of (Spec.records_of rows.now moments.now (length moments.now))) }
{
    for (index, moment) in moments.iter().enumerate() {
        push_moment(alloc, out, rows, none, marks[index], *moment)?;
    }
    Ok(())
}

/// The bytes of the records of these moments.
pub(crate) fn records(
    alloc: Global,
    rows: &[Row],
    moments: &[Moment],
) -> Result<Vec<u8>, AllocError>
    requires { AreInOrder (Of.moments rows.now) moments.now }
    ensures { IfOk result (λ out. out.items ≡ flat_map Spec.bytes_of (Spec.records_of rows.now moments.now (length moments.now))) }
{
    let none = Row::new(alloc);
    let marks = marks(alloc, rows, &none, moments)?;
    let mut out = Vec::new(alloc);
    push_moments(alloc, &mut out, rows, &none, &marks, moments)?;
    Ok(out)
}
