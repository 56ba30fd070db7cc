//! Stays as CSV.
ghost use Rattle.std.specs.Prelude.{◌≡◌, ◌+◌, ◌++◌, ◌∷◌, [], OnOk, decimal, drop, if◌then◌else◌, int_le, pos, ⊤, refl};
ghost use Rattle.std.specs.Fmt.{signed_decimal};
ghost use Rattle.csv.specs.Writing.{default_writer, field_text, row_text};
ghost use Rattle.tally_print.specs.StayTable.{end_word, iso_moment, line_field, stay_fields, stay_header, user_field, zone};
ghost use Rattle.tally_print.specs.Text.{shown};
ghost use Rattle.tally_print.specs.inside.LocalTime.{IsAhead, clock_of};

use crate::date::push_marked_moment;
use crate::fields::{push_number, push_seconds, push_shown_field};
use crate::lines::{Fields, Line};
use crate::local::Local;
use crate::printed_day::{PrintedDay, PrintedDays};
use crate::text::{ten_digits, two};
use std::alloc::AllocError;
use tally_sessions::{End, Stay};

/// The least number of ten digits, a time of the year 2001.
const LEAST_OF_TEN: i32 = 1_000_000_000;

/// The sign of an offset, `+` for none.
fn sign(offset: i32) -> u8
    ensures { result ≡ (if int_le (pos 0) offset then 43 else 45) }
{
    if offset < 0 { b'-' } else { b'+' }
}

/// Appends an offset in seconds east of UTC as hours and minutes. Seconds beyond the last whole
/// minute are cut off, and the sign stays: 30 seconds west print as `-00:00`.
#[tactic(auto, unfolding(crate::specs::StayTable::zone))]
fn push_zone(line: &mut Vec<u8>, offset: i32) -> Result<(), AllocError>
    requires { IsAhead offset }
    ensures { OnOk result (line.new.items ≡ line.old.items ++ zone offset) }
{
    let seconds = offset.unsigned_abs();
    let [h, hh] = two((seconds / 3600) as u8);
    let [m, mm] = two((seconds / 60 % 60) as u8);
    line.extend_from_slice(&[sign(offset), h, hh, b':', m, mm])
}

#[tactic(auto, unfolding(crate::specs::StayTable::iso_moment))]
pub(crate) fn push_iso(
    line: &mut Vec<u8>,
    last: &mut PrintedDay,
    time: i32,
    local: &Local<'_>,
) -> Result<(), AllocError>
    ensures { OnOk result (line.new.items ≡ line.old.items ++ iso_moment time (clock_of local.now)) }
{
    let ahead = local.ahead_at(&mut last.begun, time);
    push_marked_moment(line, last, time, b'T', ahead)?;
    push_zone(line, ahead)
}

/// Appends a time in seconds since 1970, and the mark after it.
pub(crate) fn push_time(line: &mut Vec<u8>, time: i32) -> Result<(), AllocError>
    ensures { OnOk result (line.new.items ≡ line.old.items ++ (signed_decimal time ++ 44 ∷ [])) }
{
    if time < LEAST_OF_TEN {
        push_number(line, time)?;
        line.push(b',')?;
        return Ok(());
    }
    let [a, b, c, d, e, f, g, h, i, j] = ten_digits(time as u32);
    line.extend_from_slice(&[a, b, c, d, e, f, g, h, i, j, b','])
}

/// Appends the number of a file, counted from 1.
pub(crate) fn push_file(line: &mut Vec<u8>, host: u32) -> Result<(), AllocError>
    ensures { OnOk result (line.new.items ≡ line.old.items ++ decimal (host + 1)) }
{
    push_number(line, u64::from(host) + 1)
}

fn push_user(line: &mut Vec<u8>, stay: &Stay) -> Result<(), AllocError>
    ensures { OnOk result (line.new.items ≡ line.old.items ++ field_text default_writer (user_field stay.now)) }
{
    if stay.is_boot {
        line.extend_from_slice(b"reboot")
    } else {
        push_shown_field(line, &stay.user)
    }
}

fn push_line(line: &mut Vec<u8>, stay: &Stay) -> Result<(), AllocError>
    ensures { OnOk result (line.new.items ≡ line.old.items ++ field_text default_writer (line_field stay.now)) }
{
    if stay.is_boot {
        Ok(())
    } else {
        push_shown_field(line, &stay.line)
    }
}

#[inline(always)]
fn push_end(line: &mut Vec<u8>, end: End) -> Result<(), AllocError>
    ensures { OnOk result (line.new.items ≡ line.old.items ++ field_text default_writer (end_word end)) }
{
    match end {
        End::Logout => line.extend_from_slice(b"logout"),
        End::Next => line.extend_from_slice(b"next"),
        End::Down => line.extend_from_slice(b"down"),
        End::Crash => line.extend_from_slice(b"crash"),
        End::Still => line.extend_from_slice(b"still"),
    }
}

fn push_remote(line: &mut Vec<u8>, stay: &Stay) -> Result<(), AllocError>
    ensures { OnOk result (line.new.items
        ≡ line.old.items ++ (field_text default_writer (shown stay.now.remote) ++ 44 ∷ [])) }
{
    push_shown_field(line, &stay.remote)?;
    line.push(b',')?;
    Ok(())
}

#[inline(always)]
fn push_place(line: &mut Vec<u8>, stay: &Stay) -> Result<(), AllocError>
    ensures { OnOk result (line.new.items ≡ line.old.items ++ (field_text default_writer (line_field stay.now) ++ 44 ∷ []
        ++ (field_text default_writer (shown stay.now.remote) ++ 44 ∷ []))) }
{
    push_line(line, stay)?;
    line.push(b',')?;
    push_remote(line, stay)
}

/// Appends who was logged in where.
#[inline(always)]
pub(crate) fn push_user_at(line: &mut Vec<u8>, stay: &Stay) -> Result<(), AllocError>
    ensures { OnOk result (line.new.items ≡ line.old.items ++ (field_text default_writer (user_field stay.now) ++ 44 ∷ []
        ++ (field_text default_writer (line_field stay.now) ++ 44 ∷ []
        ++ (field_text default_writer (shown stay.now.remote) ++ 44 ∷ [])))) }
{
    push_user(line, stay)?;
    line.push(b',')?;
    push_place(line, stay)
}

#[inline(always)]
pub(crate) fn push_who(line: &mut Vec<u8>, stay: &Stay) -> Result<(), AllocError>
    ensures { OnOk result (line.new.items ≡ line.old.items ++ (decimal (stay.now.host + 1) ++ 44 ∷ []
        ++ field_text default_writer (user_field stay.now) ++ 44 ∷ []
        ++ (field_text default_writer (line_field stay.now) ++ 44 ∷ []
        ++ (field_text default_writer (shown stay.now.remote) ++ 44 ∷ [])))) }
{
    push_file(line, stay.host)?;
    line.push(b',')?;
    push_user_at(line, stay)
}

#[inline(always)]
fn push_begin(line: &mut Vec<u8>, stay: &Stay) -> Result<(), AllocError>
    ensures { OnOk result (line.new.items ≡ line.old.items ++ (signed_decimal stay.now.begin ++ 44 ∷ [])) }
{
    push_time(line, stay.begin)
}

#[inline(always)]
pub(crate) fn push_start(
    line: &mut Vec<u8>,
    last: &mut PrintedDay,
    stay: &Stay,
    local: &Local<'_>,
) -> Result<(), AllocError>
    ensures { OnOk result (line.new.items ≡ line.old.items ++ (signed_decimal stay.now.start ++ 44 ∷ []
        ++ iso_moment stay.now.start (clock_of local.now) ++ 44 ∷ [] ++ (signed_decimal stay.now.begin ++ 44 ∷ []))) }
{
    push_time(line, stay.start)?;
    push_iso(line, last, stay.start, local)?;
    line.push(b',')?;
    push_begin(line, stay)
}

#[inline(always)]
pub(crate) fn push_ending(
    line: &mut Vec<u8>,
    last: &mut PrintedDay,
    stay: &Stay,
    local: &Local<'_>,
) -> Result<(), AllocError>
    ensures { OnOk result (line.new.items ≡ line.old.items ++ (field_text default_writer (end_word stay.now.end) ++ 44 ∷ []
        ++ signed_decimal stay.now.end_time ++ 44 ∷ [] ++ iso_moment stay.now.end_time (clock_of local.now) ++ 44 ∷ [])) }
{
    push_end(line, stay.end)?;
    line.push(b',')?;
    push_time(line, stay.end_time)?;
    push_iso(line, last, stay.end_time, local)?;
    line.push(b',')?;
    Ok(())
}

fn push_row(
    line: &mut Vec<u8>,
    days: &mut PrintedDays,
    stay: &Stay,
    local: &Local<'_>,
) -> Result<(), AllocError>
    ensures { OnOk result (line.new.items ≡ line.old.items ++ row_text default_writer (stay_fields (clock_of local.now) stay.now)) }
{
    push_who(line, stay)?;
    push_start(line, &mut days.start, stay, local)?;
    push_ending(line, &mut days.end, stay, local)?;
    push_seconds(line, stay.length)
}

/// Appends the fields of a stay after that of its file.
pub(crate) fn push_stay_after_file(
    line: &mut Vec<u8>,
    days: &mut PrintedDays,
    stay: &Stay,
    local: &Local<'_>,
) -> Result<(), AllocError>
    ensures { OnOk result (line.new.items
        ≡ line.old.items ++ row_text default_writer (drop 1 (stay_fields (clock_of local.now) stay.now))) }
{
    push_user_at(line, stay)?;
    push_start(line, &mut days.start, stay, local)?;
    push_ending(line, &mut days.end, stay, local)?;
    push_seconds(line, stay.length)
}

/// The fields of a stay.
#[derive(Drop)]
pub(crate) struct StayFields<'a> {
    pub(crate) local: Local<'a>,
}

impl Line<Stay> for StayFields<'_> {
    ghost prints = { λ _. ⊤ };

    ghost text = { λ fields stay. row_text default_writer (stay_fields (clock_of fields.local) stay) };

    fn push(
        &self,
        page: &mut Vec<u8>,
        days: &mut PrintedDays,
        stay: &Stay,
    ) -> Result<(), AllocError> {
        push_row(page, days, stay, &self.local)
    }
}

impl Fields<Stay> for StayFields<'_> {
    ghost fields = { λ fields stay. stay_fields (clock_of fields.local) stay };

    ghost line_is = { λ _ _. refl };
}

/// The names of the columns.
#[tactic(auto, unfolding(crate::specs::StayTable::stay_header, csv::specs::Writing::fields_text, csv::specs::Writing::is_blank))]
pub(crate) fn stay_header() -> &'static [u8]
    ensures { result.now ≡ row_text default_writer stay_header }
{
    b"file,user,line,remote,start,start_at,begin,end,end_time,end_at,seconds\n"
}
