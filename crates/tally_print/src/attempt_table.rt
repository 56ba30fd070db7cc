//! Failed logins and their sums as CSV.
ghost use Rattle.std.specs.Prelude.{◌≡◌, ◌+◌, ◌++◌, ◌∷◌, [], OnOk, decimal, drop, ⊤, refl};
ghost use Rattle.std.specs.Fmt.{signed_decimal};
ghost use Rattle.csv.specs.Writing.{default_writer, field_text, row_text};
ghost use Rattle.tally_print.specs.AttemptTable.{attempt_fields, attempt_header, attempt_sum_fields, attempt_sum_header};
ghost use Rattle.tally_print.specs.StayTable.{iso_moment};
ghost use Rattle.tally_print.specs.Text.{shown};
ghost use Rattle.tally_print.specs.inside.LocalTime.{clock_of};

use crate::fields::{push_number, push_shown_field};
use crate::lines::{Fields, Line};
use crate::local::Local;
use crate::printed_day::{PrintedDay, PrintedDays};
use crate::stay_table::{push_file, push_iso, push_time};
use std::alloc::AllocError;
use tally_attempts::{Attempt, AttemptSum};

/// Appends the text of a field as it is printed, and the mark after it.
#[inline(always)]
fn push_text(line: &mut Vec<u8>, field: &[u8]) -> Result<(), AllocError>
    ensures { OnOk result (line.new.items
        ≡ line.old.items ++ (field_text default_writer (shown field.now) ++ 44 ∷ [])) }
{
    push_shown_field(line, field)?;
    line.push(b',')?;
    Ok(())
}

/// Appends who tried where.
#[inline(always)]
fn push_user_at(line: &mut Vec<u8>, attempt: &Attempt) -> Result<(), AllocError>
    ensures { OnOk result (line.new.items ≡ line.old.items ++ ((field_text default_writer (shown attempt.now.user) ++ 44 ∷ [])
        ++ (field_text default_writer (shown attempt.now.line) ++ 44 ∷ [])
        ++ (field_text default_writer (shown attempt.now.remote) ++ 44 ∷ []))) }
{
    push_text(line, &attempt.user)?;
    push_text(line, &attempt.line)?;
    push_text(line, &attempt.remote)
}

/// Appends the number of the file, and who tried where.
fn push_who(line: &mut Vec<u8>, attempt: &Attempt) -> Result<(), AllocError>
    ensures { OnOk result (line.new.items ≡ line.old.items ++ (decimal (attempt.now.host + 1) ++ 44 ∷ []
        ++ (field_text default_writer (shown attempt.now.user) ++ 44 ∷ [])
        ++ (field_text default_writer (shown attempt.now.line) ++ 44 ∷ [])
        ++ (field_text default_writer (shown attempt.now.remote) ++ 44 ∷ []))) }
{
    push_file(line, attempt.host)?;
    line.push(b',')?;
    push_user_at(line, attempt)
}

/// Appends when it was, and ends the line.
fn push_when(
    line: &mut Vec<u8>,
    last: &mut PrintedDay,
    time: i32,
    local: &Local<'_>,
) -> Result<(), AllocError>
    ensures { OnOk result (line.new.items ≡ line.old.items
        ++ (signed_decimal time ++ 44 ∷ [] ++ iso_moment time (clock_of local.now) ++ 10 ∷ [])) }
{
    push_time(line, time)?;
    push_iso(line, last, time, local)?;
    line.push(b'\n')?;
    Ok(())
}

fn push_attempt(
    line: &mut Vec<u8>,
    last: &mut PrintedDay,
    attempt: &Attempt,
    local: &Local<'_>,
) -> Result<(), AllocError>
    ensures { OnOk result (line.new.items
        ≡ line.old.items ++ row_text default_writer (attempt_fields (clock_of local.now) attempt.now)) }
{
    push_who(line, attempt)?;
    push_when(line, last, attempt.time, local)
}

/// Appends the fields of a failed login after that of its file.
pub(crate) fn push_attempt_after_file(
    line: &mut Vec<u8>,
    last: &mut PrintedDay,
    attempt: &Attempt,
    local: &Local<'_>,
) -> Result<(), AllocError>
    ensures { OnOk result (line.new.items
        ≡ line.old.items ++ row_text default_writer (drop 1 (attempt_fields (clock_of local.now) attempt.now))) }
{
    push_user_at(line, attempt)?;
    push_when(line, last, attempt.time, local)
}

fn push_sum(line: &mut Vec<u8>, sum: &AttemptSum) -> Result<(), AllocError>
    ensures { OnOk result (line.new.items ≡ line.old.items ++ row_text default_writer (attempt_sum_fields sum.now)) }
{
    push_text(line, &sum.user)?;
    push_text(line, &sum.remote)?;
    push_number(line, sum.attempts)?;
    line.push(b'\n')?;
    Ok(())
}

/// The fields of a failed login.
#[derive(Drop)]
pub(crate) struct AttemptFields<'a> {
    pub(crate) local: Local<'a>,
}

impl Line<Attempt> for AttemptFields<'_> {
    ghost prints = { λ _. ⊤ };

    ghost text = { λ fields attempt. row_text default_writer (attempt_fields (clock_of fields.local) attempt) };

    fn push(
        &self,
        page: &mut Vec<u8>,
        days: &mut PrintedDays,
        attempt: &Attempt,
    ) -> Result<(), AllocError> {
        push_attempt(page, &mut days.start, attempt, &self.local)
    }
}

impl Fields<Attempt> for AttemptFields<'_> {
    ghost fields = { λ fields attempt. attempt_fields (clock_of fields.local) attempt };

    ghost line_is = { λ _ _. refl };
}

/// The fields of a sum.
pub(crate) struct AttemptSumFields;

impl Line<AttemptSum> for AttemptSumFields {
    ghost prints = { λ _. ⊤ };

    ghost text = { λ _ sum. row_text default_writer (attempt_sum_fields sum) };

    fn push(
        &self,
        page: &mut Vec<u8>,
        _days: &mut PrintedDays,
        sum: &AttemptSum,
    ) -> Result<(), AllocError> {
        push_sum(page, sum)
    }
}

impl Fields<AttemptSum> for AttemptSumFields {
    ghost fields = { λ _ sum. attempt_sum_fields sum };

    ghost line_is = { λ _ _. refl };
}

/// The names of the columns of failed logins.
#[tactic(auto, unfolding(crate::specs::AttemptTable::attempt_header, csv::specs::Writing::fields_text, csv::specs::Writing::is_blank))]
pub(crate) fn attempt_header() -> &'static [u8]
    ensures { result.now ≡ row_text default_writer attempt_header }
{
    b"file,user,line,remote,time,at\n"
}

/// The names of the columns of sums.
#[tactic(auto, unfolding(crate::specs::AttemptTable::attempt_sum_header, csv::specs::Writing::fields_text, csv::specs::Writing::is_blank))]
pub(crate) fn attempt_sum_header() -> &'static [u8]
    ensures { result.now ≡ row_text default_writer attempt_sum_header }
{
    b"user,remote,attempts\n"
}
