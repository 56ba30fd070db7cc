//! The fields of a row with the path of its file after the number of the file.
ghost use Rattle.std.specs.Prelude.{◌≡◌, ◌++◌, ◌∷◌, [], IfOk, OnOk, drop, refl, ℕ};
ghost use Rattle.csv.specs.Writing.{default_writer, field_text, row_text};
ghost use Rattle.tally_print.specs.PathTable.{with_path};
ghost use Rattle.tally_print.specs.Text.{shown};
ghost use Rattle.tally_print.specs.inside.LocalTime.{clock_of};
ghost use Rattle.tally_print.specs.inside.Paths.{BeginsWithFile, attempt_begins, part_begins, stay_begins};

use crate::attempt_table::{AttemptFields, push_attempt_after_file};
use crate::file_columns::push_path;
use crate::lines::{Fields, Line};
use crate::part_table::{PartFields, push_part_after_file};
use crate::printed_day::PrintedDays;
use crate::stay_table::{StayFields, push_file, push_stay_after_file};
use std::alloc::{AllocError, Global};
use tally_attempts::Attempt;
use tally_sessions::Stay;

/// Fields of which the first is the number of a file.
pub(crate) trait NumberedFields<X>: Fields<X> {
    // The file of a row, from 0.
    ghost file: { X → ℕ };

    /// The file of a row, from 0.
    fn file_of(&self, row: &X) -> u32
        ensures { result ≡ file row.now };

    /// Appends the fields after the first.
    fn push_others(
        &self,
        page: &mut Vec<u8>,
        days: &mut PrintedDays,
        row: &X,
    ) -> Result<(), AllocError>
        requires { Self.Line.prints row.now }
        ensures { OnOk result (page.new.items
            ≡ page.old.items ++ row_text default_writer (drop 1 (Self.fields self.now row.now))) };

    // The number of the file is the first field of a row.
    ghost begins: { (self : Self) (row : X) → BeginsWithFile (file row) (Self.fields self row) };
}

impl NumberedFields<Stay> for StayFields<'_> {
    ghost file = { λ stay. stay.host };

    fn file_of(&self, stay: &Stay) -> u32 {
        stay.host
    }

    fn push_others(
        &self,
        page: &mut Vec<u8>,
        days: &mut PrintedDays,
        stay: &Stay,
    ) -> Result<(), AllocError> {
        push_stay_after_file(page, days, stay, &self.local)
    }

    ghost begins = { λ fields stay. stay_begins (clock_of fields.local) stay };
}

impl NumberedFields<Stay> for PartFields<'_> {
    ghost file = { λ stay. stay.host };

    fn file_of(&self, stay: &Stay) -> u32 {
        stay.host
    }

    fn push_others(
        &self,
        page: &mut Vec<u8>,
        days: &mut PrintedDays,
        stay: &Stay,
    ) -> Result<(), AllocError> {
        push_part_after_file(page, days, stay, &self.local, &self.period)
    }

    ghost begins = { λ fields stay. part_begins (clock_of fields.local) fields.period stay };
}

impl NumberedFields<Attempt> for AttemptFields<'_> {
    ghost file = { λ attempt. attempt.host };

    fn file_of(&self, attempt: &Attempt) -> u32 {
        attempt.host
    }

    fn push_others(
        &self,
        page: &mut Vec<u8>,
        days: &mut PrintedDays,
        attempt: &Attempt,
    ) -> Result<(), AllocError> {
        push_attempt_after_file(page, &mut days.start, attempt, &self.local)
    }

    ghost begins = { λ fields attempt. attempt_begins (clock_of fields.local) attempt };
}

/// The text of a path as a field, and the mark after it.
pub(crate) fn path_text(alloc: Global, path: &str) -> Result<Vec<u8>, AllocError>
    ensures { IfOk result (λ text. text.items ≡ field_text default_writer (shown path.now) ++ 44 ∷ []) }
{
    let mut text = Vec::new(alloc);
    push_path(&mut text, path)?;
    Ok(text)
}

/// The fields of a row, with the path of its file after the number of the file.
#[derive(Drop)]
pub(crate) struct PathFields<'a, F> {
    pub(crate) path: &'a str,
    /// What `path_text` makes of it.
    pub(crate) text: &'a [u8],
    pub(crate) fields: &'a F,
    pub(crate) ghost rendered: { text.now ≡ field_text default_writer (shown path.now) ++ 44 ∷ [] },
}

impl<X, F: NumberedFields<X>> Line<X> for PathFields<'_, F> {
    ghost prints = { F.Line.prints };

    ghost text = { λ all row. row_text default_writer (with_path all.path.now (F.fields all.fields.now row)) };

    fn push(&self, page: &mut Vec<u8>, days: &mut PrintedDays, row: &X) -> Result<(), AllocError> {
        push_file(page, self.fields.file_of(row))?;
        page.push(b',')?;
        page.extend_from_slice(self.text)?;
        self.fields.push_others(page, days, row)
    }
}

impl<X, F: NumberedFields<X>> Fields<X> for PathFields<'_, F> {
    ghost fields = { λ all row. with_path all.path.now (F.fields all.fields.now row) };

    ghost line_is = { λ _ _. refl };
}
