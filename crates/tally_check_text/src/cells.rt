//! Fields of numbers and moments.
ghost use Rattle.std.specs.Prelude.{◌≡◌, ◌++◌, OnOk, [], decimal, map};
ghost use Rattle.tally_check_text.specs.inside.Cells as Spec;
ghost use Rattle.tally_check_text.specs.inside.Cells.{cell_text};
ghost use Rattle.tally_check_text.specs.inside.LocalTime.{clock_of};
ghost use Rattle.tally_check_text.specs.inside.Rows.{before, before_last};

use crate::fields::{push_at, push_count, push_second};
use crate::local::Local;
use std::alloc::AllocError;

/// A field.
#[derive(Clone, Copy)]
pub(crate) enum Cell {
    Nothing,
    Count(u64),
    /// In seconds since 1970.
    Second(i64),
    /// The moment of a second.
    At(i64),
}

/// The place of a record, where there is one.
pub(crate) fn place_cell(place: Option<usize>) -> Cell
    ensures { result ≡ Spec.place_cell place }
{
    match place {
        None => Cell::Nothing,
        Some(place) => Cell::Count(place as u64),
    }
}

fn push_nothing(text: &mut Vec<u8>) -> Result<(), AllocError>
    ensures { OnOk result (text.new.items ≡ text.old.items ++ before []) }
{
    text.push(b',')?;
    Ok(())
}

fn push_cell(text: &mut Vec<u8>, cell: Cell, local: &Local<'_>) -> Result<(), AllocError>
    ensures { OnOk result (text.new.items ≡ text.old.items ++ before (cell_text (clock_of local.now) cell)) }
{
    match cell {
        Cell::Nothing => push_nothing(text),
        Cell::Count(count) => push_count(text, count),
        Cell::Second(second) => push_second(text, second),
        Cell::At(second) => push_at(text, second, local),
    }
}

/// Appends fields that others follow.
pub(crate) fn push_cells(
    text: &mut Vec<u8>,
    cells: &[Cell],
    local: &Local<'_>,
) -> Result<(), AllocError>
    ensures { OnOk result (text.new.items
        ≡ text.old.items ++ before_last (map (cell_text (clock_of local.now)) cells.now)) }
{
    for cell in cells {
        push_cell(text, *cell, local)?;
    }
    Ok(())
}

/// Appends counts that other fields follow.
pub(crate) fn push_counts(text: &mut Vec<u8>, counts: &[usize]) -> Result<(), AllocError>
    ensures { OnOk result (text.new.items ≡ text.old.items ++ before_last (map decimal counts.now)) }
{
    for count in counts {
        push_count(text, *count as u64)?;
    }
    Ok(())
}
