//! A line for each row, page by page.
ghost use Rattle.std.specs.Prelude.{◌≡◌, ◌++◌, All, List, OnOk, flat_map, map, ℕ};
ghost use Rattle.csv.specs.Writing.{default_writer, row_text};
ghost use Rattle.tally_print.specs.Output.{IsWritable, Prints, failed_calls};
ghost use Rattle.tally_print.specs.Tables.{Row, csv_text};
ghost use Rattle.tally_print.specs.inside.Pages.{Fills};

use crate::printed_day::PrintedDays;
use crate::put::{new_page, put_all, turn_page};
use crate::{Output, PrintFault};
use std::alloc::{AllocError, Global};

/// How a row is printed.
pub(crate) trait Line<X> {
    // The rows that it can print.
    ghost prints: { X → Type 0 };

    // The line of a row.
    ghost text: { Self → X → List ℕ };

    /// Appends the line of the row, where these days were printed last.
    fn push(&self, page: &mut Vec<u8>, days: &mut PrintedDays, row: &X) -> Result<(), AllocError>
        requires { prints row.now }
        ensures { OnOk result (page.new.items ≡ page.old.items ++ text self.now row.now) };
}

/// A line that is a row of a table.
pub(crate) trait Fields<X>: Line<X> {
    // The fields of a row.
    ghost fields: { Self → X → Row };

    // They are what its line says.
    ghost line_is: { (self : Self) (row : X) → Self.text self row ≡ row_text default_writer (fields self row) };
}

/// Appends a line for each row to the page, which is written out each time that it is full.
pub(crate) fn put_lines<X, L: Line<X>, O: Output>(
    page: &mut Vec<u8>,
    line: &L,
    rows: &[X],
    out: &mut O,
) -> Result<(), PrintFault>
    requires writable { IsWritable (O.state out.old) }
    requires printed { All L.prints rows.now }
    ensures fills { Fills (O.state out.old) (O.state out.new) result (failed_calls result) page.new.items
        (page.old.items ++ flat_map (L.text line.now) rows.now) }
{
    let mut days = PrintedDays::first();
    for row in rows {
        line.push(page, &mut days, row)?;
        turn_page(page, out)?;
    }
    Ok(())
}

/// Writes the page, and then a line for each row.
pub(crate) fn print_lines<X, L: Line<X>, O: Output>(
    mut page: Vec<u8>,
    line: &L,
    rows: &[X],
    out: &mut O,
) -> Result<(), PrintFault>
    requires writable { IsWritable (O.state out.old) }
    requires printed { All L.prints rows.now }
    ensures writes { Prints (O.state out.old) (O.state out.new) result (failed_calls result)
        (page.items ++ flat_map (L.text line.now) rows.now) }
{
    put_lines(&mut page, line, rows, out)?;
    put_all(page.as_slice(), out)
}

/// Prints a row of a table for each row.
pub(crate) fn print_fields<X, F: Fields<X>, O: Output>(
    alloc: Global,
    fields: &F,
    rows: &[X],
    out: &mut O,
) -> Result<(), PrintFault>
    requires writable { IsWritable (O.state out.old) }
    requires printed { All F.Line.prints rows.now }
    ensures writes { Prints (O.state out.old) (O.state out.new) result (failed_calls result)
        (csv_text (map (F.fields fields.now) rows.now)) }
{
    print_lines(new_page(alloc)?, fields, rows, out)
}

/// Prints a text, and then a row of a table for each row.
pub(crate) fn print_headed_fields<X, F: Fields<X>, O: Output>(
    alloc: Global,
    header: &[u8],
    fields: &F,
    rows: &[X],
    out: &mut O,
) -> Result<(), PrintFault>
    requires writable { IsWritable (O.state out.old) }
    requires printed { All F.Line.prints rows.now }
    ensures writes { Prints (O.state out.old) (O.state out.new) result (failed_calls result)
        (header.now ++ csv_text (map (F.fields fields.now) rows.now)) }
{
    let mut page = new_page(alloc)?;
    page.extend_from_slice(header)?;
    print_lines(page, fields, rows, out)
}
