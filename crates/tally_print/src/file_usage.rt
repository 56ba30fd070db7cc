//! Usage of each file by itself: what stands around it as text, and its rows as CSV, after the columns of the file.
ghost use Rattle.std.specs.Prelude.{◌≡◌, ◌++◌, ◌∷◌, [], All, OnOk, codes, flat_map, map, ⊤};
ghost use Rattle.csv.specs.Writing.{default_writer, row_text};
ghost use Rattle.tally_answers.specs.Answers.{HasDay};
ghost use Rattle.tally_print.specs.FileColumns.{columns_of, rows_after};
ghost use Rattle.tally_print.specs.FileUsage.{file_command_rows, file_connect_rows, file_header, file_named_user_rows, file_user_rows, header_of, path_line};
ghost use Rattle.tally_print.specs.Output.{IsWritable, Prints, failed_calls};
ghost use Rattle.tally_print.specs.Tables.{csv_text};
ghost use Rattle.tally_print.specs.Text.{field_text, shown_byte};
ghost use Rattle.tally_print.specs.inside.Tables.{IsWide};
ghost use Rattle.tally_usage.specs.Names.{names_of};

use crate::connect::total_row;
use crate::connect_table::{ConnectFields, connect_header};
use crate::file_columns::{file_names, head_of};
use crate::lines::{Fields, Line, print_lines, put_lines};
use crate::named_users::{NamedUserFields, named_user_header};
use crate::printed_day::PrintedDays;
use crate::put::{new_page, put_all};
use crate::text::shown_byte;
use crate::usage_table::{CommandFields, UserFields, command_header, user_header};
use crate::{FileColumns, Output, PrintFault};
use std::alloc::{AllocError, Global};
use tally_answers::ConnectRow;
use tally_usage::{CommandRow, UidRow, UserNames};

/// Which table the usage of each file is as CSV: this says its columns after those of the file.
#[derive(Clone, Copy, Debug, PartialEq, Eq)]
pub enum FileTable {
    /// A row for each command.
    Commands,
    /// A row for each user.
    Users,
    /// A row for each user, with its name.
    NamedUsers,
    /// Connect times by day, by user, by both, or the total alone.
    Connect { by_day: bool, by_user: bool },
}

/// The fields of a row after the columns of its file.
#[derive(Drop)]
struct FileFields<'a, F> {
    /// The text of these columns.
    head: &'a [u8],
    fields: &'a F,
}

impl<X, F: Fields<X>> Line<X> for FileFields<'_, F> {
    ghost prints = { F.Line.prints };

    ghost text = { λ file row. file.head.now ++ row_text default_writer (F.fields file.fields.now row) };

    fn push(&self, page: &mut Vec<u8>, days: &mut PrintedDays, row: &X) -> Result<(), AllocError> {
        page.extend_from_slice(self.head)?;
        self.fields.push(page, days, row)
    }
}

/// A byte of a text, as it is printed.
struct ShownByte;

impl Line<u8> for ShownByte {
    ghost prints = { λ _. ⊤ };

    ghost text = { λ _ byte. shown_byte byte ∷ [] };

    fn push(
        &self,
        page: &mut Vec<u8>,
        _days: &mut PrintedDays,
        byte: &u8,
    ) -> Result<(), AllocError> {
        page.push(shown_byte(*byte))?;
        Ok(())
    }
}

/// The text of a field, which ends before its first NUL.
fn text_of(field: &[u8]) -> &[u8]
    ensures { result.now ≡ field_text field.now }
{
    let mut end = 0;
    while end < field.len() && field[end] != 0 {
        end += 1;
    }
    &field[..end]
}

/// Appends the end of the line of a file.
fn push_line_end(line: &mut Vec<u8>) -> Result<(), AllocError>
    ensures { OnOk result (line.new.items ≡ line.old.items ++ codes ":\n") }
{
    line.extend_from_slice(b":\n")
}

/// Prints each byte of a text as it is printed, page by page, and the end of its line.
fn print_shown_line<O: Output>(alloc: Global, text: &[u8], out: &mut O) -> Result<(), PrintFault>
    requires writable { IsWritable (O.state out.old) }
    ensures writes { Prints (O.state out.old) (O.state out.new) result (failed_calls result)
        (map shown_byte text.now ++ codes ":\n") }
{
    let mut page = new_page(alloc)?;
    put_lines(&mut page, &ShownByte, text, out)?;
    push_line_end(&mut page)?;
    put_all(page.as_slice(), out)
}

/// Prints the line above what a file has: its path, as any text is printed, and a colon. `Write` is a
/// failure of the output in this call; a first part of the line was written then.
pub fn print_path_line<O: Output>(alloc: Global, path: &str, out: &mut O) -> Result<(), PrintFault>
    requires writable { IsWritable (O.state out.old) }
    ensures writes { Prints (O.state out.old) (O.state out.new) result (failed_calls result)
        (path_line path.now) }
{
    print_shown_line(alloc, text_of(path.as_bytes()), out)
}

/// Prints the empty line after what a file has. `Write` is a failure of the output in this call.
pub fn print_empty_line<O: Output>(out: &mut O) -> Result<(), PrintFault>
    requires writable { IsWritable (O.state out.old) }
    ensures writes { Prints (O.state out.old) (O.state out.new) result (failed_calls result) (codes "\n") }
{
    put_all(b"\n", out)
}

/// The names of the columns of a table but those of the file.
fn header_of(table: FileTable) -> &'static [u8]
    ensures { result.now ≡ row_text default_writer (header_of table) }
{
    match table {
        FileTable::Commands => command_header(),
        FileTable::Users => user_header(),
        FileTable::NamedUsers => named_user_header(),
        FileTable::Connect { by_day, by_user } => connect_header(by_day, by_user),
    }
}

/// Prints the names of the columns of the file, and then the names of the others.
fn print_columns<O: Output>(first: &[u8], others: &[u8], out: &mut O) -> Result<(), PrintFault>
    requires writable { IsWritable (O.state out.old) }
    ensures writes { Prints (O.state out.old) (O.state out.new) result (failed_calls result)
        (first.now ++ others.now) }
{
    put_all(first, out)?;
    put_all(others, out)
}

/// Prints the names of the columns of a table, with that of the path of the file where rows have it. `Write`
/// is a failure of the output in this call; a first part of the text was written then.
#[tactic(auto, using(crate::proofs::FileLemmas::file_header_text))]
pub fn print_file_header<O: Output>(
    table: FileTable,
    paths: bool,
    out: &mut O,
) -> Result<(), PrintFault>
    requires writable { IsWritable (O.state out.old) }
    ensures writes { Prints (O.state out.old) (O.state out.new) result (failed_calls result)
        (csv_text (file_header paths table ∷ [])) }
{
    print_columns(file_names(paths), header_of(table), out)
}

/// Prints a line for each row: this text, and then the fields of the row.
fn print_after<X, F: Fields<X>, O: Output>(
    alloc: Global,
    head: &[u8],
    fields: &F,
    rows: &[X],
    out: &mut O,
) -> Result<(), PrintFault>
    requires writable { IsWritable (O.state out.old) }
    requires printed { All F.Line.prints rows.now }
    ensures writes { Prints (O.state out.old) (O.state out.new) result (failed_calls result)
        (flat_map (λ row. head.now ++ row_text default_writer (F.fields fields.now row)) rows.now) }
{
    print_lines(new_page(alloc)?, &FileFields { head, fields }, rows, out)
}

/// Prints a row for each row of a file, after the columns of the file.
fn print_file_rows<X, F: Fields<X>, O: Output>(
    alloc: Global,
    file: FileColumns<'_>,
    fields: &F,
    rows: &[X],
    out: &mut O,
) -> Result<(), PrintFault>
    requires writable { IsWritable (O.state out.old) }
    requires printed { All F.Line.prints rows.now }
    requires wide { (row : X) → IsWide (F.fields fields.now row) }
    ensures writes { Prints (O.state out.old) (O.state out.new) result (failed_calls result)
        (csv_text (rows_after (columns_of file.entry) (F.fields fields.now) rows.now)) }
{
    let head = head_of(alloc, file)?;
    print_after(alloc, head.as_slice(), fields, rows, out)
}

/// Prints the usage by command of a file: a row for each command. `Write` is a failure of the output in this
/// call; a first part of the text was written then.
#[tactic(auto, using(crate::proofs::FileLemmas::wide_command))]
pub fn print_file_commands<O: Output>(
    alloc: Global,
    file: FileColumns<'_>,
    rows: &[CommandRow],
    out: &mut O,
) -> Result<(), PrintFault>
    requires writable { IsWritable (O.state out.old) }
    ensures writes { Prints (O.state out.old) (O.state out.new) result (failed_calls result)
        (csv_text (file_command_rows (columns_of file.entry) rows.now)) }
{
    print_file_rows(alloc, file, &CommandFields, rows, out)
}

/// Prints the usage by user of a file: a row for each user. `Write` is a failure of the output in this call; a
/// first part of the text was written then.
#[tactic(auto, using(crate::proofs::FileLemmas::wide_user))]
pub fn print_file_users<O: Output>(
    alloc: Global,
    file: FileColumns<'_>,
    rows: &[UidRow],
    out: &mut O,
) -> Result<(), PrintFault>
    requires writable { IsWritable (O.state out.old) }
    ensures writes { Prints (O.state out.old) (O.state out.new) result (failed_calls result)
        (csv_text (file_user_rows (columns_of file.entry) rows.now)) }
{
    print_file_rows(alloc, file, &UserFields, rows, out)
}

/// Prints the usage by user of a file: a row for each user, with its name. `Write` is a failure of the output
/// in this call; a first part of the text was written then.
#[tactic(auto, using(crate::proofs::FileLemmas::wide_named_user))]
pub fn print_file_named_users<O: Output>(
    alloc: Global,
    file: FileColumns<'_>,
    names: &UserNames,
    rows: &[UidRow],
    out: &mut O,
) -> Result<(), PrintFault>
    requires writable { IsWritable (O.state out.old) }
    ensures writes { Prints (O.state out.old) (O.state out.new) result (failed_calls result)
        (csv_text (file_named_user_rows (columns_of file.entry) (names_of names.now) rows.now)) }
{
    print_file_rows(alloc, file, &NamedUserFields { names }, rows, out)
}

/// Prints the connect times of a file: a row for each, or the total alone where they are neither by day nor by
/// user. `Write` is a failure of the output in this call; a first part of the text was written then.
#[tactic(auto, using(crate::proofs::FileLemmas::wide_connect))]
pub fn print_file_connect<O: Output>(
    alloc: Global,
    file: FileColumns<'_>,
    by_day: bool,
    by_user: bool,
    rows: &[ConnectRow],
    total: u64,
    out: &mut O,
) -> Result<(), PrintFault>
    requires writable { IsWritable (O.state out.old) }
    requires days { All HasDay rows.now }
    ensures writes { Prints (O.state out.old) (O.state out.new) result (failed_calls result)
        (csv_text (file_connect_rows (columns_of file.entry) by_day by_user rows.now total)) }
{
    let fields = ConnectFields { by_day, by_user };
    if by_day || by_user {
        print_file_rows(alloc, file, &fields, rows, out)
    } else {
        print_file_rows(alloc, file, &fields, &[total_row(total)], out)
    }
}
