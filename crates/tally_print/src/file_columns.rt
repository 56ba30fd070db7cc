//! The columns of a file, which stand before the others of a row.
ghost use Rattle.std.specs.Prelude.{◌≡◌, ◌++◌, ◌∷◌, [], IfOk, OnOk, decimal};
ghost use Rattle.csv.specs.Writing.{default_writer, field_text};
ghost use Rattle.tally_print.specs.FileColumns.{columns_of, file_names, path_column, path_lent};
ghost use Rattle.tally_print.specs.Text.{shown};
ghost use Rattle.tally_print.specs.inside.Tables.{before_last};

use crate::fields::{push_number, push_shown_field};
use std::alloc::{AllocError, Global};

/// The file of a row.
#[derive(Clone, Copy)]
pub struct FileColumns<'a> {
    /// From 1.
    pub number: u32,
    /// Its path, where rows have it.
    pub path: Option<&'a str>,
}

/// Appends the number of a file, and the mark after it.
fn push_file(line: &mut Vec<u8>, number: u32) -> Result<(), AllocError>
    ensures { OnOk result (line.new.items ≡ line.old.items ++ (decimal number ++ 44 ∷ [])) }
{
    push_number(line, number)?;
    line.push(b',')?;
    Ok(())
}

/// Appends a path as it is printed, and the mark after it.
pub(crate) fn push_path(line: &mut Vec<u8>, path: &str) -> Result<(), AllocError>
    ensures { OnOk result (line.new.items
        ≡ line.old.items ++ (field_text default_writer (shown path.now) ++ 44 ∷ [])) }
{
    push_shown_field(line, path.as_bytes())?;
    line.push(b',')?;
    Ok(())
}

/// Appends the path of a file, where rows have it.
fn push_path_column(line: &mut Vec<u8>, path: Option<&str>) -> Result<(), AllocError>
    ensures { OnOk result (line.new.items ≡ line.old.items ++ before_last (path_column (path_lent path.entry))) }
{
    match path {
        Some(path) => push_path(line, path),
        None => Ok(()),
    }
}

/// The text of the columns of a file, which other fields follow.
pub(crate) fn head_of(alloc: Global, file: FileColumns<'_>) -> Result<Vec<u8>, AllocError>
    ensures { IfOk result (λ head. head.items ≡ before_last (columns_of file.entry)) }
{
    let mut head = Vec::new(alloc);
    push_file(&mut head, file.number)?;
    push_path_column(&mut head, file.path)?;
    Ok(head)
}

/// The names of the columns of a file, which others follow.
pub(crate) fn file_names(paths: bool) -> &'static [u8]
    ensures { result.now ≡ before_last (file_names paths) }
{
    if paths { b"file,path," } else { b"file," }
}
