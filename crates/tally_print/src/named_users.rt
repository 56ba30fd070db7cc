//! Usage by user where users have names, as text and as CSV.
ghost use Rattle.std.specs.Prelude.{◌≡◌, ◌++◌, ◌∷◌, [], OnOk, ⊤, refl};
ghost use Rattle.csv.specs.Writing.{default_writer, field_text, row_text};
ghost use Rattle.tally_print.specs.ConnectTable.{user_field};
ghost use Rattle.tally_print.specs.NamedUsers.{named_user_fields, named_user_header, named_user_line, named_user_table_text, named_users_text, user_word};
ghost use Rattle.tally_print.specs.Output.{IsWritable, Prints, failed_calls};
ghost use Rattle.tally_print.specs.Text.{left};
ghost use Rattle.tally_usage.specs.Names.{names_of};

use crate::fields::push_shown_field;
use crate::lines::{Fields, Line, print_headed_fields, print_lines};
use crate::printed_day::PrintedDays;
use crate::put::new_page;
use crate::text::{push_left_number, push_left_shown};
use crate::usage::{push_columns, push_named_total};
use crate::usage_table::{push_uid, push_usage};
use crate::{Output, PrintFault};
use std::alloc::{AllocError, Global};
use tally_usage::{UidRow, Usage, UserNames};

/// Appends the name of a user, or the number where it has none.
fn push_word(line: &mut Vec<u8>, names: &UserNames, uid: u32) -> Result<(), AllocError>
    ensures { OnOk result (line.new.items
        ≡ line.old.items ++ left (user_word (names_of names.now uid) uid) 10) }
{
    match names.name_of(uid) {
        Some(name) => push_left_shown(line, name, 10),
        None => push_left_number(line, uid, 10),
    }
}

#[tactic(auto, unfolding(crate::specs::NamedUsers::named_user_line))]
fn push_named_user(line: &mut Vec<u8>, names: &UserNames, row: &UidRow) -> Result<(), AllocError>
    ensures { OnOk result (line.new.items ≡ line.old.items ++ named_user_line (names_of names.now) row.now) }
{
    push_word(line, names, row.uid)?;
    line.push(b' ')?;
    push_columns(line, &row.usage)?;
    line.push(b'\n')?;
    Ok(())
}

/// Appends the field with the name of a user, which is empty where it has none.
fn push_name_field(line: &mut Vec<u8>, names: &UserNames, uid: u32) -> Result<(), AllocError>
    ensures { OnOk result (line.new.items
        ≡ line.old.items ++ (field_text default_writer (user_field (names_of names.now uid)) ++ 44 ∷ [])) }
{
    if let Some(name) = names.name_of(uid) {
        push_shown_field(line, name)?;
    }
    line.push(b',')?;
    Ok(())
}

fn push_named_fields(line: &mut Vec<u8>, names: &UserNames, row: &UidRow) -> Result<(), AllocError>
    ensures { OnOk result (line.new.items
        ≡ line.old.items ++ row_text default_writer (named_user_fields (names_of names.now) row.now)) }
{
    push_uid(line, row)?;
    push_name_field(line, names, row.uid)?;
    push_usage(line, &row.usage)
}

/// The names of the columns of usage by user where users have names.
#[tactic(auto, unfolding(crate::specs::NamedUsers::named_user_header, csv::specs::Writing::fields_text, csv::specs::Writing::is_blank))]
pub(crate) fn named_user_header() -> &'static [u8]
    ensures { result.now ≡ row_text default_writer named_user_header }
{
    b"uid,name,calls,real_ticks,cpu_ticks,io,mem_cpu\n"
}

/// The line of a user that may have a name.
#[derive(Drop)]
struct NamedUserLine<'a> {
    names: &'a UserNames,
}

impl Line<UidRow> for NamedUserLine<'_> {
    ghost prints = { λ _. ⊤ };

    ghost text = { λ users row. named_user_line (names_of users.names.now) row };

    fn push(
        &self,
        page: &mut Vec<u8>,
        _days: &mut PrintedDays,
        row: &UidRow,
    ) -> Result<(), AllocError> {
        push_named_user(page, self.names, row)
    }
}

/// The fields of a user that may have a name.
#[derive(Drop)]
pub(crate) struct NamedUserFields<'a> {
    pub(crate) names: &'a UserNames,
}

impl Line<UidRow> for NamedUserFields<'_> {
    ghost prints = { λ _. ⊤ };

    ghost text = { λ users row. row_text default_writer (named_user_fields (names_of users.names.now) row) };

    fn push(
        &self,
        page: &mut Vec<u8>,
        _days: &mut PrintedDays,
        row: &UidRow,
    ) -> Result<(), AllocError> {
        push_named_fields(page, self.names, row)
    }
}

impl Fields<UidRow> for NamedUserFields<'_> {
    ghost fields = { λ users row. named_user_fields (names_of users.names.now) row };

    ghost line_is = { λ _ _. refl };
}

/// Prints usage by user as sa(8) does with `-m`: the total, then a line for each row, with the name of
/// its user, or the number where it has none. `Write` is a failure of the output in this call; a first
/// part of the text was written then.
pub fn print_named_users<O: Output>(
    alloc: Global,
    names: &UserNames,
    rows: &[UidRow],
    total: &Usage,
    out: &mut O,
) -> Result<(), PrintFault>
    requires writable { IsWritable (O.state out.old) }
    ensures writes { Prints (O.state out.old) (O.state out.new) result (failed_calls result)
        (named_users_text (names_of names.now) rows.now total.now) }
{
    let mut page = new_page(alloc)?;
    push_named_total(&mut page, total)?;
    print_lines(page, &NamedUserLine { names }, rows, out)
}

/// Prints usage by user as CSV: the header, then a row for each user, with its number and its name.
/// `Write` is a failure of the output in this call; a first part of the text was written then.
pub fn print_named_user_table<O: Output>(
    alloc: Global,
    names: &UserNames,
    rows: &[UidRow],
    out: &mut O,
) -> Result<(), PrintFault>
    requires writable { IsWritable (O.state out.old) }
    ensures writes { Prints (O.state out.old) (O.state out.new) result (failed_calls result)
        (named_user_table_text (names_of names.now) rows.now) }
{
    print_headed_fields(
        alloc,
        named_user_header(),
        &NamedUserFields { names },
        rows,
        out,
    )
}
