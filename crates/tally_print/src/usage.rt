ghost use Rattle.std.specs.Prelude.{◌≡◌, ◌++◌, OnOk, codes, if◌then◌else◌, ⊤};
ghost use Rattle.tally_print.specs.Output.{IsWritable, Prints, failed_calls};
ghost use Rattle.tally_print.specs.UsageText.{average, columns, total_line, command_line, commands_text, named_total_line, user_line, users_text};

use crate::lines::{Line, print_lines};
use crate::printed_day::PrintedDays;
use crate::put::new_page;
use crate::text::{
    push_left, push_left_number, push_right_minutes, push_right_number, push_right_wide,
    push_shown, quotient,
};
use crate::{Output, PrintFault};
use std::alloc::{AllocError, Global};
use tally_usage::{CommandRow, UidRow, Usage};

fn average(sum: u128, count: u64) -> u128
    ensures { result ≡ average sum count }
{
    if count == 0 { 0 } else { quotient(sum, count) }
}

#[tactic(auto, unfolding(crate::specs::UsageText::columns))]
pub(crate) fn push_columns(line: &mut Vec<u8>, usage: &Usage) -> Result<(), AllocError>
    ensures { OnOk result (line.new.items ≡ line.old.items ++ columns usage.now) }
{
    push_right_number(line, usage.count, 8)?;
    line.push(b' ')?;
    push_right_minutes(line, usage.real, 12)?;
    line.extend_from_slice(b"re ")?;
    push_right_minutes(line, u128::from(usage.cpu), 12)?;
    line.extend_from_slice(b"cp ")?;
    push_right_wide(line, average(u128::from(usage.io), usage.count), 10)?;
    line.extend_from_slice(b"avio ")?;
    push_right_wide(line, average(usage.mem_cpu, usage.cpu), 10)?;
    line.push(b'k')?;
    Ok(())
}

#[tactic(auto, unfolding(crate::specs::UsageText::total_line))]
fn push_total(line: &mut Vec<u8>, total: &Usage) -> Result<(), AllocError>
    ensures { OnOk result (line.new.items ≡ line.old.items ++ total_line total.now) }
{
    push_columns(line, total)?;
    line.push(b'\n')?;
    Ok(())
}

#[tactic(auto, unfolding(crate::specs::UsageText::named_total_line))]
pub(crate) fn push_named_total(line: &mut Vec<u8>, total: &Usage) -> Result<(), AllocError>
    ensures { OnOk result (line.new.items ≡ line.old.items ++ named_total_line total.now) }
{
    push_left(line, b"total", 10)?;
    line.push(b' ')?;
    push_columns(line, total)?;
    line.push(b'\n')?;
    Ok(())
}

fn push_fork_mark(line: &mut Vec<u8>, forked: bool) -> Result<(), AllocError>
    ensures { OnOk result
        (line.new.items ≡ line.old.items ++ (if forked then codes "*" else codes "")) }
{
    if forked {
        line.push(b'*')?;
    }
    Ok(())
}

#[tactic(auto, unfolding(crate::specs::UsageText::command_line))]
fn push_command(line: &mut Vec<u8>, row: &CommandRow) -> Result<(), AllocError>
    ensures { OnOk result (line.new.items ≡ line.old.items ++ command_line row.now) }
{
    push_columns(line, &row.usage)?;
    line.push(b' ')?;
    push_shown(line, &row.name)?;
    push_fork_mark(line, row.forked)?;
    line.push(b'\n')?;
    Ok(())
}

#[tactic(auto, unfolding(crate::specs::UsageText::user_line))]
fn push_user(line: &mut Vec<u8>, row: &UidRow) -> Result<(), AllocError>
    ensures { OnOk result (line.new.items ≡ line.old.items ++ user_line row.now) }
{
    push_left_number(line, row.uid, 10)?;
    line.push(b' ')?;
    push_columns(line, &row.usage)?;
    line.push(b'\n')?;
    Ok(())
}

/// The line of a command.
struct CommandLine;

impl Line<CommandRow> for CommandLine {
    ghost prints = { λ _. ⊤ };

    ghost text = { λ _ row. command_line row };

    fn push(
        &self,
        page: &mut Vec<u8>,
        _days: &mut PrintedDays,
        row: &CommandRow,
    ) -> Result<(), AllocError> {
        push_command(page, row)
    }
}

/// The line of a user.
struct UserLine;

impl Line<UidRow> for UserLine {
    ghost prints = { λ _. ⊤ };

    ghost text = { λ _ row. user_line row };

    fn push(
        &self,
        page: &mut Vec<u8>,
        _days: &mut PrintedDays,
        row: &UidRow,
    ) -> Result<(), AllocError> {
        push_user(page, row)
    }
}

/// Prints usage by command as sa(8) does: the total, then a line for each row. `Write` is a
/// failure of the output in this call; a first part of the text was written then.
pub fn print_commands<O: Output>(
    alloc: Global,
    rows: &[CommandRow],
    total: &Usage,
    out: &mut O,
) -> Result<(), PrintFault>
    requires writable { IsWritable (O.state out.old) }
    ensures writes { Prints (O.state out.old) (O.state out.new) result (failed_calls result)
        (commands_text rows.now total.now) }
{
    let mut page = new_page(alloc)?;
    push_total(&mut page, total)?;
    print_lines(page, &CommandLine, rows, out)
}

/// Prints usage by user as sa(8) does with `-m`: the total, then a line for each row. `Write` is
/// a failure of the output in this call; a first part of the text was written then.
pub fn print_users<O: Output>(
    alloc: Global,
    rows: &[UidRow],
    total: &Usage,
    out: &mut O,
) -> Result<(), PrintFault>
    requires writable { IsWritable (O.state out.old) }
    ensures writes { Prints (O.state out.old) (O.state out.new) result (failed_calls result)
        (users_text rows.now total.now) }
{
    let mut page = new_page(alloc)?;
    push_named_total(&mut page, total)?;
    print_lines(page, &UserLine, rows, out)
}
