//! The command line as `clap` reads it.
ghost use Rattle.std.specs.Prelude.{IfOk};
ghost use Rattle.clap.specs.Words.{App, new_app, with_subcommand};
ghost use Rattle.tally_line.specs.CommandLine.{all_app, attempts_app, connect_app, check_app, last_app, tally_app, top_app, usage_app, with_usage_flags};
ghost use Rattle.tally_line.specs.inside.Commands.{IsCommand};

use crate::args::{
    askers, file, flag, lettered, limit, millions, repeated, some_file, sum, until, word,
};
use crate::shared::{
    Made, with, with_clock, with_file_table, with_lettered_period, with_more_files, with_names,
    with_options, with_period, with_table,
};
use clap::Command;
use std::alloc::Global;

/// The version, and by what its proofs were checked.
const VERSION: &str = "1.0.0\nproved with Rattle, logic dac8208d650f15bf";

const LOGINS: &str =
    "Read the login records of FILE [default: /var/log/wtmp, or /var/lib/wtmpdb/wtmp.db]";

const FAILED_LOGINS: &str = "Read the failed logins of FILE [default: /var/log/btmp]";

const PROCESSES: &str =
    "Read the process records of FILE [default: /var/log/account/pacct, or /var/account/pacct]";

/// The program's command, over words without the program's own name.
#[inline(never)]
pub(crate) fn tally<'a>(alloc: Global) -> Made<'a>
    ensures { IfOk result (IsCommand tally_app) }
{
    let command = with_under(top(alloc), last(alloc));
    let command = with_under(command, attempts(alloc));
    let command = with_under(command, connect(alloc));
    let command = with_under(command, usage(alloc));
    let command = with_under(command, all(alloc));
    with_under(command, check(alloc))
}

/// The command with a subcommand.
#[inline(never)]
fn with_under<'a>(command: Made<'a>, under: Made<'a>) -> Made<'a>
    ensures { (app below : App) → IfOk command.entry (IsCommand app) → IfOk under.entry (IsCommand below)
        → IfOk result (IsCommand (with_subcommand app below.top)) }
{
    let command = command?;
    let under = under?;
    command.subcommand(under)
}

fn top<'a>(alloc: Global) -> Made<'a>
    ensures { IfOk result (IsCommand top_app) }
{
    named(
        alloc,
        "tally",
        "Reports on login and process accounting files",
    )
    .no_binary_name(true)
    .subcommand_required(true)
    .version(VERSION)
    .bin_name("tally")
}

// The command and each subcommand are made in frames of their own, so that the program runs with little stack.
#[inline(never)]
fn last<'a>(alloc: Global) -> Made<'a>
    ensures { IfOk result (IsCommand last_app) }
{
    let about = "List login sessions and running times, as last(1) does";
    let help = "Show the latest N stays of each file, as in -n 5, 1 to 16777216 [default: all]";
    let command = with(Ok(named(alloc, "last", about)), limit(alloc, help));
    let command = with_names(
        alloc,
        command,
        "Show stays of the user NAME, up to eight times; running times are of reboot",
        "Show stays on the line NAME, as tty1, up to eight times",
    );
    let command = with_lettered_period(alloc, command);
    let help = "Show who was logged in at MOMENT, which is as for --from";
    let command = with(command, lettered(alloc, "at", 'p', help));
    let command = with(command, until(alloc));
    let command = with_table(alloc, command);
    with_more_files(alloc, command, LOGINS)
}

#[inline(never)]
fn attempts<'a>(alloc: Global) -> Made<'a>
    ensures { IfOk result (IsCommand attempts_app) }
{
    let about = "List failed logins, as lastb(8) does";
    let help =
        "Show the latest N attempts of each file, or the first N sums, as in -n 5, 1 to 16777216 [default: all]";
    let command = with(Ok(named(alloc, "lastb", about)), limit(alloc, help));
    let command = with(command, sum(alloc));
    let command = with_names(
        alloc,
        command,
        "Show attempts of the user NAME, up to eight times",
        "Show attempts on the line NAME, as ssh:notty, up to eight times",
    );
    let command = with_lettered_period(alloc, command);
    let command = with_table(alloc, command);
    with_more_files(alloc, command, FAILED_LOGINS)
}

#[inline(never)]
fn connect<'a>(alloc: Global) -> Made<'a>
    ensures { IfOk result (IsCommand connect_app) }
{
    let command = Ok(named(alloc, "ac", "Sum connect time, as ac(1) does"));
    let command = with(
        command,
        flag(
            alloc,
            "by_day",
            'd',
            "Sum by day, cut at midnight of UTC, the zone or the offset",
        ),
    );
    let command = with(command, flag(alloc, "by_user", 'p', "Sum by user"));
    let command = with_names(
        alloc,
        command,
        "Sum sessions of the user NAME, up to eight times",
        "Sum sessions on the line NAME, as tty1, up to eight times",
    );
    let command = with_period(alloc, command);
    let command = with(command, until(alloc));
    let command = with_file_table(alloc, command);
    with_more_files(alloc, command, LOGINS)
}

#[inline(never)]
fn usage<'a>(alloc: Global) -> Made<'a>
    ensures { IfOk result (IsCommand usage_app) }
{
    let about = "Sum the usage of commands, as sa(8) does";
    let command = with_usage_flags(alloc, Ok(named(alloc, "sa", about)));
    let help = "Sum processes of the user with number N, 0 to 4294967295, up to eight times";
    let command = with(command, repeated(alloc, "uid", "N", help));
    let command = with_period(alloc, command);
    let help = "With -m, name users as FILE does, which has lines of passwd(5), as /etc/passwd";
    let command = with(command, word(alloc, "names", "FILE", help));
    let command = with_file_table(alloc, command);
    with_options(alloc, command, file(alloc, PROCESSES))
}

#[inline(never)]
fn all<'a>(alloc: Global) -> Made<'a>
    ensures { IfOk result (IsCommand all_app) }
{
    let about = "Print last for each login file, then ac, then sa";
    let command = with(Ok(named(alloc, "all", about)), askers(alloc));
    let command = with(command, until(alloc));
    let command = with(command, millions(alloc));
    let help = "Read login records of w:PATH, process records of p:PATH";
    with_options(alloc, command, some_file(alloc, help))
}

#[inline(never)]
fn check<'a>(alloc: Global) -> Made<'a>
    ensures { IfOk result (IsCommand check_app) }
{
    let about =
        "Check files before a report is believed: what they have, and what is doubtful in them";
    let command = with_table(alloc, Ok(named(alloc, "check", about)));
    let command = with_clock(
        alloc,
        command,
        "Show times M minutes east of UTC, 0 to 1439; 60 for +0100",
        "Show times M minutes west of UTC, 0 to 1439; 300 for -0500",
    );
    let help = "Check FILE, of login or process records or of any other kind";
    with(command, some_file(alloc, help))
}

/// The flags of `sa`.
#[inline(never)]
fn with_usage_flags<'a>(alloc: Global, command: Made<'a>) -> Made<'a>
    ensures { (app : App) → IfOk command.entry (IsCommand app) → IfOk result (IsCommand (with_usage_flags app)) }
{
    let command = with(
        command,
        flag(
            alloc,
            "keep_all",
            'a',
            "Give a row to commands that were called once or whose name does not print, too",
        ),
    );
    let command = with(
        command,
        flag(alloc, "by_user", 'm', "Sum by user, not by command"),
    );
    let command = with(
        command,
        flag(alloc, "by_calls", 'n', "Order by calls, not by cpu time"),
    );
    with(command, flag(alloc, "reverse", 'r', "Reverse the order"))
}

/// A command with no argument.
fn named<'a>(alloc: Global, name: &'a str, about: &'a str) -> Command<'a>
    ensures { IsCommand (new_app name.entry.now) result }
{
    Command::new(alloc, name).about(about)
}
