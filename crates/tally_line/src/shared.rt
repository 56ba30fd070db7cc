//! The options that several subcommands share.
ghost use Rattle.std.specs.Prelude.{◌≡◌, IfOk, false};
ghost use Rattle.clap.specs.Words.{App, Rule, rule_of, with_rule};
ghost use Rattle.tally_line.specs.CommandLine.{with_clock, with_file_table, with_files, with_lettered_period, with_more_files, with_names, with_period, with_table};
ghost use Rattle.tally_line.specs.inside.Commands.{IsCommand};

use crate::args::{
    by_file, csv, feeders, file, lettered, millions, minutes, more_files, paths, repeated, word,
    zone,
};
use clap::{Arg, Command};
use std::alloc::{AllocError, Global};

/// A command, where there was memory for it.
pub(crate) type Made<'a> = Result<Command<'a>, AllocError>;

const FROM: &str =
    "Report from MOMENT on: a date as 2026-07-01, a time as 2026-07-01T10:30, seconds as @1782864000, or now";

const TO: &str = "Report up to, without, MOMENT, which is as for --from";

const IN: &str = "Report on a year, a month or a day, as 2026, 2026-07 or 2026-07-31";

/// The command with an argument.
#[inline(never)]
pub(crate) fn with<'a>(command: Made<'a>, arg: Arg<'a>) -> Made<'a>
    ensures { (app : App) (rule : Rule) → IfOk command.entry (IsCommand app) → rule_of arg.entry ≡ rule
        → arg.entry.global ≡ false → IfOk result (IsCommand (with_rule app rule)) }
{
    let command = command?;
    command.arg(arg)
}

/// The users and lines that sessions or failed logins are chosen by.
#[inline(never)]
pub(crate) fn with_names<'a>(
    alloc: Global,
    command: Made<'a>,
    user: &'a str,
    line: &'a str,
) -> Made<'a>
    ensures { (app : App) → IfOk command.entry (IsCommand app) → IfOk result (IsCommand (with_names app)) }
{
    let command = with(command, repeated(alloc, "user", "NAME", user));
    with(command, repeated(alloc, "line", "NAME", line))
}

/// The period that a report is over.
#[inline(never)]
pub(crate) fn with_period<'a>(alloc: Global, command: Made<'a>) -> Made<'a>
    ensures { (app : App) → IfOk command.entry (IsCommand app) → IfOk result (IsCommand (with_period app)) }
{
    let command = with(command, word(alloc, "from", "MOMENT", FROM));
    let command = with(command, word(alloc, "to", "MOMENT", TO));
    with(command, word(alloc, "in", "PERIOD", IN))
}

/// The same with the letters that last(1) has.
#[inline(never)]
pub(crate) fn with_lettered_period<'a>(alloc: Global, command: Made<'a>) -> Made<'a>
    ensures { (app : App) → IfOk command.entry (IsCommand app) → IfOk result (IsCommand (with_lettered_period app)) }
{
    let command = with(command, lettered(alloc, "from", 's', FROM));
    let command = with(command, lettered(alloc, "to", 't', TO));
    with(command, word(alloc, "in", "PERIOD", IN))
}

/// What makes the report a table, and gives the table paths.
#[inline(never)]
pub(crate) fn with_table<'a>(alloc: Global, command: Made<'a>) -> Made<'a>
    ensures { (app : App) → IfOk command.entry (IsCommand app) → IfOk result (IsCommand (with_table app)) }
{
    let command = with(command, csv(alloc));
    with(command, paths(alloc))
}

/// The same of a report that may be on each file by itself.
#[inline(never)]
pub(crate) fn with_file_table<'a>(alloc: Global, command: Made<'a>) -> Made<'a>
    ensures { (app : App) → IfOk command.entry (IsCommand app) → IfOk result (IsCommand (with_file_table app)) }
{
    let command = with(command, by_file(alloc));
    with_table(alloc, command)
}

/// The clock that times are shown by.
#[inline(never)]
pub(crate) fn with_clock<'a>(
    alloc: Global,
    command: Made<'a>,
    east: &'a str,
    west: &'a str,
) -> Made<'a>
    ensures { (app : App) → IfOk command.entry (IsCommand app) → IfOk result (IsCommand (with_clock app)) }
{
    let command = with(command, minutes(alloc, "east", east));
    let command = with(command, minutes(alloc, "west", west));
    with(command, zone(alloc))
}

/// The options that each report has, and its files.
#[inline(never)]
pub(crate) fn with_options<'a>(alloc: Global, command: Made<'a>, files: Arg<'a>) -> Made<'a>
    ensures { (app : App) (rule : Rule) → IfOk command.entry (IsCommand app) → rule_of files.entry ≡ rule
        → files.entry.global ≡ false → IfOk result (IsCommand (with_files rule app)) }
{
    let command = with(command, feeders(alloc));
    let command = with_clock(
        alloc,
        command,
        "Show times, cut days and read moments M minutes east of UTC, 0 to 1439; 60 for +0100",
        "Show times, cut days and read moments M minutes west of UTC, 0 to 1439; 300 for -0500",
    );
    with(command, files)
}

/// The same of a report that keeps records, where no file has to be named, and `-f` names some, too.
#[inline(never)]
pub(crate) fn with_more_files<'a>(alloc: Global, command: Made<'a>, files: &'a str) -> Made<'a>
    ensures { (app : App) → IfOk command.entry (IsCommand app) → IfOk result (IsCommand (with_more_files app)) }
{
    let command = with(command, more_files(alloc));
    let command = with(command, millions(alloc));
    with_options(alloc, command, file(alloc, files))
}
