//! The arguments of the command line.
ghost use Rattle.std.specs.Prelude.{◌≡◌, false};
ghost use Rattle.clap.specs.Words.{rule_of};
ghost use Rattle.tally_line.specs.CommandLine.{askers_rule, by_file_rule, csv_rule, feeders_rule, file_rule, flag_rule, lettered_rule, limit_rule, long_flag_rule, millions_rule, minutes_rule, more_files_rule};
ghost use Rattle.tally_line.specs.CommandLine.{number_rule, paths_rule, repeated_rule, some_file_rule, sum_rule, until_rule, word_rule, zone_rule};

use clap::builder::ValueParser;
use clap::{Arg, ArgAction, value_parser};
use std::alloc::Global;

pub(crate) fn limit<'a>(alloc: Global, help: &'a str) -> Arg<'a>
    ensures rule { rule_of result ≡ limit_rule }
    ensures local { result.global ≡ false }
{
    Arg::new(alloc, "limit")
        .short('n')
        .value_name("N")
        .help(help)
        .value_parser(value_parser!(u32).range(1..=16_777_216))
}

pub(crate) fn flag<'a>(alloc: Global, id: &'a str, short: char, help: &'a str) -> Arg<'a>
    ensures rule { rule_of result ≡ flag_rule id.entry.now short }
    ensures local { result.global ≡ false }
{
    Arg::new(alloc, id)
        .short(short)
        .help(help)
        .action(ArgAction::SetTrue)
}

pub(crate) fn csv<'a>(alloc: Global) -> Arg<'a>
    ensures rule { rule_of result ≡ csv_rule }
    ensures local { result.global ≡ false }
{
    let help = "Print one table in CSV, in seconds and whole numbers, for other programs";
    long_flag(alloc, "csv", help)
}

pub(crate) fn paths<'a>(alloc: Global) -> Arg<'a>
    ensures rule { rule_of result ≡ paths_rule }
    ensures local { result.global ≡ false }
{
    let help = "With --csv, give each row that has a file the file's path, too";
    long_flag(alloc, "paths", help)
}

pub(crate) fn by_file<'a>(alloc: Global) -> Arg<'a>
    ensures rule { rule_of result ≡ by_file_rule }
    ensures local { result.global ≡ false }
{
    let help = "Report on each file by itself, and then on all; with --csv on each alone";
    long_flag(alloc, "by-file", help)
}

pub(crate) fn sum<'a>(alloc: Global) -> Arg<'a>
    ensures rule { rule_of result ≡ sum_rule }
    ensures local { result.global ≡ false }
{
    let help = "Count attempts by user and remote host over all files, the most first";
    long_flag(alloc, "sum", help)
}

/// A flag without a letter.
fn long_flag<'a>(alloc: Global, name: &'a str, help: &'a str) -> Arg<'a>
    ensures rule { rule_of result ≡ long_flag_rule name.entry.now }
    ensures local { result.global ≡ false }
{
    Arg::new(alloc, name)
        .long(name)
        .help(help)
        .action(ArgAction::SetTrue)
}

pub(crate) fn askers<'a>(alloc: Global) -> Arg<'a>
    ensures rule { rule_of result ≡ askers_rule }
    ensures local { result.global ≡ false }
{
    number(alloc, "askers", value_parser!(u32).range(0..=64), "0").help(
        "Ask reports with N threads while files are read, and print none of them, 0 to 64",
    )
}

pub(crate) fn millions<'a>(alloc: Global) -> Arg<'a>
    ensures rule { rule_of result ≡ millions_rule }
    ensures local { result.global ≡ false }
{
    number(alloc, "millions", value_parser!(u32).range(1..=16), "1").help(
        "Take up to N times 1048576 records of each kind, as in --millions 4, 1 to 16",
    )
}

pub(crate) fn feeders<'a>(alloc: Global) -> Arg<'a>
    ensures rule { rule_of result ≡ feeders_rule }
    ensures local { result.global ≡ false }
{
    number(alloc, "feeders", value_parser!(u32).range(1..=64), "4").help(
        "Read files with up to N threads, one a file, 1 to 64",
    )
}

/// Up to when sessions count that nothing has ended.
pub(crate) fn until<'a>(alloc: Global) -> Arg<'a>
    ensures rule { rule_of result ≡ until_rule }
    ensures local { result.global ≡ false }
{
    word(
        alloc,
        "until",
        "MOMENT",
        "Count open sessions up to MOMENT, as 2026-07-01, 2026-07-01T10:30, @1782864000 or now [default: the last record]",
    )
}

/// A long option with a word.
pub(crate) fn word<'a>(alloc: Global, name: &'a str, value: &'a str, help: &'a str) -> Arg<'a>
    ensures rule { rule_of result ≡ word_rule name.entry.now }
    ensures local { result.global ≡ false }
{
    Arg::new(alloc, name)
        .long(name)
        .value_name(value)
        .help(help)
}

/// The same with a moment and a letter.
pub(crate) fn lettered<'a>(alloc: Global, name: &'a str, letter: char, help: &'a str) -> Arg<'a>
    ensures rule { rule_of result ≡ lettered_rule name.entry.now letter }
    ensures local { result.global ≡ false }
{
    word(alloc, name, "MOMENT", help).short(letter)
}

/// A long option with a word, which may be repeated.
pub(crate) fn repeated<'a>(alloc: Global, name: &'a str, value: &'a str, help: &'a str) -> Arg<'a>
    ensures rule { rule_of result ≡ repeated_rule name.entry.now }
    ensures local { result.global ≡ false }
{
    word(alloc, name, value, help).action(ArgAction::Append)
}

pub(crate) fn zone<'a>(alloc: Global) -> Arg<'a>
    ensures rule { rule_of result ≡ zone_rule }
    ensures local { result.global ≡ false }
{
    Arg::new(alloc, "zone")
        .long("zone")
        .value_name("ZONE")
        .help(
            "Show times, cut days and read moments by the local time of ZONE: local, a name as Europe/Berlin, a file or a rule",
        )
        .value_parser(ValueParser::NonEmptyString)
}

/// The files of a report, which need not be named.
pub(crate) fn file<'a>(alloc: Global, help: &'a str) -> Arg<'a>
    ensures rule { rule_of result ≡ file_rule }
    ensures local { result.global ≡ false }
{
    Arg::new(alloc, "file")
        .value_name("FILE")
        .help(help)
        .num_args(1..)
}

/// The same where one has to be named.
pub(crate) fn some_file<'a>(alloc: Global, help: &'a str) -> Arg<'a>
    ensures rule { rule_of result ≡ some_file_rule }
    ensures local { result.global ≡ false }
{
    file(alloc, help).required(true)
}

/// Files named by `-f`, in one list with those without an option.
pub(crate) fn more_files<'a>(alloc: Global) -> Arg<'a>
    ensures rule { rule_of result ≡ more_files_rule }
    ensures local { result.global ≡ false }
{
    let help = "Read FILE, too, as if it stood without -f; may be repeated";
    file(alloc, help).short('f').action(ArgAction::Append)
}

/// A long option with minutes from UTC.
pub(crate) fn minutes<'a>(alloc: Global, name: &'a str, help: &'a str) -> Arg<'a>
    ensures rule { rule_of result ≡ minutes_rule name.entry.now }
    ensures local { result.global ≡ false }
{
    number(alloc, name, value_parser!(u32).range(0..=1439), "0")
        .value_name("M")
        .help(help)
}

/// A long option with a number.
fn number<'a>(alloc: Global, name: &'a str, parser: ValueParser<'a>, default: &'a str) -> Arg<'a>
    ensures rule { rule_of result ≡ number_rule name.entry.now parser.entry default.entry.now }
    ensures local { result.global ≡ false }
{
    Arg::new(alloc, name)
        .long(name)
        .value_name("N")
        .value_parser(parser)
        .default_value(default)
}
