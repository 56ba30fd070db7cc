//! The command line's words read as a job.
ghost use Rattle.std.specs.Prelude.{◌≡◌, [], Some, IfErr, IfNone, IfOk, IfSome, map, slice_index_or, string_bytes};
ghost use Rattle.clap.specs.Words.{found_of, rows_of, subcommand_rows_of};
ghost use Rattle.tally_line.specs.FileWords.{NamesFiles};
ghost use Rattle.tally_line.specs.Lines.{Answers, AreSound, HasNoWord, Refuses, file_words, met_in, words_in};
ghost use Rattle.tally_line.specs.inside.LineSteps.{AsksReport, IsComplete, IsFaultOf, IsFileFault, IsLineOf};

use crate::apart::{files_asked, mistake_in_paths};
use crate::check::check_of;
use crate::command;
use crate::files::files_of;
use crate::job::Report;
use crate::line::{FileArg, Line, LineFault};
use crate::moments::{mistake_in_moments, times_in};
use crate::named::mistake_in_names;
use crate::offsets::{NOT_PLAIN, has_plain_offsets};
use crate::options::{job_from, report_of};
use crate::refused::{fault_of, refused};
use crate::usage_words::{mistake_in_usage, usage_asked};
use crate::zones::{TWO_CLOCKS, has_one_clock, zone_of};
use clap::ArgMatches;
use std::alloc::Global;

/// Reads the words after the program's own name.
#[inline(never)]
pub fn job_of(alloc: Global, words: &[String]) -> Result<Line, LineFault>
    ensures ok { IfOk result (Answers (map string_bytes words.now)) }
    ensures err { IfErr result (Refuses (map string_bytes words.now)) }
{
    let command = command::tally(alloc)?;
    match command.try_get_matches_from(words) {
        Ok(matches) => run_of(alloc, &matches),
        Err(error) => refused(alloc, &error),
    }
}

/// The file word with this index, of words that name so many files; else an empty text.
#[inline(never)]
pub fn file_word(alloc: Global, words: &[String], index: usize) -> Result<String, LineFault>
    ensures word { IfOk result (λ word. string_bytes word
        ≡ slice_index_or (file_words (met_in (map string_bytes words.now))) index []) }
    ensures err { IfErr result (HasNoWord (map string_bytes words.now)) }
{
    let command = command::tally(alloc)?;
    match command.try_get_matches_from(words) {
        Ok(matches) => Ok(String::from_str(alloc, word_at(&matches, index))?),
        Err(error) => Err(fault_of(alloc, &error)),
    }
}

fn word_at<'a>(matches: &ArgMatches<'a>, index: usize) -> &'a str
    ensures { result.now ≡ slice_index_or (file_words (subcommand_rows_of matches.now)) index [] }
{
    match matches.subcommand() {
        Some((_, matches)) => word_under(matches, index),
        None => "",
    }
}

fn word_under<'a>(matches: &ArgMatches<'a>, index: usize) -> &'a str
    ensures { result.now ≡ slice_index_or (words_in (rows_of (found_of matches.now))) index [] }
{
    let Some(words) = matches.get_raw("file") else {
        return "";
    };
    match words.get(index) {
        Some(word) => word,
        None => "",
    }
}

/// What the matches of a whole command line ask for.
#[inline(never)]
fn run_of(alloc: Global, matches: &ArgMatches<'_>) -> Result<Line, LineFault>
    requires { IsComplete (subcommand_rows_of matches.now) }
    ensures ok { IfOk result (IsLineOf (subcommand_rows_of matches.now)) }
    ensures err { IfErr result (IsFaultOf (subcommand_rows_of matches.now)) }
{
    match matches.subcommand() {
        Some((name, matches)) => run_under(alloc, name, matches),
        None => unreachable!(),
    }
}

/// What a subcommand asks for.
fn run_under(alloc: Global, name: &str, matches: &ArgMatches<'_>) -> Result<Line, LineFault>
    requires { IsComplete (Some (name.now, rows_of (found_of matches.now))) }
    ensures ok { IfOk result (IsLineOf (Some (name.now, rows_of (found_of matches.now)))) }
    ensures err { IfErr result (IsFaultOf (Some (name.now, rows_of (found_of matches.now)))) }
{
    if let Some(mistake) = mistake_in(matches) {
        let text = String::from_str(alloc, mistake)?;
        return Err(LineFault::Usage { text });
    }
    match name {
        "check" => Ok(Line::Check(check_of(alloc, matches)?)),
        _ => report_under(alloc, name, matches),
    }
}

/// The run that a report's subcommand asks for.
fn report_under(alloc: Global, name: &str, matches: &ArgMatches<'_>) -> Result<Line, LineFault>
    requires complete { IsComplete (Some (name.now, rows_of (found_of matches.now))) }
    requires report { AsksReport (Some (name.now, rows_of (found_of matches.now))) }
    requires sound { AreSound (rows_of (found_of matches.now)) }
    ensures ok { IfOk result (IsLineOf (Some (name.now, rows_of (found_of matches.now)))) }
    ensures err { IfErr result (IsFaultOf (Some (name.now, rows_of (found_of matches.now)))) }
{
    let Some(report) = report_of(name, matches) else {
        unreachable!()
    };
    let files = files_in(alloc, report, matches)?;
    let zone = zone_of(alloc, matches)?;
    let usage = usage_asked(alloc, matches)?;
    let apart = files_asked(matches);
    let job = job_from(report, matches);
    let times = times_in(report, matches);
    Ok(Line::Run {
        job,
        times,
        usage,
        apart,
        zone,
        files,
    })
}

/// The files that the matches name to a report: none where there is no word of one.
#[tactic(auto, using(crate::proofs::LineLemmas::some_file_words, crate::proofs::LineLemmas::no_files))]
fn files_in(
    alloc: Global,
    report: Report,
    matches: &ArgMatches<'_>,
) -> Result<Vec<FileArg>, LineFault>
    ensures ok { IfOk result (λ files. NamesFiles report (words_in (rows_of (found_of matches.now))) files.items) }
    ensures err { IfErr result (IsFileFault report (words_in (rows_of (found_of matches.now)))) }
{
    match matches.get_raw("file") {
        Some(words) => files_of(alloc, report, words),
        None => Ok(Vec::new(alloc)),
    }
}

/// What is wrong with the values of options, where anything is.
fn mistake_in(matches: &ArgMatches<'_>) -> Option<&'static str>
    ensures some { IfSome result (λ text. ¬ AreSound (rows_of (found_of matches.now))) }
    ensures none { IfNone result (AreSound (rows_of (found_of matches.now))) }
{
    if !has_plain_offsets(matches) {
        Some(NOT_PLAIN)
    } else if !has_one_clock(matches) {
        Some(TWO_CLOCKS)
    } else {
        mistake_in_names(matches)
            .or(mistake_in_usage(matches))
            .or(mistake_in_paths(matches))
            .or(mistake_in_moments(matches))
    }
}
