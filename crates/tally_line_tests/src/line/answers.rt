//! What a command line is read as, compared with what is wanted by one function that owns it.

use crate::expect::{expect_that, made};
use std::process::Abort;
use tally_line::{Check, FileArg, FilesAsked, Form, Job, Line, LineFault, Report, job_of};
use tally_moments::Moment;
use tally_records::{Kind, LoginChoice};
use tally_usage::Order;

/// A check that a command line is to ask for.
#[derive(Clone, Copy)]
pub(crate) struct Checked<'a> {
    pub form: Form,
    pub paths: bool,
    pub offset: i32,
    pub zone: Option<&'a str>,
    pub files: &'a [&'a str],
}

/// What a command line is to ask for. A report has the default of each option but of those named.
#[derive(Clone, Copy)]
pub(crate) enum Wanted<'a> {
    /// The latest stays, up to a limit.
    Last(Option<u32>),
    /// The latest failed logins, up to a limit.
    Attempts(Option<u32>),
    /// The first sums of failed logins, up to a limit.
    AttemptSums(Option<u32>),
    /// Connect time, by day or not, and by user or not.
    Connect(bool, bool),
    /// Commands in an order, reversed or not, and all of them or not.
    Commands(Order, bool, bool),
    /// Users in an order, reversed or not.
    Users(Order, bool),
    /// A report with stays counted up to a moment.
    Until(Report, Moment),
    /// All reports by so many feeders and askers, at an offset.
    All(u32, u32, i32),
    /// Any report of up to so many times 1,048,576 records.
    Millions(u32),
    /// Any report as a table.
    Csv,
    /// Any report that tells its files apart so.
    Apart(FilesAsked),
    /// Any report in the zone of this word.
    Zone(Option<&'a str>),
    /// Any report on these files, and no other.
    Files(&'a [(Kind, &'a str)]),
    Check(Checked<'a>),
    Help,
    Usage,
    /// A refusal with this text.
    Refused(&'a str),
    /// The first file without a prefix.
    Prefix(usize),
}

/// The words of a command line, parted by blanks.
pub(crate) fn words_of<R: AllocGlobal + Abort>(rt: &R, line: &str) -> Vec<String> {
    let mut words = Vec::new(rt.alloc());
    for word in line.split(' ') {
        let word = made(rt, String::from_str(rt.alloc(), word));
        made(rt, words.push(word));
    }
    words
}

// The job of a report, with the default of each option.
fn plain(report: Report) -> Job {
    Job {
        report,
        form: Form::Text,
        millions: 1,
        feeders: 4,
        askers: 0,
        offset: 0,
        until: None,
    }
}

// The job that is wanted, where a whole one is.
fn job_wanted(wanted: Wanted<'_>) -> Option<Job> {
    let mut job = plain(Report::All);
    match wanted {
        Wanted::Last(limit) => {
            job.report = Report::Last {
                limit,
                choice: LoginChoice::every(),
                within: false,
            }
        }
        Wanted::Attempts(limit) => {
            job.report = Report::Attempts {
                limit,
                choice: LoginChoice::every(),
            }
        }
        Wanted::AttemptSums(limit) => {
            job.report = Report::AttemptSums {
                limit,
                choice: LoginChoice::every(),
            }
        }
        Wanted::Connect(by_day, by_user) => {
            job.report = Report::Connect {
                by_day,
                by_user,
                choice: LoginChoice::every(),
            }
        }
        Wanted::Commands(order, reverse, all) => {
            job.report = Report::Commands {
                order,
                reverse,
                all,
            }
        }
        Wanted::Users(order, reverse) => job.report = Report::Users { order, reverse },
        Wanted::Until(report, _) => job.report = report,
        Wanted::All(feeders, askers, offset) => {
            job.feeders = feeders;
            job.askers = askers;
            job.offset = offset;
        }
        _ => return None,
    }
    Some(job)
}

fn is_zone(zone: &Option<String>, wanted: Option<&str>) -> bool {
    match (zone, wanted) {
        (Some(zone), Some(wanted)) => zone.as_str() == wanted,
        (zone, wanted) => zone.is_none() && wanted.is_none(),
    }
}

fn are_files(files: &[FileArg], wanted: &[(Kind, &str)]) -> bool {
    let mut same = files.len() == wanted.len();
    for (file, (kind, path)) in files.iter().zip(wanted) {
        same = same && file.kind == *kind && file.path.as_str() == *path;
    }
    same
}

fn is_until(until: Option<Moment>, wanted: Wanted<'_>) -> bool {
    match wanted {
        Wanted::Until(_, moment) => until == Some(moment),
        _ => until.is_none(),
    }
}

fn is_run(
    job: &Job,
    apart: FilesAsked,
    zone: &Option<String>,
    files: &[FileArg],
    wanted: Wanted<'_>,
) -> bool {
    match wanted {
        Wanted::Millions(millions) => job.millions == millions,
        Wanted::Csv => job.form == Form::Csv,
        Wanted::Apart(asked) => apart == asked,
        Wanted::Zone(word) => is_zone(zone, word),
        Wanted::Files(wanted) => are_files(files, wanted),
        _ => matches!(job_wanted(wanted), Some(wanted) if wanted == *job),
    }
}

fn are_paths(files: &[String], wanted: &[&str]) -> bool {
    let mut same = files.len() == wanted.len();
    for (path, wanted) in files.iter().zip(wanted) {
        same = same && path.as_str() == *wanted;
    }
    same
}

fn is_check(check: &Check, wanted: Wanted<'_>) -> bool {
    match wanted {
        Wanted::Check(wanted) => {
            check.form == wanted.form
                && check.paths == wanted.paths
                && check.offset == wanted.offset
                && is_zone(&check.zone, wanted.zone)
                && are_paths(check.files.as_slice(), wanted.files)
        }
        _ => false,
    }
}

fn is_refusal(text: &str, wanted: Wanted<'_>) -> bool {
    match wanted {
        Wanted::Refused(said) => text == said,
        _ => matches!(wanted, Wanted::Usage),
    }
}

fn is_wanted(answer: &Result<Line, LineFault>, wanted: Wanted<'_>) -> bool {
    match answer {
        Ok(
            Line::Run {
                job,
                times,
                usage: _,
                apart,
                zone,
                files,
            },
        ) => is_until(times.until, wanted) && is_run(job, *apart, zone, files.as_slice(), wanted),
        Ok(Line::Check(check)) => is_check(check, wanted),
        Ok(Line::Help { .. }) => matches!(wanted, Wanted::Help),
        Err(LineFault::Usage { text }) => is_refusal(text.as_str(), wanted),
        Err(LineFault::Prefix { index }) => matches!(wanted, Wanted::Prefix(at) if at == *index),
        Err(LineFault::Memory) => false,
    }
}

/// Asserts what a command line asks for.
pub(crate) fn expect_line<R: AllocGlobal + Abort>(rt: &R, line: &str, wanted: Wanted<'_>) {
    let words = words_of(rt, line);
    let answer = job_of(rt.alloc(), words.as_slice());
    drop(words);
    expect_that(rt, line, is_wanted(&answer, wanted));
}

/// Asserts what each command line asks for.
pub(crate) fn expect_each<R: AllocGlobal + Abort>(rt: &R, rows: &[(&str, Wanted<'_>)]) {
    for (line, wanted) in rows {
        expect_line(rt, line, *wanted);
    }
}

/// Asserts that command lines, one a line of the text, all ask for the same.
pub(crate) fn expect_all<R: AllocGlobal + Abort>(rt: &R, lines: &str, wanted: Wanted<'_>) {
    for line in lines.split('\n') {
        expect_line(rt, line, wanted);
    }
}
