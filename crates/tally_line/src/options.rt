//! What the options of a report set.
ghost use Rattle.std.specs.Prelude.{◌≡◌, ◌≢◌, ◌⊎◌, ◌≤◌, ◌≤ℤ◌, ◌-ℤ◌, ℕ, IfNone, IfSome, codes, pos};
ghost use Rattle.clap.specs.Words.{found_of, rows_of};
ghost use Rattle.tally_line.specs.Jobs.{IsRunnable, TakesForm};
ghost use Rattle.tally_line.specs.Lines.{AsksForm, IsFormOf, name_of};
ghost use Rattle.tally_line.specs.Named.{AreNamed};
ghost use Rattle.tally_line.specs.Options.{AreAskersOf, AreMillionsOf, IsFlag, IsNumber, IsOffsetOf, IsOptional, IsReportOf, SetsJob, is_by_calls};
ghost use Rattle.tally_line.specs.declared.job.Report.{Report};

use crate::job::{Form, Job, Report};
use crate::moments::has_period;
use crate::named::login_choice;
use clap::ArgMatches;
use tally_usage::Order;

/// The report that a subcommand's name and matches ask for.
pub(crate) fn report_of(name: &str, matches: &ArgMatches<'_>) -> Option<Report>
    requires { AreNamed (rows_of (found_of matches.now)) }
    ensures named { IfSome result (λ r. name.now ≡ name_of r) }
    ensures options { IfSome result (λ r. IsReportOf r (rows_of (found_of matches.now))) }
    ensures none { IfNone result ((r : Report) → name.now ≢ name_of r) }
{
    match name {
        "last" => Some(Report::Last {
            limit: optional(matches, "limit", 1, 16_777_216),
            choice: login_choice(matches),
            within: has_period(matches),
        }),
        "lastb" => Some(attempts_report(matches)),
        "ac" => Some(Report::Connect {
            by_day: flag(matches, "by_day"),
            by_user: flag(matches, "by_user"),
            choice: login_choice(matches),
        }),
        "sa" => Some(usage_report(matches)),
        "all" => Some(Report::All),
        _ => None,
    }
}

fn attempts_report(matches: &ArgMatches<'_>) -> Report
    requires { AreNamed (rows_of (found_of matches.now)) }
    ensures named { name_of result ≡ codes "lastb" }
    ensures options { IsReportOf result (rows_of (found_of matches.now)) }
{
    let limit = optional(matches, "limit", 1, 16_777_216);
    let choice = login_choice(matches);
    if flag(matches, "sum") {
        Report::AttemptSums { limit, choice }
    } else {
        Report::Attempts { limit, choice }
    }
}

fn usage_report(matches: &ArgMatches<'_>) -> Report
    ensures named { name_of result ≡ codes "sa" }
    ensures options { IsReportOf result (rows_of (found_of matches.now)) }
{
    let order = order_of(matches);
    let reverse = flag(matches, "reverse");
    if flag(matches, "by_user") {
        return Report::Users { order, reverse };
    }
    Report::Commands {
        order,
        reverse,
        all: flag(matches, "keep_all"),
    }
}

fn order_of(matches: &ArgMatches<'_>) -> Order
    ensures { IsFlag (codes "by_calls") (rows_of (found_of matches.now)) (is_by_calls result) }
{
    if flag(matches, "by_calls") {
        Order::Calls
    } else {
        Order::Cpu
    }
}

/// The job of a report, before its moments are known.
pub(crate) fn job_from(report: Report, matches: &ArgMatches<'_>) -> Job
    requires { IsReportOf report (rows_of (found_of matches.now)) }
    ensures report { result.report ≡ report }
    ensures runnable { IsRunnable result }
    ensures few { result.askers ≤ 64 }
    ensures asked { (result.askers ≡ 0) ⊎ (report ≡ Report.All) }
    ensures form { AsksForm report (rows_of (found_of matches.now)) result.form }
    ensures options { SetsJob (rows_of (found_of matches.now)) result }
{
    Job {
        report,
        form: form_of(report, matches),
        millions: millions_of(report, matches),
        feeders: number(matches, "feeders", 1, 64, 4),
        askers: askers_of(report, matches),
        offset: offset_of(matches),
        until: None,
    }
}

/// How many times 1,048,576 records are taken: `sa` keeps none.
fn millions_of(report: Report, matches: &ArgMatches<'_>) -> u32
    ensures some { 1 ≤ result }
    ensures few { result ≤ 16 }
    ensures millions { AreMillionsOf report (rows_of (found_of matches.now)) result }
{
    match report {
        Report::Commands { .. } | Report::Users { .. } => 1,
        _ => number(matches, "millions", 1, 16, 1),
    }
}

/// How many threads ask reports meanwhile.
fn askers_of(report: Report, matches: &ArgMatches<'_>) -> u32
    ensures few { result ≤ 64 }
    ensures asked { (result ≡ 0) ⊎ (report ≡ Report.All) }
    ensures askers { AreAskersOf report (rows_of (found_of matches.now)) result }
{
    match report {
        Report::All => number(matches, "askers", 0, 64, 0),
        _ => 0,
    }
}

/// The form of a report: a report of all is text.
fn form_of(report: Report, matches: &ArgMatches<'_>) -> Form
    ensures asked { AsksForm report (rows_of (found_of matches.now)) result }
    ensures takes { TakesForm report result }
{
    match report {
        Report::All => Form::Text,
        _ => form_by(matches),
    }
}

/// The form that the flag asks for.
#[tactic(auto, using(crate::proofs::LineLemmas::flag_in_rows))]
pub(crate) fn form_by(matches: &ArgMatches<'_>) -> Form
    ensures { IsFormOf (rows_of (found_of matches.now)) result }
{
    if matches.get_flag("csv") {
        Form::Csv
    } else {
        Form::Text
    }
}

/// Minutes east of UTC.
pub(crate) fn offset_of(matches: &ArgMatches<'_>) -> i32
    ensures low { (pos 0 -ℤ pos 1439) ≤ℤ result }
    ensures high { result ≤ℤ pos 1439 }
    ensures value { IsOffsetOf (rows_of (found_of matches.now)) result }
{
    let east = number(matches, "east", 0, 1439, 0);
    let west = number(matches, "west", 0, 1439, 0);
    east as i32 - west as i32
}

/// Whether a flag is there.
#[tactic(auto, using(crate::proofs::LineLemmas::flag_in_rows))]
fn flag(matches: &ArgMatches<'_>, id: &str) -> bool
    ensures { IsFlag id.now (rows_of (found_of matches.now)) result }
{
    matches.get_flag(id)
}

/// The number of an option, from `least` to `most`. `clap` has refused any other.
fn number(matches: &ArgMatches<'_>, id: &str, least: u32, most: u32, default: u32) -> u32
    requires least { least ≤ default }
    requires most { default ≤ most }
    ensures value { IsNumber id.now least most default (rows_of (found_of matches.now)) result }
    ensures least { least ≤ result }
    ensures most { result ≤ most }
{
    optional(matches, id, least, most).unwrap_or(default)
}

/// The number of an option that has no default.
fn optional(matches: &ArgMatches<'_>, id: &str, least: u32, most: u32) -> Option<u32>
    ensures value { IsOptional id.now least most (rows_of (found_of matches.now)) result }
    ensures least { IfSome result (λ n. least ≤ n) }
    ensures most { IfSome result (λ n. n ≤ most) }
{
    let Some(number) = matches.get_one::<u32>(id) else {
        return None;
    };
    if number < least || most < number {
        return None;
    }
    Some(number)
}
