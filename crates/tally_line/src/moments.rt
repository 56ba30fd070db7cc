//! The moments that the options of a command line say.
ghost use Rattle.std.specs.Prelude.{◌≡◌, IfNone, IfSome, codes, option_map};
ghost use Rattle.clap.specs.Words.{found_of, rows_of};
ghost use Rattle.tally_line.specs.Jobs.{TakesUntil};
ghost use Rattle.tally_line.specs.Times as Spec;
ghost use Rattle.tally_line.specs.Times.{AreMoments};
ghost use Rattle.tally_moments.specs.Moments as word;

use crate::given::{is_given, word_of};
use crate::job::Report;
use crate::times::Times;
use clap::ArgMatches;
use tally_moments::{Moment, clear_moment_of, moment_of, period_of};

const TWO_PERIODS: &str =
    "error: --at and --in cannot be used with each other, with --from or with --to\n\nFor more information, try '--help'.\n";

const NO_FROM: &str =
    "error: --from takes a date as 2026-07-01, a time as 2026-07-01T10:30, seconds as @1782864000, or now\n\nFor more information, try '--help'.\n";

const NO_TO: &str =
    "error: --to takes a date as 2026-07-01, a time as 2026-07-01T10:30, seconds as @1782864000, or now\n\nFor more information, try '--help'.\n";

const NO_AT: &str =
    "error: --at takes a date as 2026-07-01, a time as 2026-07-01T10:30, seconds as @1782864000, or now\n\nFor more information, try '--help'.\n";

const NO_UNTIL: &str =
    "error: --until takes a date as 2026-07-01, a time as 2026-07-01T10:30, seconds as @1782864000, or now\n\nFor more information, try '--help'.\n";

const NO_IN: &str =
    "error: --in takes a year as 2026, a month as 2026-07 or a day as 2026-07-31\n\nFor more information, try '--help'.\n";

/// Whether a period is asked for, and not a second alone.
pub(crate) fn has_period(matches: &ArgMatches<'_>) -> bool
    ensures { result ≡ Spec.has_period (rows_of (found_of matches.now)) }
{
    is_given(matches, "from") || is_given(matches, "to") || is_given(matches, "in")
}

fn said(matches: &ArgMatches<'_>, id: &str) -> Option<Moment>
    ensures { result ≡ Spec.said word.clear_moment_of id.now (rows_of (found_of matches.now)) }
{
    clear_moment_of(word_of(matches, id)?)
}

fn until_said(matches: &ArgMatches<'_>) -> Option<Moment>
    ensures { result ≡ Spec.said word.moment_of (codes "until") (rows_of (found_of matches.now)) }
{
    moment_of(word_of(matches, "until")?)
}

fn period_in(matches: &ArgMatches<'_>) -> Option<(Moment, Moment)>
    ensures { result ≡ Spec.period_in (rows_of (found_of matches.now)) }
{
    period_of(word_of(matches, "in")?)
}

/// The moment of `--until`: a report without stays has none.
fn until_in(report: Report, matches: &ArgMatches<'_>) -> Option<Moment>
    ensures value { result ≡ Spec.until_in report (rows_of (found_of matches.now)) }
    ensures takes { TakesUntil report result }
{
    match report {
        Report::Attempts { .. } | Report::AttemptSums { .. } => None,
        Report::Commands { .. } | Report::Users { .. } => None,
        Report::Last { .. } | Report::Connect { .. } | Report::All => until_said(matches),
    }
}

/// The moments of all options.
pub(crate) fn times_in(report: Report, matches: &ArgMatches<'_>) -> Times
    ensures value { result ≡ Spec.times_in report (rows_of (found_of matches.now)) }
    ensures until { TakesUntil report result.until }
{
    let period = period_in(matches);
    Times {
        until: until_in(report, matches),
        from: first_of(period).or(said(matches, "from")),
        to: second_of(period).or(said(matches, "to")),
        at: said(matches, "at"),
    }
}

fn first_of(period: Option<(Moment, Moment)>) -> Option<Moment>
    ensures { result ≡ option_map (λ p. p.0) period }
{
    Some(period?.0)
}

fn second_of(period: Option<(Moment, Moment)>) -> Option<Moment>
    ensures { result ≡ option_map (λ p. p.1) period }
{
    Some(period?.1)
}

/// What is wrong with the words of moments, where anything is.
pub(crate) fn mistake_in_moments(matches: &ArgMatches<'_>) -> Option<&'static str>
    ensures some { IfSome result (λ text. ¬ AreMoments (rows_of (found_of matches.now))) }
    ensures none { IfNone result (AreMoments (rows_of (found_of matches.now))) }
{
    if !stand_alone(matches) {
        Some(TWO_PERIODS)
    } else if !is_said(matches, "from") {
        Some(NO_FROM)
    } else if !is_said(matches, "to") {
        Some(NO_TO)
    } else if !is_period_said(matches) {
        Some(NO_IN)
    } else if !is_said(matches, "at") {
        Some(NO_AT)
    } else if !is_until_said(matches) {
        Some(NO_UNTIL)
    } else {
        None
    }
}

/// Whether neither `--at` nor `--in` stands beside another of the options that say a period.
fn stand_alone(matches: &ArgMatches<'_>) -> bool
    ensures { result ≡ Spec.stand_alone (rows_of (found_of matches.now)) }
{
    !(is_given(matches, "at") && has_period(matches))
        && !(is_given(matches, "in") && (is_given(matches, "from") || is_given(matches, "to")))
}

fn is_said(matches: &ArgMatches<'_>, id: &str) -> bool
    ensures { result ≡ Spec.is_said word.clear_moment_of id.now (rows_of (found_of matches.now)) }
{
    match word_of(matches, id) {
        Some(word) => clear_moment_of(word).is_some(),
        None => true,
    }
}

fn is_until_said(matches: &ArgMatches<'_>) -> bool
    ensures { result ≡ Spec.is_said word.moment_of (codes "until") (rows_of (found_of matches.now)) }
{
    match word_of(matches, "until") {
        Some(word) => moment_of(word).is_some(),
        None => true,
    }
}

fn is_period_said(matches: &ArgMatches<'_>) -> bool
    ensures { result ≡ Spec.is_said word.period_of (codes "in") (rows_of (found_of matches.now)) }
{
    match word_of(matches, "in") {
        Some(word) => period_of(word).is_some(),
        None => true,
    }
}
