//! What the words of `lastb` ask for.

use crate::expect::expect_that;
use crate::line::answers::{Wanted, expect_all, expect_each, expect_line, words_of};
use std::process::Abort;
use tally_clock::Clock;
use tally_line::{Line, Report, job_of, settle};
use tally_records::{Kind, LoginChoice, Period};

#[test]
fn lastb_lists_and_counts_failed_logins(rt: HostRuntime) {
    let rows = [
        ("lastb", Wanted::Attempts(None)),
        ("lastb f", Wanted::Attempts(None)),
        ("lastb -n 1 f", Wanted::Attempts(Some(1))),
        ("lastb f -n 16777216", Wanted::Attempts(Some(16_777_216))),
        ("lastb --sum f", Wanted::AttemptSums(None)),
        ("lastb f -n 3 --sum", Wanted::AttemptSums(Some(3))),
    ];
    expect_each(&rt, &rows);
}

#[test]
fn lastb_may_be_csv(rt: HostRuntime) {
    let lines = "\
lastb --csv f
lastb f --sum --csv";
    expect_all(&rt, lines, Wanted::Csv);
}

#[test]
fn lastb_reads_files_of_failed_logins(rt: HostRuntime) {
    let files = [(Kind::FailedLogin, "a"), (Kind::FailedLogin, "w:b")];
    expect_line(&rt, "lastb a -n 1 w:b", Wanted::Files(&files));
    expect_line(&rt, "lastb --sum a w:b", Wanted::Files(&files));
}

// The report of a command line whose moments are settled in UTC, where it is a run.
fn settled<R: AllocGlobal + Abort>(rt: &R, line: &str) -> Option<Report> {
    let words = words_of(rt, line);
    let answer = job_of(rt.alloc(), words.as_slice());
    drop(words);
    let clock = Clock::utc(rt.alloc());
    match &answer {
        Ok(Line::Run { job, times, .. }) => match settle(job, times, &clock, 0) {
            Ok(job) => Some(job.report),
            Err(_) => None,
        },
        _ => None,
    }
}

// All failed logins from 5 up to 9.
fn from_5_to_9() -> LoginChoice {
    let mut choice = LoginChoice::every();
    choice.period = Period {
        from: Some(5),
        to: Some(9),
    };
    choice
}

#[test]
fn lastb_is_over_a_period(rt: HostRuntime) {
    let choice = from_5_to_9();
    let attempts = Report::Attempts {
        limit: None,
        choice,
    };
    let sums = Report::AttemptSums {
        limit: Some(2),
        choice,
    };
    let rows = [
        ("lastb -s @5 -t @9 f", attempts),
        ("lastb --to=@9 f --from @5", attempts),
        ("lastb f --sum -n 2 --to @9 --from=@5", sums),
    ];
    for &(line, report) in &rows {
        expect_that(&rt, line, settled(&rt, line) == Some(report));
    }
}

#[test]
fn lastb_has_no_sessions(rt: HostRuntime) {
    let lines = "\
lastb --at @5 f
lastb -p @5 f
lastb --until @5 f
lastb --askers 1 f
lastb --by-file f
lastb --uid 0 f
lastb --sum --sum f
lastb --sum=1 f
lastb -n 0 f
lastb -n 16777217 f
lastb -s 20260701 f
lastb --in 2026-07 --from @5 f
last --sum f
ac --sum f
sa --sum f
all --sum w:f";
    expect_all(&rt, lines, Wanted::Usage);
}
