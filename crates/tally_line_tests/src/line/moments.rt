//! The moments of a command line, and the job that they make on a clock.

use crate::expect::expect_that;
use crate::line::answers::{Wanted, expect_all, expect_each};
use tally_clock::Clock;
use tally_line::{Form, Job, Report, Times, TimesFault, known_fault, settle};
use tally_moments::Moment;
use tally_records::LoginChoice;

#[test]
fn stays_are_counted_up_to_a_moment(rt: HostRuntime) {
    let total = Report::Connect {
        by_day: false,
        by_user: false,
        choice: LoginChoice::every(),
    };
    let stays = Report::Last {
        limit: None,
        choice: LoginChoice::every(),
        within: false,
    };
    let ten = Moment::Time {
        day: 20635,
        second: 36_000,
    };
    let rows = [
        (
            "last --until 5000 f",
            Wanted::Until(stays, Moment::Second(5000)),
        ),
        ("ac f --until=0", Wanted::Until(total, Moment::Second(0))),
        (
            "all --until @2147483648 w:f",
            Wanted::Until(Report::All, Moment::Second(2_147_483_648)),
        ),
        (
            "ac --until 2026-07-01 f",
            Wanted::Until(total, Moment::Day(20635)),
        ),
        ("ac --until 2026-07-01T10:00 f", Wanted::Until(total, ten)),
        (
            "ac --until 2026-07-01T10:30+02:00 f",
            Wanted::Until(total, Moment::Second(1_782_894_600)),
        ),
        ("last f --until now", Wanted::Until(stays, Moment::Now)),
    ];
    expect_each(&rt, &rows);
}

#[test]
fn words_that_say_no_moment_are_refused(rt: HostRuntime) {
    let lines = "\
ac --until= f
ac --until 2026-07 f
ac --until 2026-02-29 f
ac --until 2026-07-01T24:00 f
ac --until 5.0 f
ac --until -5 f
sa --until 5 f";
    expect_all(&rt, lines, Wanted::Usage);
}

/// The moments of a command line that has no other than that of `--until`.
fn up_to(until: Option<Moment>) -> Times {
    Times {
        until,
        from: None,
        to: None,
        at: None,
    }
}

#[test]
fn a_moment_is_settled_on_the_clock_of_the_run(rt: HostRuntime) {
    let clock = Clock::utc(rt.alloc());
    let job = Job {
        report: Report::All,
        form: Form::Text,
        millions: 1,
        feeders: 4,
        askers: 0,
        offset: 60,
        until: None,
    };
    // The second before the last that a login record can have, an hour east.
    let last = Moment::Time {
        day: 24855,
        second: 15_246,
    };
    let rows = [
        (Some(Moment::Second(5)), Ok(Some(5))),
        (Some(Moment::Day(20635)), Ok(Some(1_782_860_400))),
        (Some(last), Ok(Some(2_147_483_646))),
        (Some(Moment::Now), Ok(Some(1000))),
        (Some(Moment::Second(-1)), Err(TimesFault::Until)),
        (Some(Moment::Day(24856)), Err(TimesFault::Until)),
        (None, Ok(None)),
    ];
    for &(until, wanted) in &rows {
        let settled = settle(&job, &up_to(until), &clock, 1000);
        let same = match settled {
            Ok(job) => Ok(job.until) == wanted,
            Err(found) => Err(found) == wanted,
        };
        expect_that(&rt, "a moment is settled", same);
    }
}

#[test]
fn a_second_out_of_range_needs_no_clock(rt: HostRuntime) {
    let rows = [
        (Moment::Second(2_147_483_647), false, None),
        (
            Moment::Second(2_147_483_648),
            false,
            Some(TimesFault::Until),
        ),
        (Moment::Second(-1), false, Some(TimesFault::Until)),
        (Moment::Day(-1), false, None),
        (Moment::Now, true, None),
    ];
    for &(moment, is_now, wanted) in &rows {
        let times = up_to(Some(moment));
        let same = known_fault(&times) == wanted && times.ask_now() == is_now;
        expect_that(&rt, "a moment is judged without a clock", same);
    }
}
