//! What runs over some users, some lines and a part of time write.
ghost use Rattle.tally_line.specs.Jobs.{IsRunnable};

use crate::cli::runs::{add_source, bytes_with, expect_run, one_hour, source_of, text_job};
use std::process::Abort;
use std::random::RandomSource;
use std::sync::Wait;
use std::thread::Threads;
use tally_cli::{Form, Job, Report, Source};
use tally_desk::{Bytes, OpenGate};
use tally_records::{Kind, LoginChoice, Name, Period};

/// The name of ann.
const ANN: Name = *b"ann\0\0\0\0\0\0\0\0\0\0\0\0\0\0\0\0\0\0\0\0\0\0\0\0\0\0\0\0\0";

// Logins of ann on tty1 at 1000000, of bob on tty2 a minute later and of ann on tty3 after one minute more; ann's first ends
// at 1003600.
fn three_logins<R: AllocGlobal + Abort>(rt: &R) -> Vec<u8> {
    let texts: [(usize, &[u8]); 15] = [
        (0, &[7]),
        (8, b"tty1"),
        (44, b"ann"),
        (340, &[0x40, 0x42, 0x0F, 0]),
        (384, &[7]),
        (392, b"tty2"),
        (428, b"bob"),
        (724, &[0x7C, 0x42, 0x0F, 0]),
        (768, &[7]),
        (776, b"tty3"),
        (812, b"ann"),
        (1108, &[0xB8, 0x42, 0x0F, 0]),
        (1152, &[8]),
        (1160, b"tty1"),
        (1492, &[0x50, 0x50, 0x0F, 0]),
    ];
    bytes_with(rt, 1536, &texts)
}

// That file, and one of an hour of ann.
fn two_files<R: AllocGlobal + Abort>(rt: &R) -> Vec<Source<Bytes>> {
    let mut sources = source_of(rt, Kind::Login, three_logins(rt));
    add_source(rt, &mut sources, Kind::Login, Bytes::new(one_hour(rt, 768)));
    sources
}

// The sessions of ann.
fn of_ann() -> LoginChoice {
    let mut choice = LoginChoice::every();
    choice.users[0] = Some(ANN);
    choice
}

// The sessions of ann from half an hour on.
fn of_ann_later() -> LoginChoice {
    let mut choice = of_ann();
    choice.period = Period {
        from: Some(1_001_800),
        to: None,
    };
    choice
}

// Asserts that a job over both files writes this text.
fn expect_both<R: AllocGlobal + Abort + RandomSource + Threads + Wait + Sync>(
    rt: &R,
    job: &Job,
    text: &[u8],
)
    requires { IsRunnable job.now }
{
    let sources = two_files(rt);
    expect_run(rt, "chosen", job, sources, &OpenGate, &Ok(()), text);
}

#[test]
fn a_limit_counts_the_stays_that_are_shown(rt: HostRuntime) {
    let report = Report::Last {
        limit: Some(2),
        choice: of_ann(),
        within: false,
    };
    let text = b"\
ann      tty3                          1970-01-12 13:48:40   still logged in
ann      tty1                          1970-01-12 13:46:40 - 1970-01-12 14:46:40 (01:00)

wtmp begins 1970-01-12 13:46:40

ann      tty1                          1970-01-12 13:46:40 - 1970-01-12 14:46:40 (01:00)

wtmp begins 1970-01-12 13:46:40
";
    expect_both(&rt, &text_job(report, 4, 2), text);
}

#[test]
fn a_table_has_the_seconds_in_the_period(rt: HostRuntime) {
    let report = Report::Last {
        limit: None,
        choice: of_ann_later(),
        within: true,
    };
    let text = b"\
file,user,line,remote,start,start_at,begin,end,end_time,end_at,seconds,within
1,ann,tty3,,1000120,1970-01-12T13:48:40+00:00,1000120,still,1003600,1970-01-12T14:46:40+00:00,3480,1800
1,ann,tty1,,1000000,1970-01-12T13:46:40+00:00,1000000,logout,1003600,1970-01-12T14:46:40+00:00,3600,1800
2,ann,tty1,,1000000,1970-01-12T13:46:40+00:00,1000000,logout,1003600,1970-01-12T14:46:40+00:00,3600,1800
";
    let job = Job {
        report,
        form: Form::Csv,
        millions: 1,
        feeders: 4,
        askers: 2,
        offset: 0,
        until: None,
    };
    expect_both(&rt, &job, text);
}

#[test]
fn connect_time_is_cut_to_the_period(rt: HostRuntime) {
    let report = Report::Connect {
        by_day: false,
        by_user: true,
        choice: of_ann_later(),
    };
    let text = b"\
ann                          1.50
total                        1.50
";
    expect_both(&rt, &text_job(report, 4, 2), text);
}
