//! What runs over small files of failed logins write.
use crate::cli::runs::{add_source, bytes_with, expect_run, source_of, text_job};
use std::process::Abort;
use std::random::RandomSource;
use std::sync::Wait;
use std::thread::Threads;
use tally_cli::{Report, RunFault, Source};
use tally_desk::{Bytes, FeedFault, OpenGate};
use tally_records::{EVERY_LOGIN, Kind, RecordFault};

// The file of two records from far: root's attempt on ssh:notty at 1000000, and one of this type by ann on tty1 at 1003600.
fn two_records<R: AllocGlobal + Abort>(rt: &R, kind: u8) -> Vec<u8> {
    let texts: [(usize, &[u8]); 10] = [
        (0, &[6]),
        (8, b"ssh:notty"),
        (44, b"root"),
        (76, b"far"),
        (340, &[0x40, 0x42, 0x0F, 0]),
        (384, &[kind]),
        (392, b"tty1"),
        (428, b"ann"),
        (460, b"far"),
        (724, &[0x50, 0x50, 0x0F, 0]),
    ];
    bytes_with(rt, 768, &texts)
}

// Two files of these.
fn two_files<R: AllocGlobal + Abort>(rt: &R) -> Vec<Source<Bytes>> {
    let mut sources = source_of(rt, Kind::FailedLogin, two_records(rt, 7));
    let second = Bytes::new(two_records(rt, 7));
    add_source(rt, &mut sources, Kind::FailedLogin, second);
    sources
}

// Asserts that a report on the two files ends well and is this text.
fn expect_text<R: AllocGlobal + Abort + RandomSource + Threads + Wait + Sync>(
    rt: &R,
    report: Report,
    text: &[u8],
) {
    let job = text_job(report, 4, 0);
    expect_run(
        rt,
        "attempts",
        &job,
        two_files(rt),
        &OpenGate,
        &Ok(()),
        text,
    );
}

#[test]
fn failed_logins_of_each_file_are_listed_the_latest_first(rt: HostRuntime) {
    let report = Report::Attempts {
        limit: None,
        choice: EVERY_LOGIN,
    };
    let text = b"\
ann      tty1         far              1970-01-12 14:46:40
root     ssh:notty    far              1970-01-12 13:46:40

btmp begins 1970-01-12 13:46:40

ann      tty1         far              1970-01-12 14:46:40
root     ssh:notty    far              1970-01-12 13:46:40

btmp begins 1970-01-12 13:46:40
";
    expect_text(&rt, report, text);
}

#[test]
fn failed_logins_of_all_files_are_counted_by_user_and_remote_host(rt: HostRuntime) {
    let report = Report::AttemptSums {
        limit: None,
        choice: EVERY_LOGIN,
    };
    let text = b"       2 ann      far\n       2 root     far\n";
    expect_text(&rt, report, text);
}

#[test]
fn a_record_of_no_failed_login_ends_the_run(rt: HostRuntime) {
    let report = Report::Attempts {
        limit: None,
        choice: EVERY_LOGIN,
    };
    let fault = RecordFault::OtherLogin(2);
    let fault = FeedFault::Bad { at: 1, fault };
    let wanted = Err(RunFault::File { host: 0, fault });
    let sources = source_of(&rt, Kind::FailedLogin, two_records(&rt, 2));
    let job = text_job(report, 4, 0);
    expect_run(&rt, "a boot", &job, sources, &OpenGate, &wanted, b"");
}
