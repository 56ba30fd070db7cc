//! What runs over small files write.
ghost use Rattle.std.specs.Prelude.{◌≤◌};
ghost use Rattle.std.specs.List.{All};
ghost use Rattle.tally_cli.specs.Runs.{IsReadable};
ghost use Rattle.tally_line.specs.Jobs.{IsRunnable};
ghost use Rattle.tally_print.specs.Output.{IsWritable};

use crate::cli::expect::{expect_that, made};
use std::hash::RandomState;
use std::process::Abort;
use std::random::RandomSource;
use std::sync::Wait;
use std::thread::Threads;
use tally_cli::{FilesApart, Form, Job, Report, RunFault, Source, run};
use tally_clock::Clock;
use tally_desk::{Bytes, FeedFault, Gate, Input, OpenGate};
use tally_print::{Kept, Output};
use tally_records::{EVERY_LOGIN, Kind, LoginChoice};
use tally_usage::Order;

pub(crate) const TOTAL: Report = Report::Connect {
    by_day: false,
    by_user: false,
    choice: EVERY_LOGIN,
};

// A job as text, by so many feeders and askers.
pub(crate) fn text_job(report: Report, feeders: u32, askers: u32) -> Job
    requires { (1 ≤ feeders) × (feeders ≤ 64) × (askers ≤ 128) }
    ensures { IsRunnable result }
{
    Job {
        report,
        form: Form::Text,
        millions: 1,
        feeders,
        askers,
        offset: 0,
        until: None,
    }
}

// Writes a text into bytes.
fn put_at(bytes: &mut [u8], at: usize, text: &[u8]) {
    for (index, byte) in text.iter().enumerate() {
        if let Some(place) = bytes.get_mut(at.saturating_add(index)) {
            *place = *byte;
        }
    }
}

// Zeros, over which texts are written at their places.
pub(crate) fn bytes_with<R: AllocGlobal + Abort>(
    rt: &R,
    length: usize,
    texts: &[(usize, &[u8])],
) -> Vec<u8> {
    let mut bytes = made(rt, vec![in rt.alloc(); 0u8; length]);
    for (at, text) in texts {
        put_at(bytes.as_mut_slice(), *at, text);
    }
    bytes
}

// The file of one hour: a login of ann on tty1 at 1000000, a logout at 1003600.
pub(crate) fn one_hour<R: AllocGlobal + Abort>(rt: &R, rest: usize) -> Vec<u8> {
    let texts: [(usize, &[u8]); 7] = [
        (0, &[7]),
        (8, b"tty1"),
        (44, b"ann"),
        (340, &[0x40, 0x42, 0x0F, 0]),
        (384, &[8]),
        (392, b"tty1"),
        (724, &[0x50, 0x50, 0x0F, 0]),
    ];
    let mut bytes = bytes_with(rt, 768, &texts);
    bytes.truncate(rest);
    bytes
}

// Puts a source after the others.
pub(crate) fn add_source<I: Drop>(
    rt: &impl Abort,
    sources: &mut Vec<Source<I>>,
    kind: Kind,
    input: I,
) {
    made(rt, sources.push(Source { kind, input }));
}

// The one source of these bytes.
pub(crate) fn source_of<R: AllocGlobal + Abort>(
    rt: &R,
    kind: Kind,
    bytes: Vec<u8>,
) -> Vec<Source<Bytes>> {
    let mut sources = Vec::new(rt.alloc());
    add_source(rt, &mut sources, kind, Bytes::new(bytes));
    sources
}

// How a run over these sources ends, at UTC.
pub(crate) fn run_over<
    R: AllocGlobal + Abort + RandomSource + Threads + Wait + Sync,
    I: Input + Send,
    G: Gate + Sync,
    O: Output,
>(rt: &R, job: &Job, sources: Vec<Source<I>>, gate: &G, out: &mut O) -> Result<(), RunFault>
    requires runnable { IsRunnable job.now }
    requires readable { All (IsReadable I.failures) sources.items }
    requires writable { IsWritable (O.state out.old) }
{
    let keys = made(rt, RandomState::new(rt));
    let clock = Clock::utc(rt.alloc());
    let apart = FilesApart::together();
    run(rt, rt.alloc(), keys, &clock, job, apart, sources, gate, out)
}

/// The end of a run whose file with this number has one byte of its second record.
pub(crate) fn torn(host: u32) -> Result<(), RunFault> {
    let fault = FeedFault::Torn {
        records: 1,
        rest: 1,
    };
    Err(RunFault::File { host, fault })
}

/// Asserts how a run ends.
pub(crate) fn expect_end(
    rt: &impl Abort,
    case: &str,
    outcome: &Result<(), RunFault>,
    wanted: &Result<(), RunFault>,
) {
    expect_that(rt, case, outcome == wanted);
}

/// Asserts how a run over these sources ends, and what it writes.
pub(crate) fn expect_run<
    R: AllocGlobal + Abort + RandomSource + Threads + Wait + Sync,
    G: Gate + Sync,
>(
    rt: &R,
    case: &str,
    job: &Job,
    sources: Vec<Source<Bytes>>,
    gate: &G,
    wanted: &Result<(), RunFault>,
    text: &[u8],
)
    requires { IsRunnable job.now }
{
    let mut out = Kept::new(rt.alloc());
    let outcome = run_over(rt, job, sources, gate, &mut out);
    expect_end(rt, case, &outcome, wanted);
    expect_that(rt, case, out.bytes() == text);
}

// Asserts that a report on these sources ends well and is this text.
fn expect_text<R: AllocGlobal + Abort + RandomSource + Threads + Wait + Sync>(
    rt: &R,
    report: Report,
    sources: Vec<Source<Bytes>>,
    text: &[u8],
) {
    let job = text_job(report, 4, 0);
    expect_run(rt, "whole", &job, sources, &OpenGate, &Ok(()), text);
}

// Asserts that a report writes nothing, since the file with this number is torn.
fn expect_nothing<R: AllocGlobal + Abort + RandomSource + Threads + Wait + Sync>(
    rt: &R,
    report: Report,
    sources: Vec<Source<Bytes>>,
    host: u32,
) {
    let job = text_job(report, 4, 0);
    expect_run(rt, "torn", &job, sources, &OpenGate, &torn(host), b"");
}

#[test]
fn an_hour_is_its_total(rt: HostRuntime) {
    let sources = source_of(&rt, Kind::Login, one_hour(&rt, 768));
    expect_text(&rt, TOTAL, sources, b"total                        1.00\n");
}

#[test]
fn an_hour_is_a_stay(rt: HostRuntime) {
    let report = Report::Last {
        limit: None,
        choice: LoginChoice::every(),
        within: false,
    };
    let sources = source_of(&rt, Kind::Login, one_hour(&rt, 768));
    let text =
        b"ann      tty1                          1970-01-12 13:46:40 - 1970-01-12 14:46:40 (01:00)\n\nwtmp begins 1970-01-12 13:46:40\n";
    expect_text(&rt, report, sources, text);
}

// A call of make by user 0 that took 2 seconds, and 1 second of cpu.
fn one_call<R: AllocGlobal + Abort>(rt: &R) -> Vec<u8> {
    let texts: [(usize, &[u8]); 4] = [(1, &[2]), (12, &[100]), (16, &[200]), (36, b"make")];
    bytes_with(rt, 64, &texts)
}

#[test]
fn a_call_is_a_row_of_its_own(rt: HostRuntime) {
    let report = Report::Commands {
        order: Order::Cpu,
        reverse: false,
        all: true,
    };
    let text =
        b"       1         0.03re         0.02cp          0avio          0k\n       1         0.03re         0.02cp          0avio          0k make\n";
    expect_text(&rt, report, source_of(&rt, Kind::Proc, one_call(&rt)), text);
}

#[test]
fn a_call_is_counted_for_its_user(rt: HostRuntime) {
    let report = Report::Users {
        order: Order::Cpu,
        reverse: false,
    };
    let text =
        b"total             1         0.03re         0.02cp          0avio          0k\n0                 1         0.03re         0.02cp          0avio          0k\n";
    expect_text(&rt, report, source_of(&rt, Kind::Proc, one_call(&rt)), text);
}

#[test]
fn an_empty_file_has_the_total_zero(rt: HostRuntime) {
    let sources = source_of(&rt, Kind::Login, Vec::new(rt.alloc()));
    expect_text(&rt, TOTAL, sources, b"total                        0.00\n");
}

#[test]
fn a_torn_file_writes_nothing(rt: HostRuntime) {
    let sources = source_of(&rt, Kind::Login, one_hour(&rt, 385));
    expect_nothing(&rt, TOTAL, sources, 0);
}

#[test]
fn a_torn_second_file_is_named(rt: HostRuntime) {
    let mut sources = source_of(&rt, Kind::Login, one_hour(&rt, 768));
    add_source(
        &rt,
        &mut sources,
        Kind::Login,
        Bytes::new(one_hour(&rt, 385)),
    );
    expect_nothing(&rt, Report::All, sources, 1);
}
