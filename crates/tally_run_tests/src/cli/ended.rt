//! How a run ends: which call of its output is the last, and what is not touched after a failure.
ghost use Rattle.std.specs.Prelude.{◌≡◌, None, [], false};

use crate::cli::counted::count;
use crate::cli::expect::expect_that;
use crate::cli::runs::{
    TOTAL, add_source, expect_end, one_hour, run_over, source_of, text_job, torn,
};
use std::process::Abort;
use std::random::RandomSource;
use std::sync::Wait;
use std::sync::atomic::{AtomicU64, Ordering};
use std::thread::Threads;
use tally_cli::{Report, RunFault, Source, UsageFault};
use tally_desk::{CountFault, Input, InputFault, OpenGate};
use tally_print::{Output, OutputFault};
use tally_records::Kind;
use tally_usage::Order;

/// An input of so many zeros, which counts how often it is taken from.
#[derive(Drop)]
struct Counted<'a> {
    left: usize,
    takes: &'a AtomicU64,
}

impl Input for Counted<'_> {
    ghost to_come = { λ _. None };

    ghost can_fail = { λ _. false };

    ghost failures = { λ _. 0 };

    fn take(&mut self, buf: &mut [u8]) -> Result<usize, InputFault> {
        self.takes.fetch_add(1, Ordering::SeqCst);
        let count = self.left.min(buf.len());
        buf[..count].fill(0);
        self.left -= count;
        Ok(count)
    }
}

/// An output that counts its bytes and how often it is finished, and may fail then.
#[derive(Drop)]
struct Closing {
    bytes: usize,
    finished: u32,
    bytes_then: usize,
    fails: bool,
    failures: u64,
}

impl Closing {
    fn new(fails: bool) -> Closing
        ensures { result.failures ≡ 0 }
    {
        Closing {
            bytes: 0,
            finished: 0,
            bytes_then: 0,
            fails,
            failures: 0,
        }
    }
}

impl Output for Closing {
    ghost state = { λ out. record { tells = false; written = []; failures = out.failures } };

    fn put(&mut self, bytes: &[u8]) -> Result<usize, OutputFault> {
        self.bytes = self.bytes.saturating_add(bytes.len());
        Ok(bytes.len())
    }

    fn finish(&mut self) -> Result<(), OutputFault> {
        self.finished = self.finished.saturating_add(1);
        self.bytes_then = self.bytes;
        if self.fails {
            self.failures += 1;
            return Err(OutputFault);
        }
        Ok(())
    }
}

/// What became of a run, and how often its inputs were taken from.
#[derive(Drop)]
struct Ended<E> {
    outcome: Result<(), E>,
    out: Closing,
    takes: [u64; 2],
}

/// Two files of so many zeros.
fn two_files<'a, R: AllocGlobal + Abort>(
    rt: &R,
    kind: Kind,
    sizes: [usize; 2],
    first: &'a AtomicU64,
    second: &'a AtomicU64,
) -> Vec<Source<Counted<'a>>> {
    let mut sources = Vec::new(rt.alloc());
    let [left, then_left] = sizes;
    let zeros = Counted { left, takes: first };
    add_source(rt, &mut sources, kind, zeros);
    let zeros = Counted {
        left: then_left,
        takes: second,
    };
    add_source(rt, &mut sources, kind, zeros);
    sources
}

/// Counts two files of so many zeros, and prints the commands in them.
fn count_over<R: AllocGlobal + Abort + RandomSource + Threads + Sync>(
    rt: &R,
    sizes: [usize; 2],
    fails: bool,
) -> Ended<UsageFault> {
    let first = AtomicU64::new(0);
    let second = AtomicU64::new(0);
    let sources = two_files(rt, Kind::Proc, sizes, &first, &second);
    let mut out = Closing::new(fails);
    let report = Report::Commands {
        order: Order::Cpu,
        reverse: false,
        all: false,
    };
    let outcome = count(rt, &text_job(report, 1, 0), sources, &mut out);
    Ended {
        outcome,
        out,
        takes: [first.load(Ordering::SeqCst), second.load(Ordering::SeqCst)],
    }
}

/// Prints all reports over two files of so many zeros.
fn all_over<R: AllocGlobal + Abort + RandomSource + Threads + Wait + Sync>(
    rt: &R,
    sizes: [usize; 2],
    fails: bool,
) -> Ended<RunFault> {
    let first = AtomicU64::new(0);
    let second = AtomicU64::new(0);
    let sources = two_files(rt, Kind::Login, sizes, &first, &second);
    let mut out = Closing::new(fails);
    let job = text_job(Report::All, 1, 0);
    let outcome = run_over(rt, &job, sources, &OpenGate, &mut out);
    Ended {
        outcome,
        out,
        takes: [first.load(Ordering::SeqCst), second.load(Ordering::SeqCst)],
    }
}

#[test]
fn an_output_is_finished_once_after_the_last_section(rt: HostRuntime) {
    let ended = all_over(&rt, [384, 0], false);
    let out = &ended.out;
    expect_end(&rt, "the run ends well", &ended.outcome, &Ok(()));
    expect_that(&rt, "finished once", out.finished == 1);
    expect_that(&rt, "bytes are written", out.bytes > 0);
    expect_that(&rt, "finished last", out.bytes_then == out.bytes);
}

#[test]
fn an_output_that_fails_at_its_end_fails_the_run(rt: HostRuntime) {
    let ended = all_over(&rt, [384, 0], true);
    expect_end(&rt, "the end fails", &ended.outcome, &Err(RunFault::Write));
    expect_that(&rt, "finished once", ended.out.finished == 1);
}

#[test]
fn a_feeder_stops_at_its_first_file_that_fails(rt: HostRuntime) {
    let ended = all_over(&rt, [385, 384], false);
    expect_end(&rt, "the first file is torn", &ended.outcome, &torn(0));
    let [first, second] = ended.takes;
    expect_that(&rt, "the first file is read", first > 0);
    expect_that(&rt, "the second file is not", second == 0);
    expect_that(&rt, "nothing is written", ended.out.bytes == 0);
}

#[test]
fn an_output_of_a_count_is_finished_once_after_its_report(rt: HostRuntime) {
    let ended = count_over(&rt, [0, 0], false);
    let out = &ended.out;
    expect_that(&rt, "the count ends well", ended.outcome == Ok(()));
    expect_that(&rt, "finished once", out.finished == 1);
    expect_that(&rt, "bytes are written", out.bytes > 0);
    expect_that(&rt, "finished last", out.bytes_then == out.bytes);
    let ended = count_over(&rt, [0, 0], true);
    let fault = Err(UsageFault::Write);
    expect_that(&rt, "the end fails", ended.outcome == fault);
}

#[test]
fn a_feeder_stops_at_its_first_file_that_is_not_counted(rt: HostRuntime) {
    let ended = count_over(&rt, [1, 0], false);
    let fault = CountFault::Torn {
        records: 0,
        rest: 1,
    };
    let torn = Err(UsageFault::File { host: 0, fault });
    expect_that(&rt, "the first file is torn", ended.outcome == torn);
    let [first, second] = ended.takes;
    expect_that(&rt, "the first file is read", first > 0);
    expect_that(&rt, "the second file is not", second == 0);
    expect_that(&rt, "nothing is written", ended.out.bytes == 0);
}

/// An output that takes so many bytes, one by one, and then fails.
#[derive(Drop)]
struct Narrow {
    room: usize,
    failures: u64,
}

impl Output for Narrow {
    ghost state = { λ out. record { tells = false; written = []; failures = out.failures } };

    fn put(&mut self, bytes: &[u8]) -> Result<usize, OutputFault> {
        if self.room == 0 {
            self.failures += 1;
            return Err(OutputFault);
        }
        self.room -= 1;
        Ok(bytes.len().min(1))
    }

    fn finish(&mut self) -> Result<(), OutputFault> {
        Ok(())
    }
}

#[test]
fn an_output_that_fails_ends_the_run(rt: HostRuntime) {
    let sources = source_of(&rt, Kind::Login, one_hour(&rt, 768));
    let mut out = Narrow {
        room: 5,
        failures: 0,
    };
    let outcome = run_over(&rt, &text_job(TOTAL, 4, 0), sources, &OpenGate, &mut out);
    expect_end(&rt, "a write fails", &outcome, &Err(RunFault::Write));
    expect_that(&rt, "five bytes are taken", out.room == 0);
}
