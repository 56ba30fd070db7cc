//! Reports on processes that are counted, beside those of a book.
ghost use Rattle.std.specs.Prelude.{◌<◌, ◌≤◌};
ghost use Rattle.std.specs.List.{All};
ghost use Rattle.tally_cli.specs.Runs.{IsReadable};
ghost use Rattle.tally_line.specs.Jobs.{IsRunnable};
ghost use Rattle.tally_print.specs.Output.{IsWritable};

use crate::cli::expect::{expect_that, made};
use crate::cli::runs::{add_source, run_over};
use std::fmt::Display;
use std::hash::RandomState;
use std::process::Abort;
use std::random::RandomSource;
use std::sync::Wait;
use std::thread::Threads;
use tally_cli::{Form, Job, Report, Source, UsageFault, UsageWanted, is_usage_run, run_usage};
use tally_clock::Clock;
use tally_desk::{Bytes, Input, OpenGate};
use tally_print::{Kept, Output};
use tally_records::Kind;
use tally_usage::Order;

/// Numbers that follow no rule that a sum knows.
#[derive(Clone, Copy)]
struct Numbers {
    state: u32,
}

impl Numbers {
    fn below(&mut self, count: u32) -> u32
        requires { 0 < count }
        ensures { result < count }
    {
        self.state = self.state.wrapping_mul(1664525).wrapping_add(1013904223);
        (self.state >> 8) % count
    }

    // A byte of a record of either version: its user and its command are two of a few, all else is any.
    fn byte_of(&mut self, at: usize, version: u8, user: u8, command: u8) -> u8 {
        match (version, at) {
            (_, 1) => version,
            (2, 56) | (3, 8) => user,
            (2, 36) | (3, 48) => command,
            (2, 37..=51 | 57..=59) | (3, 9..=11 | 49..=63) => 0,
            _ => self.below(256) as u8,
        }
    }

    // Puts a record after the others. One of a hundred has no version that is known.
    fn push_record(&mut self, rt: &impl Abort, bytes: &mut Vec<u8>, faults: bool) {
        let version = if faults && self.below(100) == 0 {
            9
        } else {
            2 + self.below(2) as u8
        };
        let user = self.below(3) as u8;
        let command = 0x60 + self.below(6) as u8;
        for at in 0..64 {
            made(rt, bytes.push(self.byte_of(at, version, user, command)));
        }
    }

    // A file of up to so many records, which may be torn.
    fn file<R: AllocGlobal + Abort>(&mut self, rt: &R, most: u32, faults: bool) -> Vec<u8>
        requires { most ≤ 10000 }
    {
        let mut bytes = Vec::new(rt.alloc());
        for _ in 0..self.below(most + 1) {
            self.push_record(rt, &mut bytes, faults);
        }
        if faults && self.below(20) == 0 {
            made(rt, bytes.push(0));
        }
        bytes
    }

    // An order of rows.
    fn order(&mut self) -> Order {
        if self.below(2) == 0 {
            Order::Cpu
        } else {
            Order::Calls
        }
    }

    // A form of a report.
    fn form(&mut self) -> Form {
        if self.below(2) == 0 {
            Form::Csv
        } else {
            Form::Text
        }
    }

    // A report on users.
    fn users(&mut self) -> Job
        ensures { IsRunnable result }
    {
        let order = self.order();
        let reverse = self.below(2) == 0;
        Job {
            report: Report::Users { order, reverse },
            form: self.form(),
            millions: 1,
            feeders: 1 + self.below(7),
            askers: 0,
            offset: 0,
            until: None,
        }
    }

    // A report on commands.
    fn commands(&mut self) -> Job
        ensures { IsRunnable result }
    {
        let order = self.order();
        let reverse = self.below(2) == 0;
        let all = self.below(2) == 0;
        Job {
            report: Report::Commands {
                order,
                reverse,
                all,
            },
            form: self.form(),
            millions: 1,
            feeders: 1 + self.below(7),
            askers: 0,
            offset: 0,
            until: None,
        }
    }

    // A report on processes.
    fn job(&mut self) -> Job
        ensures { IsRunnable result }
    {
        if self.below(3) == 0 {
            self.users()
        } else {
            self.commands()
        }
    }
}

// Up to so many files of up to so many records.
fn files_of<R: AllocGlobal + Abort>(
    rt: &R,
    mut numbers: Numbers,
    files: u32,
    records: u32,
    faults: bool,
) -> Vec<Source<Bytes>>
    requires { (0 < files) × (records ≤ 10000) }
{
    let mut sources = Vec::new(rt.alloc());
    for _ in 0..numbers.below(files) + 1 {
        let bytes = numbers.file(rt, records, faults);
        add_source(rt, &mut sources, Kind::Proc, Bytes::new(bytes));
    }
    sources
}

/// How a count of these files ends, at UTC.
pub(crate) fn count<
    R: AllocGlobal + Abort + RandomSource + Threads + Sync,
    I: Input + Send,
    O: Output,
>(rt: &R, job: &Job, sources: Vec<Source<I>>, out: &mut O) -> Result<(), UsageFault>
    requires runnable { IsRunnable job.now }
    requires readable { All (IsReadable I.failures) sources.items }
    requires writable { IsWritable (O.state out.old) }
{
    let counts = is_usage_run(job, sources.as_slice());
    expect_that(rt, "is counted", counts);
    if !counts {
        return Ok(());
    }
    let keys = made(rt, RandomState::new(rt));
    let clock = Clock::utc(rt.alloc());
    let every = UsageWanted::every();
    run_usage(rt, rt.alloc(), keys, &clock, job, every, sources, out)
}

// The text of a fault.
fn text_of<R: AllocGlobal + Abort, E: Display + Drop>(rt: &R, outcome: Result<(), E>) -> String {
    match outcome {
        Ok(()) => String::new(rt.alloc()),
        Err(fault) => made(rt, fault.to_string(rt.alloc())),
    }
}

// Asserts that a count and a run of the same files end alike, and write the same.
fn expect_alike<R: AllocGlobal + Abort + RandomSource + Threads + Wait + Sync>(
    rt: &R,
    seed: u32,
    files: u32,
    records: u32,
    faults: bool,
)
    requires { (0 < files) × (files ≤ 64) × (records ≤ 10000) }
{
    let mut numbers = Numbers { state: seed };
    let job = numbers.job();
    let mut ran = Kept::new(rt.alloc());
    let sources = files_of(rt, numbers, files, records, faults);
    let wanted = text_of(rt, run_over(rt, &job, sources, &OpenGate, &mut ran));
    let mut counted = Kept::new(rt.alloc());
    let sources = files_of(rt, numbers, files, records, faults);
    let found = text_of(rt, count(rt, &job, sources, &mut counted));
    expect_that(rt, "same end", found == wanted);
    expect_that(rt, "same text", counted.bytes() == ran.bytes());
}

#[test]
fn counts_are_those_of_a_run(rt: HostRuntime) {
    for seed in 0..200 {
        expect_alike(&rt, seed, 6, 40, false);
    }
}

#[test]
fn faults_of_counts_are_those_of_a_run(rt: HostRuntime) {
    for seed in 0..200 {
        expect_alike(&rt, seed, 6, 40, true);
    }
}

#[test]
fn counts_of_several_blocks_are_those_of_a_run(rt: HostRuntime) {
    for seed in 0..4 {
        expect_alike(&rt, seed, 3, 5000, false);
    }
}
