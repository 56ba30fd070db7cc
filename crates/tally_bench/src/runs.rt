//! Runs over made files, whose reports are printed.
ghost use Rattle.tally_line.specs.Jobs.{IsRunnable};

use crate::digest::Digest;
use crate::jobs::{all_reports, commands, connect_time, sessions, users};
use crate::logins::Manner;
use crate::made::Made;
use crate::numbers::Numbers;
use crate::stopped::Stopped;
use std::alloc::{AllocError, Global};
use std::hash::RandomState;
use std::sync::Wait;
use std::thread::Threads;
use tally_cli::{FilesApart, Form, Job, Source, UsageWanted, is_usage_run, run, run_usage};
use tally_clock::Clock;
use tally_desk::OpenGate;
use tally_records::Kind;
use tally_usage::Order;

/// A host with 128 lines, where a login or logout comes each few seconds.
pub(crate) const BUSY: Manner = Manner {
    step: 20,
    is_full: false,
};

/// Sessions of hours, so that many last over midnight.
const LONG: Manner = Manner {
    step: 300,
    is_full: false,
};

/// Each login is of a user of its own, all texts are full, and sessions last for days.
const FULL: Manner = Manner {
    step: 4000,
    is_full: true,
};

/// The time of Berlin.
const RULE: &[u8] = b"CET-1CEST,M3.5.0,M10.5.0/3";

/// What files a run reads: so many of each kind, of so many records each.
#[derive(Clone, Copy)]
struct Files {
    logins: u32,
    processes: u32,
    records: u32,
    manner: Manner,
}

impl Files {
    /// So many thousandths of the records.
    fn thousandths(self, parts: u32) -> Files {
        let records = (u64::from(self.records) * u64::from(parts) / 1000).min(1_000_000) as u32;
        Files {
            logins: self.logins,
            processes: self.processes,
            records,
            manner: self.manner,
        }
    }
}

/// Makes files, each by a seed of its own.
fn sources(
    alloc: Global,
    numbers: &mut Numbers,
    files: Files,
) -> Result<Vec<Source<Made>>, AllocError> {
    let mut made = Vec::new(alloc);
    for _ in 0..files.logins {
        let input = Made::logins(alloc, numbers.next(), files.records, files.manner)?;
        made.push(Source {
            kind: Kind::Login,
            input,
        })?;
    }
    for _ in 0..files.processes {
        let input = Made::processes(alloc, numbers.next(), files.records, files.manner.is_full)?;
        made.push(Source {
            kind: Kind::Proc,
            input,
        })?;
    }
    Ok(made)
}

/// Files of login records.
fn logins(count: u32, records: u32, manner: Manner) -> Files {
    Files {
        logins: count,
        processes: 0,
        records,
        manner,
    }
}

/// Files of process records.
fn processes(count: u32, records: u32, manner: Manner) -> Files {
    Files {
        logins: 0,
        processes: count,
        records,
        manner,
    }
}

/// What the runs of a workload have in common.
#[derive(Drop)]
pub(crate) struct Bench {
    pub(crate) keys: RandomState,
    pub(crate) numbers: Numbers,
    pub(crate) parts: u32,
    pub(crate) digest: Digest,
}

/// Runs a job over new files, as the program does.
fn run_once<R: AllocGlobal + Threads + Wait + Sync>(
    rt: &R,
    bench: &mut Bench,
    clock: &Clock,
    job: &Job,
    files: Files,
) -> Result<(), Stopped>
    requires { IsRunnable job.now }
{
    let alloc = rt.alloc();
    let sources = sources(alloc, &mut bench.numbers, files.thousandths(bench.parts))?;
    if is_usage_run(job, sources.as_slice()) {
        run_usage(
            rt,
            alloc,
            bench.keys,
            clock,
            job,
            UsageWanted::every(),
            sources,
            &mut bench.digest,
        )?;
        return Ok(());
    }
    run(
        rt,
        alloc,
        bench.keys,
        clock,
        job,
        FilesApart::together(),
        sources,
        &OpenGate,
        &mut bench.digest,
    )?;
    Ok(())
}

/// `ac` over hosts with many short sessions, and by day and user over hosts with longer ones.
pub(crate) fn connect<R: AllocGlobal + Threads + Wait + Sync>(
    rt: &R,
    bench: &mut Bench,
) -> Result<(), Stopped> {
    let utc = Clock::utc(rt.alloc());
    let berlin = Clock::of_rule(rt.alloc(), RULE)?;
    let busy = logins(2, 250_000, BUSY);
    let long = logins(2, 125_000, LONG);
    for _ in 0..4 {
        run_once(
            rt,
            bench,
            &utc,
            &connect_time(false, false, Form::Text),
            busy,
        )?;
        run_once(
            rt,
            bench,
            &utc,
            &connect_time(false, true, Form::Text),
            busy,
        )?;
        run_once(
            rt,
            bench,
            &utc,
            &connect_time(true, false, Form::Text),
            long,
        )?;
        run_once(
            rt,
            bench,
            &berlin,
            &connect_time(true, true, Form::Csv),
            long,
        )?;
    }
    Ok(())
}

/// `last` over hosts with many short sessions: all of them, the latest, and as a table.
pub(crate) fn last<R: AllocGlobal + Threads + Wait + Sync>(
    rt: &R,
    bench: &mut Bench,
) -> Result<(), Stopped> {
    let utc = Clock::utc(rt.alloc());
    let berlin = Clock::of_rule(rt.alloc(), RULE)?;
    let files = logins(2, 150_000, BUSY);
    for _ in 0..4 {
        run_once(rt, bench, &utc, &sessions(None, Form::Text), files)?;
        run_once(rt, bench, &utc, &sessions(Some(1000), Form::Text), files)?;
        run_once(rt, bench, &berlin, &sessions(None, Form::Text), files)?;
        run_once(rt, bench, &berlin, &sessions(None, Form::Csv), files)?;
    }
    Ok(())
}

/// `sa` over hosts with some hundred commands.
pub(crate) fn usage<R: AllocGlobal + Threads + Wait + Sync>(
    rt: &R,
    bench: &mut Bench,
) -> Result<(), Stopped> {
    let utc = Clock::utc(rt.alloc());
    let files = processes(3, 200_000, BUSY);
    for _ in 0..6 {
        run_once(
            rt,
            bench,
            &utc,
            &commands(Order::Cpu, false, Form::Text),
            files,
        )?;
        run_once(
            rt,
            bench,
            &utc,
            &commands(Order::Calls, true, Form::Csv),
            files,
        )?;
        run_once(rt, bench, &utc, &users(Order::Cpu), files)?;
    }
    Ok(())
}

/// All reports over files of both kinds, which four threads read.
pub(crate) fn all<R: AllocGlobal + Threads + Wait + Sync>(
    rt: &R,
    bench: &mut Bench,
) -> Result<(), Stopped> {
    let utc = Clock::utc(rt.alloc());
    let files = Files {
        logins: 8,
        processes: 8,
        records: 100_000,
        manner: LONG,
    };
    for _ in 0..6 {
        run_once(rt, bench, &utc, &all_reports(), files)?;
    }
    Ok(())
}

/// Records that are made to be slow: names that fill their fields and occur once, and sessions of days.
pub(crate) fn full<R: AllocGlobal + Threads + Wait + Sync>(
    rt: &R,
    bench: &mut Bench,
) -> Result<(), Stopped> {
    let utc = Clock::utc(rt.alloc());
    for _ in 0..3 {
        run_once(
            rt,
            bench,
            &utc,
            &connect_time(false, true, Form::Text),
            logins(2, 150_000, FULL),
        )?;
        run_once(
            rt,
            bench,
            &utc,
            &connect_time(true, true, Form::Csv),
            logins(1, 40_000, FULL),
        )?;
        run_once(
            rt,
            bench,
            &utc,
            &sessions(None, Form::Text),
            logins(1, 50_000, FULL),
        )?;
        run_once(
            rt,
            bench,
            &utc,
            &commands(Order::Cpu, true, Form::Text),
            processes(1, 100_000, FULL),
        )?;
    }
    Ok(())
}
