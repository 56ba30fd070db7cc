//! `tally_bench`: the jobs that a user of `tally` waits for, on files that it makes from a seed while
//! they are read. It prints a digest of all that the reports print.
#![tactic(auto)]

mod digest;
mod jobs;
mod logins;
mod made;
mod numbers;
mod processes;
mod runs;
mod shared;
mod stopped;
mod text;

use crate::digest::Digest;
use crate::numbers::Numbers;
use crate::runs::Bench;
use crate::stopped::Stopped;
use std::hash::RandomState;
use std::process::ExitCode;
use std::random::RandomSource;
use std::rt::Env;
use std::sync::Wait;
use std::thread::Threads;

/// The workloads, by their names.
const NAMES: [&str; 6] = ["connect", "last", "usage", "shared", "all", "full"];

/// Does the jobs of a workload.
fn work<R: AllocGlobal + Threads + Wait + Sync>(
    rt: &R,
    name: &str,
    bench: &mut Bench,
) -> Result<(), Stopped> {
    match name {
        "connect" => runs::connect(rt, bench),
        "last" => runs::last(rt, bench),
        "usage" => runs::usage(rt, bench),
        "shared" => shared::shared(rt, bench),
        "all" => runs::all(rt, bench),
        "full" => runs::full(rt, bench),
        _ => Err(Stopped::Words),
    }
}

/// Does the jobs of a workload, so many thousandths of each, and prints the digest.
fn print_work<R: Print + AllocGlobal + RandomSource + Threads + Wait + Sync>(
    rt: &R,
    name: &str,
    seed: u64,
    parts: u32,
) -> Result<(), Stopped> {
    let keys = RandomState::new(rt).map_err(|_| Stopped::Refused("random bytes"))?;
    let mut bench = Bench {
        keys,
        numbers: Numbers::new(seed),
        parts,
        digest: Digest::new(),
    };
    work(rt, name, &mut bench)?;
    println!(rt; "{name} {:016x}", bench.digest.sum())?;
    Ok(())
}

/// Does what the words name: a workload or `every`, its seed, and how many thousandths, of which there are all else.
fn bench<R>(rt: &R) -> Result<(), Stopped>
where
    R: Env + Print + AllocGlobal + RandomSource + Threads + Wait + Sync,
{
    let mut words = std::env::args(rt)?.skip(1);
    let name = words.next().ok_or(Stopped::Words)?;
    let seed = words.next().ok_or(Stopped::Words)?;
    let seed = seed.as_str().parse::<u64>().map_err(|_| Stopped::Words)?;
    let parts = match words.next() {
        Some(word) => word.as_str().parse::<u32>().map_err(|_| Stopped::Words)?,
        None => 1000,
    };
    if name.as_str() != "every" {
        return print_work(rt, name.as_str(), seed, parts);
    }
    for name in NAMES {
        print_work(rt, name, seed, parts)?;
    }
    Ok(())
}

fn main(rt: HostRuntime) -> ExitCode {
    match bench(&rt) {
        Ok(()) => ExitCode::SUCCESS,
        Err(stopped) => {
            let _ = eprintln!(rt; "tally_bench: {stopped}");
            ExitCode::FAILURE
        }
    }
}
