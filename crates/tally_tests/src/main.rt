//! The scripts of `tally_scripts`, and among them a whole run that memory is refused to.
#![tactic(auto)]

mod runs;

use std::hash::RandomState;
use std::process::ExitCode;
use std::random::RandomSource;
use std::sync::Wait;
use std::thread::Threads;
use tally_scripts::{Stopped, print_scripts, print_words};

/// Runs the scripts.
fn scripts<R: Print + AllocGlobal + RandomSource + Threads + Wait + Sync>(
    rt: &R,
) -> Result<(), Stopped> {
    let Ok(keys) = RandomState::new(rt) else {
        return Err(Stopped::Refused("random bytes"));
    };
    print_scripts(rt, keys)?;
    runs::script(rt, keys)?;
    print_words(rt)
}

fn main(rt: HostRuntime) -> ExitCode {
    match scripts(&rt) {
        Ok(()) => ExitCode::SUCCESS,
        Err(stopped) => {
            let (first, second) = stopped.text();
            let _ = eprintln!(rt; "tally_tests: {first}{second}");
            ExitCode::FAILURE
        }
    }
}
