//! An output over memory that shows whether one of its own growths was refused.
ghost use Rattle.std.specs.Prelude.{◌≡◌};

use crate::stopped::{Stopped, stop};
use std::alloc::Global;
use std::io::{self, Write};
use tally_print::{Kept, Output, OutputFault, PrintFault};

/// What was written, and whether a write failed.
#[derive(Drop)]
pub struct Watched {
    pub kept: Kept,
    pub failed: bool,
}

impl Watched {
    pub fn new(alloc: Global) -> Watched
        ensures { result.kept.failures ≡ 0 }
    {
        Watched {
            kept: Kept::new(alloc),
            failed: false,
        }
    }
}

/// Sees that a print that was refused memory, by the printer or by its output, which the fault tells apart, wrote a
/// first part of the text that was printed again. Refused again, either fault is want of memory.
pub(crate) fn see_part(
    again: Result<(), PrintFault>,
    fault: PrintFault,
    part: &Watched,
    whole: &Watched,
) -> Result<(), Stopped> {
    if again.is_err() {
        return Err(Stopped::Memory);
    }
    if (fault == PrintFault::Write) != part.failed {
        return Err(Stopped::Changed("a fault of the output"));
    }
    if !whole.kept.bytes().starts_with(part.kept.bytes()) {
        return Err(Stopped::Changed("a text"));
    }
    Ok(())
}

/// Prints what was written.
pub fn print_watched<R: Print>(rt: &R, written: Watched) -> Result<(), Stopped> {
    let printed = io::writer(rt).write_all(written.kept.bytes());
    drop(written);
    stop(printed)
}

impl Output for Watched {
    ghost use Rattle.std.specs.Prelude.{true};

    ghost state = { λ watched. record { tells = true; written = watched.kept.written; failures = watched.kept.failures } };

    fn put(&mut self, bytes: &[u8]) -> Result<usize, OutputFault> {
        let put = self.kept.put(bytes);
        self.failed = self.failed || put.is_err();
        put
    }

    fn finish(&mut self) -> Result<(), OutputFault> {
        self.kept.finish()
    }
}
