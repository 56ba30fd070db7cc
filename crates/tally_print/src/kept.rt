ghost use Rattle.std.specs.Prelude.{◌≡◌, [], true, IsOk};

use crate::{Output, OutputFault};
use std::alloc::Global;
use std::marker::Model;

/// An output over memory, which tells what was written.
#[derive(Drop)]
pub struct Kept {
    bytes: Vec<u8>,
    failures: u64,
}

impl Model for Kept {
    ghost use Rattle.tally_print.specs.Output.{OutputState};

    ghost Value = { OutputState };

    ghost view = { λ kept. record { written = kept.bytes.items; failures = kept.failures } };
}

impl Kept {
    /// An empty one, which takes no memory before it is written to.
    pub fn new(alloc: Global) -> Kept
        ensures written { result.written ≡ [] }
        ensures failures { result.failures ≡ 0 }
    {
        Kept {
            bytes: Vec::new(alloc),
            failures: 0,
        }
    }

    /// What was written.
    pub fn bytes(&self) -> &[u8]
        ensures { result.now ≡ self.now.written }
    {
        self.bytes.as_slice()
    }
}

impl Output for Kept {
    ghost state = { λ kept. record { tells = true; written = kept.written; failures = kept.failures } };

    fn put(&mut self, bytes: &[u8]) -> Result<usize, OutputFault> {
        match self.bytes.extend_from_slice(bytes) {
            Ok(()) => Ok(bytes.len()),
            Err(_) => {
                self.failures += 1;
                Err(OutputFault)
            }
        }
    }

    fn finish(&mut self) -> Result<(), OutputFault> {
        Ok(())
    }
}
