//! A reader as an input.
ghost use Rattle.std.specs.Prelude.{◌≡◌, true};
ghost use Rattle.std.specs.Io.{ReadsAtMost};
ghost use Rattle.std.specs.Io.KnownBytes.{ReadConsumes};

use crate::feeding::input::{Input, InputFault};
use std::io::{ErrorKind, Read};
use std::marker::Model;

/// How often a read is begun that an interrupt breaks off, before the input counts as failed.
const MOST_TRIES: u32 = 1000;

/// An input of what a reader gives, seen as the reader and how often it has failed. Its bytes to
/// come are those that the reader's own contract knows.
///
/// A read that is interrupted is begun again.
#[derive(Drop)]
pub struct Reading<R: Read> {
    reader: R,
    failures: u64,
}

impl<R: Read> Model for Reading<R> {
    ghost use Rattle.tally_desk.specs.Reading.{ReadingState};

    ghost Value = { ReadingState R };

    ghost view = { λ r. record { reader = r.reader; failures = r.failures } };
}

impl<R: Read> Reading<R> {
    /// An input of what the reader gives.
    pub fn new(reader: R) -> Reading<R>
        ensures reader { result.reader ≡ reader }
        ensures failures { result.failures ≡ 0 }
    {
        Reading {
            reader,
            failures: 0,
        }
    }
}

/// Reads once, and again where an interrupt broke the read off.
fn read_through<R: Read>(reader: &mut R, buf: &mut [u8]) -> Result<usize, InputFault>
    ensures bound { ReadsAtMost result buf.new }
    ensures bytes { ReadConsumes (R.remaining reader.old) (R.remaining reader.new) result buf.new }
{
    for _ in 0..MOST_TRIES {
        match reader.read(buf) {
            Ok(count) => return Ok(count),
            Err(error) if error.kind() == ErrorKind::Interrupted => {}
            Err(_) => break,
        }
    }
    Err(InputFault)
}

impl<R: Read + Drop> Input for Reading<R> {
    ghost to_come = { λ r. R.remaining r.reader };

    ghost can_fail = { λ _. true };

    ghost failures = { λ r. r.failures };

    fn take(&mut self, buf: &mut [u8]) -> Result<usize, InputFault> {
        match read_through(&mut self.reader, buf) {
            Ok(count) => Ok(count),
            Err(fault) => {
                self.failures += 1;
                Err(fault)
            }
        }
    }
}
