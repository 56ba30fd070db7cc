ghost use Rattle.std.specs.Prelude.{◌≡◌, ◌≤◌, ◌+◌, ◌-◌, ◌^◌, ◌<◌, [], IfOk, false, length, is_ok, if◌then◌else◌};
ghost use Rattle.std.specs.Io.KnownBytes.{Keeps, WriteAppends};

use crate::{Output, OutputFault};
use std::io::{ErrorKind, Write};
use std::marker::Model;

/// How often a write is begun that an interrupt breaks off, before the output counts as failed.
const MOST_TRIES: u32 = 1000;

/// An output over any writer, which does not tell what was written, seen as the writer and how
/// often it has failed.
///
/// A write that is interrupted is begun again.
#[derive(Drop)]
pub struct Writing<W: Write> {
    writer: W,
    failures: u64,
}

impl<W: Write> Model for Writing<W> {
    ghost use Rattle.tally_print.specs.Writing.{WritingState};

    ghost Value = { WritingState W };

    ghost view = { λ w. record { writer = w.writer; failures = w.failures } };
}

/// Writes once, and again where an interrupt broke the write off; some byte, unless there is none.
fn write_through<W: Write>(writer: &mut W, bytes: &[u8]) -> Result<usize, OutputFault>
    ensures bytes { WriteAppends (W.contents writer.old) (W.contents writer.new) result bytes.now }
    ensures within { IfOk result (λ n. n ≤ length bytes.now) }
    ensures some { IfOk result (λ n. 0 < length bytes.now → 0 < n) }
{
    for _ in 0..MOST_TRIES {
        match writer.write(bytes) {
            Ok(0) if !bytes.is_empty() => break,
            Ok(count) => return Ok(count),
            Err(error) if error.kind() == ErrorKind::Interrupted => {}
            Err(_) => break,
        }
    }
    Err(OutputFault)
}

impl<W: Write> Writing<W> {
    /// Writes go straight to the writer.
    pub fn new(writer: W) -> Writing<W>
        ensures writer { result.writer ≡ writer }
        ensures failures { result.failures ≡ 0 }
    {
        Writing {
            writer,
            failures: 0,
        }
    }

    /// The writer.
    pub fn writer(&self) -> &W
        ensures { result.now ≡ self.now.writer }
    {
        &self.writer
    }

    fn fail(&mut self) -> OutputFault
        requires { self.old.failures < 2 ^ 64 - 1 }
        ensures { self.new ≡ record self.old { failures = self.old.failures + 1 } }
    {
        self.failures += 1;
        OutputFault
    }
}

impl<W: Write> Output for Writing<W> {
    ghost state = { λ writing. record { tells = false; written = []; failures = writing.failures } };

    fn put(&mut self, bytes: &[u8]) -> Result<usize, OutputFault>
        requires { self.old.failures < 2 ^ 64 - 1 }
        ensures within { IfOk result (λ n. n ≤ length bytes.now) }
        ensures some { IfOk result (λ n. 0 < length bytes.now → 0 < n) }
        ensures counts { self.new.failures ≡ (if is_ok result then self.old.failures else self.old.failures + 1) }
        ensures bytes { WriteAppends (W.contents self.old.writer) (W.contents self.new.writer) result bytes.now }
    {
        match write_through(&mut self.writer, bytes) {
            Ok(count) => Ok(count),
            Err(_) => Err(self.fail()),
        }
    }

    fn finish(&mut self) -> Result<(), OutputFault>
        requires { self.old.failures < 2 ^ 64 - 1 }
        ensures counts { self.new.failures ≡ (if is_ok result then self.old.failures else self.old.failures + 1) }
        ensures bytes { Keeps (W.contents self.old.writer) (W.contents self.new.writer) }
    {
        match self.writer.flush() {
            Ok(()) => Ok(()),
            Err(_) => Err(self.fail()),
        }
    }
}
