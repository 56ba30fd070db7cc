//! Files that are made while they are read.
ghost use Rattle.std.specs.Prelude.{None, false};

use crate::logins::{Logins, Manner};
use crate::processes::Processes;
use crate::text::letters;
use std::alloc::{AllocError, Global};
use tally_desk::{Input, InputFault};
use tally_records::{BATCH_LIMIT, Kind, LOGIN_SIZE, PROC_SIZE};

/// A file of so many records. A part of it is made at first. Each further one has the same records, at later times,
/// so that a workload spends little time on its files.
#[derive(Drop)]
pub(crate) struct Made {
    kind: Kind,
    /// Whether the names of each part are its own.
    is_full: bool,
    /// The seconds from part to part.
    span: u32,
    /// How many parts were made.
    parts: u64,
    part: Vec<u8>,
    /// How many bytes are yet to be made.
    left: usize,
    /// Where the bytes begin that were made and not yet taken.
    at: usize,
    end: usize,
}

/// The number in four bytes.
fn number(bytes: &[u8; 4]) -> u32 {
    u32::from_le_bytes(*bytes)
}

/// Makes the next part of a login file.
fn turn_logins(part: &mut [u8], span: u32, names: Option<[u8; 4]>) {
    let (records, _) = part.as_chunks_mut::<LOGIN_SIZE>();
    for record in records {
        let time = number(&[record[340], record[341], record[342], record[343]]).wrapping_add(span);
        record[340..344].copy_from_slice(&time.to_le_bytes());
        if let Some(names) = names {
            if record[0] == 7 {
                record[44..48].copy_from_slice(&names);
            }
        }
    }
}

/// Makes the next part of a process file.
fn turn_processes(part: &mut [u8], span: u32, names: Option<[u8; 4]>) {
    let (records, _) = part.as_chunks_mut::<PROC_SIZE>();
    for record in records {
        if record[1] == 2 {
            let begin = number(&[record[8], record[9], record[10], record[11]]).wrapping_add(span);
            record[8..12].copy_from_slice(&begin.to_le_bytes());
            if let Some(names) = names {
                record[44..48].copy_from_slice(&names);
                record[58..60].copy_from_slice(&[names[2], names[3]]);
            }
        } else {
            let begin = number(&[record[24], record[25], record[26], record[27]]).wrapping_add(
                span,
            );
            record[24..28].copy_from_slice(&begin.to_le_bytes());
            if let Some(names) = names {
                record[56..60].copy_from_slice(&names);
                record[10..12].copy_from_slice(&[names[2], names[3]]);
            }
        }
    }
}

impl Made {
    fn new(kind: Kind, is_full: bool, span: u32, part: Vec<u8>, bytes: u64) -> Made {
        Made {
            kind,
            is_full,
            span,
            parts: 0,
            part,
            left: bytes as usize,
            at: 0,
            end: 0,
        }
    }

    /// A file of so many login records.
    pub(crate) fn logins(
        alloc: Global,
        seed: u64,
        count: u32,
        manner: Manner,
    ) -> Result<Made, AllocError> {
        let mut logins = Logins::new(alloc, seed, manner)?;
        let mut part = Vec::new(alloc);
        for _ in 0..BATCH_LIMIT {
            part.extend_from_slice(&logins.next())?;
        }
        let bytes = u64::from(count) * 384;
        Ok(Made::new(Kind::Login, manner.is_full, logins.span(), part, bytes))
    }

    /// A file of so many process records.
    pub(crate) fn processes(
        alloc: Global,
        seed: u64,
        count: u32,
        is_full: bool,
    ) -> Result<Made, AllocError> {
        let version = if seed % 2 == 0 { 2 } else { 3 };
        let mut processes = Processes::new(alloc, seed, version, is_full)?;
        let mut part = Vec::new(alloc);
        for _ in 0..BATCH_LIMIT {
            part.extend_from_slice(&processes.next())?;
        }
        let bytes = u64::from(count) * 64;
        Ok(Made::new(Kind::Proc, is_full, processes.span(), part, bytes))
    }

    /// Makes the next part, a batch of records.
    fn turn(&mut self) {
        self.parts = self.parts.wrapping_add(1);
        let names = if self.is_full {
            Some(letters(self.parts))
        } else {
            None
        };
        match self.kind {
            Kind::Login | Kind::FailedLogin => turn_logins(
                self.part.as_mut_slice(),
                self.span,
                names,
            ),
            Kind::Proc => turn_processes(self.part.as_mut_slice(), self.span, names),
        }
    }

    /// The next part, however many records the file was to have.
    pub(crate) fn next_part(&mut self) -> &[u8] {
        self.turn();
        self.part.as_slice()
    }

    /// What was made and not yet taken.
    fn ready(&self) -> &[u8] {
        match self.part.as_slice().get(self.at..self.end) {
            Some(ready) => ready,
            None => &[],
        }
    }
}

impl Input for Made {
    ghost to_come = { λ _. None };

    ghost can_fail = { λ _. false };

    ghost failures = { λ _. 0 };

    fn take(&mut self, buf: &mut [u8]) -> Result<usize, InputFault> {
        if self.at >= self.end {
            self.turn();
            self.at = 0;
            self.end = self.left.min(self.part.len());
            self.left -= self.end;
        }
        let ready = self.ready();
        let count = ready.len().min(buf.len());
        buf[..count].copy_from_slice(&ready[..count]);
        self.at = self.at.saturating_add(count);
        Ok(count)
    }
}
