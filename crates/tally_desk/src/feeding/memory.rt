//! Bytes in memory as an input.
ghost use Rattle.std.specs.Prelude.{◌≡◌, ◌≤◌, Some, drop, false, length};

use crate::feeding::input::{Input, InputFault};
use std::marker::Model;

/// An input of bytes in memory, which never fails.
#[derive(Drop)]
pub struct Bytes {
    bytes: Vec<u8>,
    at: usize,
}

impl Model for Bytes {
    ghost use Rattle.std.specs.Prelude.{◌≤◌, List, ℕ, drop, vec_len};

    ghost Value = { List ℕ };

    ghost view = { λ b. drop b.at b.bytes.items };

    ghost invariant = { λ b. b.at ≤ vec_len b.bytes };
}

impl Bytes {
    /// An input of these bytes.
    pub fn new(bytes: Vec<u8>) -> Bytes
        ensures { result ≡ bytes.items }
    {
        Bytes { bytes, at: 0 }
    }

    /// Moves on by so many bytes.
    #[tactic(auto, using(crate::proofs::Fills::moved_on))]
    fn move_on(&mut self, count: usize)
        requires within { count ≤ length self.old }
        ensures { self.new ≡ drop count self.old }
    {
        self.at += count;
    }
}

impl Input for Bytes {
    ghost to_come = { λ b. Some b };

    ghost can_fail = { λ _. false };

    ghost failures = { λ _. 0 };

    fn take(&mut self, buf: &mut [u8]) -> Result<usize, InputFault> {
        let at = self.at;
        let left = self.bytes.len() - at;
        let count = left.min(buf.len());
        buf[..count].copy_from_slice(&self.bytes[at..at + count]);
        self.move_on(count);
        Ok(count)
    }
}
