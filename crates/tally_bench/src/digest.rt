//! A digest of what was printed.
ghost use Rattle.std.specs.Prelude.{false, []};

use tally_print::{Output, OutputFault};

/// An output that keeps a number for all bytes and their order, and nothing else.
#[derive(Drop)]
pub(crate) struct Digest {
    sum: u64,
    /// The bytes after the last whole word, and how many these are.
    begun: u64,
    filled: u32,
}

impl Digest {
    pub(crate) fn new() -> Digest {
        Digest {
            sum: 0,
            begun: 0,
            filled: 0,
        }
    }

    fn add_word(&mut self, word: u64) {
        self.sum = (self.sum.rotate_left(5) ^ word).wrapping_mul(0x9e37_79b9_7f4a_7c15);
    }

    fn add_byte(&mut self, byte: u8) {
        self.begun |= u64::from(byte) << (8 * (self.filled % 8));
        self.filled = self.filled % 8 + 1;
        if self.filled == 8 {
            self.add_word(self.begun);
            self.begun = 0;
            self.filled = 0;
        }
    }

    /// Adds bytes: the same in one part as in several.
    fn add(&mut self, bytes: &[u8]) {
        let lead = ((8 - self.filled % 8) % 8) as usize;
        let (first, rest) = bytes.split_at(lead.min(bytes.len()));
        for byte in first {
            self.add_byte(*byte);
        }
        let (words, last) = rest.as_chunks::<8>();
        for word in words {
            self.add_word(u64::from_le_bytes(*word));
        }
        for byte in last {
            self.add_byte(*byte);
        }
    }

    /// The number.
    pub(crate) fn sum(&self) -> u64 {
        self.sum ^ self.begun
    }
}

impl Output for Digest {
    ghost state = { λ _. record { tells = false; written = []; failures = 0 } };

    fn put(&mut self, bytes: &[u8]) -> Result<usize, OutputFault> {
        self.add(bytes);
        Ok(bytes.len())
    }

    fn finish(&mut self) -> Result<(), OutputFault> {
        Ok(())
    }
}
