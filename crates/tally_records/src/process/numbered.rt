//! Process records with a number in place of the command's name.
ghost use Rattle.std.specs.Prelude.{◌≡◌, ◌<◌, ◌+◌, ◌^◌, ◌%◌, ◌==◌};
ghost use Rattle.tally_records.specs.NumberedProc.{named, number_of, version_in};
ghost use Rattle.tally_records.specs.PackedProc.{record_of};

use crate::field::Comm;
use crate::process::packed::{PackedProc, Version};

/// A process record in 24 bytes: as `PackedProc` has it, but with a number below 2^24 in place of its command: its name, and the lowest
/// bit of its flag.
#[derive(Clone, Copy)]
pub struct NumberedProc {
    uid: u32,
    begin: u32,
    elapsed: u32,
    user_ticks: u16,
    system_ticks: u16,
    mem: u16,
    io: u16,
    /// From the lowest bit: the flag without its own in seven bits, the version in one, and the number.
    rest: u32,
}

/// A version as the bit above a flag.
fn version_bit(version: Version) -> u32
    ensures bit { version_in result ≡ version }
    ensures small { result < 2 }
{
    match version {
        Version::Two => 0,
        Version::Three => 1,
    }
}

/// The version of a bit.
fn version_of(bit: u32) -> Version
    ensures { result ≡ version_in bit }
{
    if bit == 0 {
        Version::Two
    } else {
        Version::Three
    }
}

impl NumberedProc {
    /// The record with this number in place of its command.
    pub fn of(packed: &PackedProc, number: u32) -> NumberedProc
        requires { number < 2 ^ 24 }
        ensures number { number_of result ≡ number }
        ensures named { named (record_of packed.now).comm ((record_of packed.now).flag % 2 == 1) result ≡ packed.now }
    {
        NumberedProc {
            uid: packed.uid,
            begin: packed.begin,
            elapsed: packed.elapsed,
            user_ticks: packed.user_ticks,
            system_ticks: packed.system_ticks,
            mem: packed.mem,
            io: packed.io,
            rest: number * 256 + version_bit(packed.version) * 128 + u32::from(packed.flag / 2),
        }
    }

    /// The number.
    pub fn number(&self) -> u32
        ensures { result ≡ number_of self.now }
    {
        self.rest / 256
    }

    /// The record with this command in place of the number: its name, and whether the lowest bit of its flag is set.
    pub fn named(&self, comm: Comm, forked: bool) -> PackedProc
        ensures { result ≡ named comm forked self.now }
    {
        PackedProc {
            uid: self.uid,
            begin: self.begin,
            elapsed: self.elapsed,
            user_ticks: self.user_ticks,
            system_ticks: self.system_ticks,
            mem: self.mem,
            io: self.io,
            version: version_of(self.rest / 128 % 2),
            flag: (self.rest % 128 * 2) as u8 + u8::from(forked),
            comm,
        }
    }
}
