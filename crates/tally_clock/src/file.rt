//! The clock of a time zone file.
ghost use Rattle.std.specs.Prelude.{◌≡◌, ◌⊎◌, ◌+◌, ◌<◌, ◌≤◌, ◌^◌, IfErr, IfOk, length, nat_lt, slice_index};
ghost use Rattle.jiff_core.specs.declared.error.TzifFault.{TzifFault};
ghost use Rattle.jiff_tz.specs.TzifReader.{be_u32, read_tzif};
ghost use Rattle.tally_clock.specs.Files as Spec;
ghost use Rattle.tally_clock.specs.Zones.{ChangesOften};
ghost use Rattle.tally_clock.specs.declared.file.FileFault.TheVariants as file_fault;

use crate::clock::{Clock, ROW_LIMIT};
use crate::zone::ClockFault;
use jiff_core::Error;
use jiff_tz::{TimeZone, Tzif};
use std::alloc::Global;

/// The most bytes of a time zone file. The largest of the system's has a twentieth of this.
pub const FILE_LIMIT: usize = 65_536;

/// Why the bytes of a file give no clock.
#[derive(Clone, Copy, Debug, PartialEq, Eq)]
pub enum FileFault {
    /// Out of memory.
    Memory,
    /// There are more than 65,536 of them.
    Large,
    /// They are no table of a time zone, or not all of one.
    NoZone,
    /// They count leap seconds, which other clocks do not.
    LeapSeconds,
    /// The offset changes more than 4,096 times.
    Long,
}

impl From<ClockFault> for FileFault {
    ghost from_gives = { λ found fault. fault ≡ Spec.of_clock_fault found };

    fn from(found: ClockFault) -> FileFault {
        match found {
            ClockFault::Memory => FileFault::Memory,
            ClockFault::Long => FileFault::Long,
        }
    }
}

fn byte_at(bytes: &[u8], at: usize) -> u8
    ensures { result ≡ slice_index bytes.now at }
{
    match bytes.get(at) {
        Some(byte) => *byte,
        None => 0,
    }
}

/// The number of four bytes, the highest first. A byte that is not there counts as 0.
fn number_at(bytes: &[u8], at: usize) -> usize
    requires { at < 2 ^ 40 }
    ensures value { result ≡ be_u32 bytes.now at }
    ensures bound { result < 2 ^ 32 }
{
    u32::from_be_bytes([
        byte_at(bytes, at),
        byte_at(bytes, at + 1),
        byte_at(bytes, at + 2),
        byte_at(bytes, at + 3),
    ]) as usize
}

fn first_block_end(bytes: &[u8]) -> usize
    ensures value { result ≡ Spec.first_block_end bytes.now }
    ensures bound { result < 2 ^ 39 }
{
    let flags = number_at(bytes, 20) + number_at(bytes, 24);
    let leap_seconds = number_at(bytes, 28) * 8;
    let times = number_at(bytes, 32) * 5;
    let types = number_at(bytes, 36) * 6;
    44 + times + types + number_at(bytes, 40) + leap_seconds + flags
}

/// How many leap seconds a file announces, in the header of the block that counts.
fn leap_count(bytes: &[u8]) -> usize
    ensures { result ≡ Spec.leap_count bytes.now }
{
    let header = if byte_at(bytes, 4) == 0 {
        0
    } else {
        first_block_end(bytes)
    };
    number_at(bytes, header + 28)
}

/// Whether there are more bytes than a time zone file has.
fn is_large(bytes: &[u8]) -> bool
    ensures { result ≡ nat_lt FILE_LIMIT (length bytes.now) }
{
    bytes.len() > FILE_LIMIT
}

/// Whether a file counts leap seconds.
fn has_leap_seconds(bytes: &[u8]) -> bool
    ensures { result ≡ nat_lt 0 (Spec.leap_count bytes.now) }
{
    leap_count(bytes) > 0
}

/// The table that bytes hold.
fn table_of(alloc: Global, bytes: &[u8]) -> Result<Tzif, FileFault>
    ensures value { IfOk result (Spec.IsTableOf bytes.now) }
    ensures err { IfErr result (λ found. (found ≡ FileFault.Memory) ⊎ ((found ≡ FileFault.NoZone) × Spec.HoldsNoTable bytes.now)) }
    ensures broken { (f : TzifFault) → read_tzif bytes.now ≡ Err f → result ≡ Err FileFault.NoZone }
{
    match Tzif::parse(alloc, None, bytes) {
        Ok(table) => Ok(table),
        Err(Error::OutOfMemory) => Err(FileFault::Memory),
        Err(_) => Err(FileFault::NoZone),
    }
}

/// The table that bytes hold, which counts no leap seconds.
fn table_without_leap_seconds(alloc: Global, bytes: &[u8]) -> Result<Tzif, FileFault>
    ensures value { IfOk result (Spec.IsTableOf bytes.now) }
    ensures no_leap_seconds { IfOk result (λ _. Spec.leap_count bytes.now ≡ 0) }
    ensures err { IfErr result (λ found. (found ≡ FileFault.Memory) ⊎ ((found ≡ FileFault.NoZone) × Spec.HoldsNoTable bytes.now)
        ⊎ ((found ≡ FileFault.LeapSeconds) × (0 < Spec.leap_count bytes.now))) }
    ensures broken { (f : TzifFault) → read_tzif bytes.now ≡ Err f → result ≡ Err FileFault.NoZone }
{
    let table = table_of(alloc, bytes)?;
    if has_leap_seconds(bytes) {
        return Err(FileFault::LeapSeconds);
    }
    Ok(table)
}

/// The clock of a table.
fn clock_of(alloc: Global, table: &Tzif) -> Result<Clock, ClockFault>
    ensures shows { IfOk result (Spec.ShowsTable table.now) }
    ensures err { IfErr result (λ found. found ≡ ClockFault.Long → ChangesOften ROW_LIMIT (Spec.table_offset table.now)) }
{
    Clock::of_zone(alloc, &TimeZone::Tzif(table))
}

impl Clock {
    /// The clock of the zone that the bytes of a file hold.
    #[tactic(auto, using(crate::proofs::FaultLemmas::clock_is_of_file, crate::proofs::FaultLemmas::file_refused))]
    pub fn of_file(alloc: Global, bytes: &[u8]) -> Result<Clock, FileFault>
        ensures value { IfOk result (Spec.IsClockOfFile bytes.now) }
        ensures err { IfErr result (Spec.RefusesFile bytes.now) }
        ensures large { FILE_LIMIT < length bytes.now → result ≡ Err FileFault.Large }
        ensures broken { (f : TzifFault) → length bytes.now ≤ FILE_LIMIT → read_tzif bytes.now ≡ Err f → result ≡ Err FileFault.NoZone }
    {
        if is_large(bytes) {
            return Err(FileFault::Large);
        }
        let table = table_without_leap_seconds(alloc, bytes)?;
        Ok(clock_of(alloc, &table)?)
    }
}
