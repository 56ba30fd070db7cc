//! Process records with each number as its field has it.
ghost use Rattle.std.specs.Prelude.{◌≡◌, ◌≤◌, ◌+◌, take, drop, IfOk, MatchResult, Ok, Err};
ghost use Rattle.tally_records.specs.PackedProc.{elapsed_ticks, record_of};
ghost use Rattle.tally_records.specs.ProcRecord.{IsBounded, fields_2, fields_3, proc_result};
ghost use Rattle.tally_records.specs.Text.{text_of, u16_at};

use crate::fault::RecordFault;
use crate::field::{Comm, number_at};
use crate::process::compressed::comp;
use crate::process::elapsed::elapsed;
use crate::process::name::name_of;
use crate::process::{PROC_SIZE, ProcRecord};
use byteorder::{ByteOrder, LittleEndian};

/// The versions of acct(5) that are read.
#[derive(Clone, Copy, Debug, PartialEq, Eq)]
pub enum Version {
    Two,
    Three,
}

/// A process record in 40 bytes: each number as acct(5) has it, as a `comp_t` or as the word of a
/// float. They are worked out where the record is asked for.
#[derive(Clone, Copy, Debug, PartialEq, Eq)]
pub struct PackedProc {
    pub(crate) uid: u32,
    pub(crate) begin: u32,
    /// `ac_etime`: a `comp_t` in version 2, and in version 3 the word of a float.
    pub(crate) elapsed: u32,
    pub(crate) user_ticks: u16,
    pub(crate) system_ticks: u16,
    pub(crate) mem: u16,
    pub(crate) io: u16,
    pub(crate) version: Version,
    pub(crate) flag: u8,
    pub(crate) comm: Comm,
}

impl PackedProc {
    /// The command's name.
    pub fn comm(&self) -> &Comm
        ensures { result.now ≡ (record_of self.now).comm }
    {
        &self.comm
    }

    /// The record that it stands for.
    #[inline]
    pub fn record(&self) -> ProcRecord
        ensures value { result ≡ record_of self.now }
        ensures bounded { IsBounded result }
    {
        ProcRecord {
            flag: self.flag,
            uid: self.uid,
            begin: self.begin,
            user_ticks: comp(self.user_ticks),
            system_ticks: comp(self.system_ticks),
            real_ticks: ticks_of(self.version, self.elapsed),
            mem: comp(self.mem),
            io: comp(self.io),
            comm: self.comm,
        }
    }
}

/// The ticks of an elapsed time.
fn ticks_of(version: Version, word: u32) -> u64
    ensures { result ≡ elapsed_ticks version word }
{
    match version {
        Version::Two => comp((word % 65_536) as u16),
        Version::Three => elapsed(word),
    }
}

fn comp_at(bytes: &[u8; PROC_SIZE], offset: usize) -> u16
    requires { offset + 2 ≤ 64 }
    ensures { result ≡ u16_at offset bytes.now }
{
    let field = &bytes[offset..];
    LittleEndian::read_u16(field)
}

/// The name of the command in a field of so many bytes.
fn comm_at(bytes: &[u8; PROC_SIZE], offset: usize, size: usize) -> Comm
    requires within { offset + size ≤ 64 }
    requires whole { 16 ≤ size }
    requires few { size ≤ 17 }
    ensures { result ≡ text_of 17 (take size (drop offset bytes.now)) }
{
    name_of(&bytes[offset..offset + size])
}

/// The fields of struct acct, linux/acct.h.
fn pack_version_2(bytes: &[u8; PROC_SIZE]) -> PackedProc
    ensures value { record_of result ≡ fields_2 bytes.now }
    ensures bounded { IsBounded (record_of result) }
{
    PackedProc {
        uid: number_at(bytes, 56),
        begin: number_at(bytes, 8),
        elapsed: u32::from(comp_at(bytes, 16)),
        user_ticks: comp_at(bytes, 12),
        system_ticks: comp_at(bytes, 14),
        mem: comp_at(bytes, 18),
        io: comp_at(bytes, 20),
        version: Version::Two,
        flag: bytes[0],
        comm: comm_at(bytes, 36, 17),
    }
}

/// The fields of struct acct_v3, linux/acct.h.
fn pack_version_3(bytes: &[u8; PROC_SIZE]) -> PackedProc
    ensures value { record_of result ≡ fields_3 bytes.now }
    ensures bounded { IsBounded (record_of result) }
{
    PackedProc {
        uid: number_at(bytes, 8),
        begin: number_at(bytes, 24),
        elapsed: number_at(bytes, 28),
        user_ticks: comp_at(bytes, 32),
        system_ticks: comp_at(bytes, 34),
        mem: comp_at(bytes, 36),
        io: comp_at(bytes, 38),
        version: Version::Three,
        flag: bytes[0],
        comm: comm_at(bytes, 48, 16),
    }
}

/// Reads a process record by the layout of the version that its second byte names, acct(5).
pub(crate) fn pack(bytes: &[u8; PROC_SIZE]) -> Result<PackedProc, RecordFault>
    ensures value { MatchResult result
        (λ p. proc_result bytes.now ≡ Ok (record_of p))
        (λ fault. proc_result bytes.now ≡ Err fault) }
    ensures bounded { IfOk result (λ p. IsBounded (record_of p)) }
{
    match bytes[1] {
        2 => Ok(pack_version_2(bytes)),
        3 => Ok(pack_version_3(bytes)),
        version => Err(RecordFault::ProcVersion(version)),
    }
}
