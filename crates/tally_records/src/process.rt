ghost use Rattle.std.specs.Prelude.{◌≡◌, IfOk};
ghost use Rattle.tally_records.specs.ProcRecord.{IsBounded, proc_result};

pub(crate) mod compressed;
mod elapsed;
mod name;
pub(crate) mod numbered;
pub(crate) mod packed;

use crate::fault::RecordFault;
use crate::field::Comm;
use crate::process::packed::pack;

/// The size of a process record in bytes.
pub const PROC_SIZE: usize = 64;

/// A record of a finished process, as acct(5) has it in versions 2 and 3. Ticks are hundredths
/// of a second.
#[derive(Clone, Copy, Debug, PartialEq, Eq)]
pub struct ProcRecord {
    /// `ac_flag`; bit 0x01 is set where the process forked and never called exec.
    pub flag: u8,
    pub uid: u32,
    /// Seconds since 1970-01-01 00:00:00 UTC.
    pub begin: u32,
    pub user_ticks: u64,
    pub system_ticks: u64,
    /// Elapsed time.
    pub real_ticks: u64,
    /// Average memory in kB.
    pub mem: u64,
    /// Characters transferred.
    pub io: u64,
    pub comm: Comm,
}

/// Reads a process record by the layout of the version that its second byte names, acct(5).
pub fn read_proc(bytes: &[u8; PROC_SIZE]) -> Result<ProcRecord, RecordFault>
    ensures value { result ≡ proc_result bytes.now }
    ensures bounded { IfOk result IsBounded }
{
    Ok(pack(bytes)?.record())
}
