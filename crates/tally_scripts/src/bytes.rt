//! Records of utmp(5) and acct(5) as bytes, and batches of them.
ghost use Rattle.std.specs.Prelude.{IfOk};
ghost use Rattle.tally_records.specs.Records.{IsLogins, IsProcs};

use std::alloc::Global;
use tally_records::{Batch, BatchFault};

/// Writes a text into bytes at a place.
pub fn put(bytes: &mut [u8], at: usize, text: &[u8]) {
    for (to, from) in bytes.iter_mut().skip(at).zip(text) {
        *to = *from;
    }
}

/// The login record of these fields, all others zero.
pub fn login_record(kind: u8, line: &str, user: &str, time: i32) -> [u8; 384] {
    let mut bytes = [0; 384];
    bytes[0] = kind;
    put(&mut bytes, 8, line.as_bytes());
    put(&mut bytes, 44, user.as_bytes());
    put(&mut bytes, 340, &time.to_le_bytes());
    bytes
}

/// A login on tty1, and its logout.
pub(crate) fn session(user: &str, login: i32, logout: i32) -> [u8; 768] {
    let mut bytes = [0; 768];
    put(&mut bytes, 0, &login_record(7, "tty1", user, login));
    put(&mut bytes, 384, &login_record(8, "tty1", "", logout));
    bytes
}

/// The process record of a run of make: user, system and elapsed ticks, memory and blocks.
pub(crate) fn make_record(flag: u8, numbers: &[u8; 10]) -> [u8; 64] {
    let mut bytes = [0; 64];
    bytes[0] = flag;
    bytes[1] = 2;
    put(&mut bytes, 12, numbers);
    put(&mut bytes, 36, b"make");
    put(&mut bytes, 56, &1000u32.to_le_bytes());
    bytes
}

/// The batch of login records, made again where memory was refused.
pub(crate) fn logins(alloc: Global, bytes: &[u8]) -> Result<Batch, BatchFault>
    ensures { IfOk result IsLogins }
{
    match Batch::logins(alloc, bytes) {
        Err(BatchFault::Memory) => Batch::logins(alloc, bytes),
        made => made,
    }
}

/// The batch of process records, made again where memory was refused.
pub(crate) fn procs(alloc: Global, bytes: &[u8]) -> Result<Batch, BatchFault>
    ensures { IfOk result IsProcs }
{
    match Batch::procs(alloc, bytes) {
        Err(BatchFault::Memory) => Batch::procs(alloc, bytes),
        made => made,
    }
}
