//! What a file may look like, and in which order that is asked.
ghost use Rattle.std.specs.Prelude.{◌≡◌, find};
ghost use Rattle.tally_kinds.specs.Kinds as Spec;

use crate::marks::{is_bzip2, is_gzip, is_sqlite, is_xz, is_zstd};
use crate::records::{
    has_big_endian_logins, has_failed_logins, has_last_logins, has_logins, has_long_logins,
    has_procs,
};
use crate::sums::{has_command_sums, has_user_sums};
use crate::texts::is_text;

/// How many first bytes of a file, its front, tell what it looks like.
pub const FRONT_SIZE: usize = 4_096;

/// What a file looks like.
#[derive(Clone, Copy, Debug, PartialEq, Eq)]
pub enum Looks {
    /// It has no byte.
    Nothing,
    /// Packed by gzip(1).
    Gzip,
    /// Packed by xz(1).
    Xz,
    /// Packed by zstd(1).
    Zstd,
    /// Packed by bzip2(1).
    Bzip2,
    /// An SQLite database.
    Sqlite,
    /// Login records, utmp(5), of no type but 0, 6 and 7, as btmp has them.
    FailedLogins,
    /// Login records, utmp(5), 384 bytes each.
    Logins,
    /// Login records of 400 bytes, as 64-bit ARM, s390x and other machines write them.
    Logins400,
    /// Login records of 384 bytes of a big-endian machine.
    BigEndianLogins,
    /// Process records, acct(5), versions 2 and 3.
    Processes,
    /// The same of a big-endian machine.
    BigEndianProcesses,
    /// The last login of each user, lastlog(8), 292 bytes each.
    Lastlog,
    /// Sums by command of sa(8), as GNU acct keeps them in savacct, 96 bytes each.
    Savacct,
    /// Sums by user of sa(8), as GNU acct keeps them in usracct, 104 bytes each.
    Usracct,
    /// Text.
    Text,
    /// None of these.
    Unknown,
}

/// The kinds in the order in which they are asked.
const KINDS: [Looks; 16] = [
    Looks::Nothing,
    Looks::Gzip,
    Looks::Xz,
    Looks::Zstd,
    Looks::Bzip2,
    Looks::Sqlite,
    Looks::FailedLogins,
    Looks::Logins,
    Looks::Logins400,
    Looks::BigEndianLogins,
    Looks::Processes,
    Looks::BigEndianProcesses,
    Looks::Lastlog,
    Looks::Savacct,
    Looks::Usracct,
    Looks::Text,
];

/// Whether a file with this front and of this size is of a kind.
fn is_of(kind: Looks, front: &[u8], size: u64) -> bool
    ensures { result ≡ Spec.is_of kind front.now size }
{
    match kind {
        Looks::Nothing => front.is_empty(),
        Looks::Gzip => is_gzip(front),
        Looks::Xz => is_xz(front),
        Looks::Zstd => is_zstd(front),
        Looks::Bzip2 => is_bzip2(front),
        Looks::Sqlite => is_sqlite(front),
        Looks::FailedLogins => has_failed_logins(front, size),
        Looks::Logins => has_logins(front, size),
        Looks::Logins400 => has_long_logins(front, size),
        Looks::BigEndianLogins => has_big_endian_logins(front, size),
        Looks::Processes => has_procs(2, 3, front, size),
        Looks::BigEndianProcesses => has_procs(0x82, 0x83, front, size),
        Looks::Lastlog => has_last_logins(front, size),
        Looks::Savacct => has_command_sums(front, size),
        Looks::Usracct => has_user_sums(front, size),
        Looks::Text => is_text(front),
        Looks::Unknown => true,
    }
}

/// The first of some kinds that a file is of.
fn first_of(kinds: &[Looks], front: &[u8], size: u64) -> Option<Looks>
    ensures { result ≡ find (λ kind. Spec.is_of kind front.now size) kinds.now }
{
    kinds.iter().copied().find(|kind| is_of(*kind, front, size))
}

/// What a file looks like: `front` has its first `FRONT_SIZE` bytes, or all where it has fewer, and
/// `size` is its size in bytes.
pub fn looks_like(front: &[u8], size: u64) -> Looks
    ensures { result ≡ Spec.looks_of front.now size }
{
    first_of(&KINDS, front, size).unwrap_or(Looks::Unknown)
}
