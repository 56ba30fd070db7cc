//! The kind of a file, which may be damaged.
ghost use Rattle.std.specs.Prelude.{◌≡◌};
ghost use Rattle.tally_check.specs.Kinds as Spec;
ghost use Rattle.tally_kinds.specs.Kinds.{looks_of};

use crate::fault::CheckFault;
use tally_kinds::{Looks, looks_like};

/// What a file may be, as its front shows.
#[derive(Clone, Copy)]
pub(crate) enum Guess {
    /// Login records.
    Logins,
    /// Process records.
    Processes,
    /// Either of these, damaged, or anything.
    Damaged,
    /// Neither of these, but what it looks like.
    Other(Looks),
}

/// The kinds of files.
#[derive(Clone, Copy)]
pub(crate) enum FileKind {
    Logins,
    Processes,
    /// Neither of these, but what it looks like.
    Other(Looks),
}

/// What a file may be that begins so.
pub(crate) fn guess_of(front: &[u8]) -> Guess
    ensures { result ≡ Spec.guess_of front.now }
{
    match looks_like(front, 0) {
        Looks::FailedLogins | Looks::Logins => Guess::Logins,
        Looks::Processes => Guess::Processes,
        Looks::Unknown => Guess::Damaged,
        looks => Guess::Other(looks),
    }
}

/// The kind of a file of this size that begins as login records do.
pub(crate) fn login_kind(front: &[u8], size: u64) -> FileKind
    ensures { result ≡ Spec.login_kind (looks_of front.now size) }
{
    match looks_like(front, size) {
        Looks::Logins400 => FileKind::Other(Looks::Logins400),
        _ => FileKind::Logins,
    }
}

/// The most records of a file of login records.
const LOGIN_LIMIT: u64 = 1_048_576;

/// The most records of a file of process records.
const PROC_LIMIT: u64 = 268_435_456;

/// The most bytes of a file that may have login records.
const LOGIN_BYTES: u64 = 402_653_184;

/// The most bytes of a file of process records.
const PROC_BYTES: u64 = 17_179_869_184;

/// The most bytes of another file, more than any has.
const OTHER_BYTES: u64 = 1 << 62;

impl Guess {
    /// Whether a file may have login records.
    pub fn has_logins(self) -> bool
        ensures { result ≡ Spec.has_logins self }
    {
        matches!(self, Guess::Logins | Guess::Damaged)
    }

    /// Whether a file may have process records.
    pub fn has_procs(self) -> bool
        ensures { result ≡ Spec.has_procs self }
    {
        matches!(self, Guess::Processes | Guess::Damaged)
    }

    /// The most bytes that a file may have.
    pub fn most_bytes(self) -> u64
        ensures { result ≡ Spec.most_bytes self }
    {
        match self {
            Guess::Logins | Guess::Damaged => LOGIN_BYTES,
            Guess::Processes => PROC_BYTES,
            Guess::Other(_) => OTHER_BYTES,
        }
    }

    /// The fault of a file that has more.
    pub fn too_many(self) -> CheckFault
        ensures { result ≡ Spec.too_many self }
    {
        match self {
            Guess::Logins => CheckFault::TooManyRecords(LOGIN_LIMIT),
            Guess::Processes => CheckFault::TooManyRecords(PROC_LIMIT),
            Guess::Damaged => CheckFault::TooManyBytes(LOGIN_BYTES),
            Guess::Other(_) => CheckFault::TooManyBytes(OTHER_BYTES),
        }
    }
}
