//! What is seen of one record.
ghost use Rattle.std.specs.Prelude.{◌≡◌};
ghost use Rattle.tally_check.specs.Logins.{good_login};
ghost use Rattle.tally_check.specs.Seen as Spec;

use tally_records::{LOGIN_SIZE, LoginRecord, PROC_SIZE, read_proc};

/// What is seen of a record.
#[derive(Clone, Copy)]
pub enum Seen {
    /// It is of zeros alone, as a crash leaves records that were never written.
    Zeros,
    /// Its type, or its version, is none that records have.
    Unknown,
    /// Its type of utmp(5) or its version of acct(5), and the second that it names: when it was
    /// written, or when its process began.
    Known { kind: u8, time: i64 },
}

pub(crate) fn are_zeros(bytes: &[u8]) -> bool
    ensures { result ≡ Spec.are_zeros bytes.now }
{
    bytes.iter().all(|byte| *byte == 0)
}

fn known(login: &LoginRecord) -> Seen
    ensures { result ≡ Seen.Known login.now.kind login.now.time }
{
    Seen::Known {
        kind: login.kind,
        time: i64::from(login.time),
    }
}

/// What is seen of the bytes of a login record, which say this.
pub(crate) fn seen_login(bytes: &[u8; LOGIN_SIZE], login: &Option<LoginRecord>) -> Seen
    requires { login.now ≡ good_login bytes.now }
    ensures { result ≡ Spec.seen_login bytes.now }
{
    match login {
        Some(login) => known(login),
        None if are_zeros(bytes) => Seen::Zeros,
        None => Seen::Unknown,
    }
}

/// What is seen of a process record.
pub(crate) fn seen_proc(bytes: &[u8; PROC_SIZE]) -> Seen
    ensures { result ≡ Spec.seen_proc bytes.now }
{
    if are_zeros(bytes) {
        return Seen::Zeros;
    }
    match read_proc(bytes) {
        Ok(found) => Seen::Known {
            kind: bytes[1],
            time: i64::from(found.begin),
        },
        Err(_) => Seen::Unknown,
    }
}

pub(crate) fn is_zeros(seen: &Seen) -> bool
    ensures { result ≡ Spec.is_zeros seen.now }
{
    matches!(seen, Seen::Zeros)
}

/// Whether a record's type or version is none.
pub(crate) fn is_unknown(seen: &Seen) -> bool
    ensures { result ≡ Spec.is_unknown seen.now }
{
    matches!(seen, Seen::Unknown)
}

/// Whether a record is of a type or a version.
pub(crate) fn is_of_kind(kind: u8, seen: &Seen) -> bool
    ensures { result ≡ Spec.is_of_kind kind seen.now }
{
    match seen {
        Seen::Known { kind: own, .. } => *own == kind,
        _ => false,
    }
}

/// Whether a record is of a type or a version other than 0.
pub(crate) fn is_typed(seen: &Seen) -> bool
    ensures { result ≡ Spec.is_typed seen.now }
{
    match seen {
        Seen::Known { kind, .. } => *kind > 0,
        _ => false,
    }
}
