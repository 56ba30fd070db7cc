//! The names of users, as a file of passwd(5) has them.
ghost use Rattle.std.specs.Prelude.{◌≡◌, ◌<◌, ◌≤◌, IfErr, IfOk, IfSome, length};
ghost use Rattle.tally.specs.Users.{HasNamesOf, users_front};
ghost use Rattle.tally.specs.declared.users.UsersFault.TheVariants as users_fault;

use crate::limited::read_up_to;
use crate::opened::open;
use std::alloc::Global;
use std::io::{self, ErrorKind, Read};
use std::rt::Files;
use tally_records::Memory;
use tally_usage::UserNames;

/// The most bytes of a file of users.
pub(crate) const USERS_LIMIT: usize = 16_777_216;

/// Why a file gives no names.
#[derive(Clone, Copy)]
pub(crate) enum UsersFault {
    Memory,
    /// It could not be opened.
    NotOpened,
    /// It could not be read to its end, or has more than 16,777,216 bytes.
    NoUsers,
}

impl From<Memory> for UsersFault {
    ghost from_gives = { λ _ fault. fault ≡ users_fault.Memory };

    fn from(_error: Memory) -> UsersFault {
        UsersFault::Memory
    }
}

/// The names that the file of this path has.
pub(crate) fn names_of<R: Files + Input + AllocGlobal>(
    rt: &R,
    path: &str,
) -> Result<UserNames, UsersFault>
where
    R::File: Drop,
{
    match open(rt, path) {
        Some(file) => names_read(rt.alloc(), file),
        None => Err(UsersFault::NotOpened),
    }
}

/// The names of the file that a reader has left.
fn names_read<F: Read + Drop>(alloc: Global, file: F) -> Result<UserNames, UsersFault>
    ensures { IfOk result (λ names. IfSome (F.remaining file) (λ bytes. HasNamesOf bytes names)) }
{
    match front(alloc, file) {
        Ok(bytes) => names_in(alloc, bytes.as_slice()),
        Err(error) if error.kind() == ErrorKind::OutOfMemory => Err(UsersFault::Memory),
        Err(_) => Err(UsersFault::NoUsers),
    }
}

/// As much of a file as shows whether it is too large.
fn front<F: Read + Drop>(alloc: Global, file: F) -> io::Result<Vec<u8>>
    ensures { IfOk result (λ bytes. IfSome (F.remaining file) (λ all. bytes.items ≡ users_front all)) }
{
    read_up_to(alloc, file, USERS_LIMIT as u64 + 1)
}

/// The names that the bytes of a file give, where they are not too many.
fn names_in(alloc: Global, bytes: &[u8]) -> Result<UserNames, UsersFault>
    ensures value { IfOk result (HasNamesOf bytes.now) }
    ensures large { USERS_LIMIT < length bytes.now → result ≡ Err UsersFault.NoUsers }
    ensures small { length bytes.now ≤ USERS_LIMIT → IfErr result (λ found. found ≡ UsersFault.Memory) }
{
    if bytes.len() > USERS_LIMIT {
        return Err(UsersFault::NoUsers);
    }
    Ok(UserNames::of_passwd(alloc, bytes)?)
}
