//! Files that are looked at again, for a hint on a terminal.
ghost use Rattle.std.specs.Prelude.{◌≡◌, IfOk, IfSome, take};
ghost use Rattle.tally_kinds.specs.Kinds.{looks_of};

use crate::limited::read_up_to;
use crate::opened::STANDARD_INPUT;
use std::alloc::Global;
use std::fs;
use std::io::{self, ErrorKind, Read};
use std::rt::Files;
use tally_kinds::{FRONT_SIZE, Looks, looks_like};
use tally_terminal::About;

/// As much of a file as shows what it looks like.
fn front<F: Read + Drop>(alloc: Global, file: F) -> io::Result<Vec<u8>>
    ensures { IfOk result (λ bytes. IfSome (F.remaining file) (λ all. bytes.items ≡ take FRONT_SIZE all)) }
{
    read_up_to(alloc, file, FRONT_SIZE as u64)
}

/// What the file that a reader has left looks like, where its first bytes can be read.
fn look_at<F: Read + Drop>(alloc: Global, file: F, size: u64) -> Option<Looks>
    ensures { IfSome result (λ looks. IfSome (F.remaining file) (λ all. looks ≡ looks_of (take FRONT_SIZE all) size)) }
{
    match front(alloc, file) {
        Ok(front) => Some(looks_like(front.as_slice(), size)),
        Err(_) => None,
    }
}

/// The size of the file of a path. A pipe, a device and standard input are not looked at.
pub(crate) fn size_of<R: Files>(rt: &R, path: &str) -> Option<u64> {
    let found = fs::metadata(rt, path).ok()?;
    if !found.is_file() || path == STANDARD_INPUT {
        return None;
    }
    Some(found.len())
}

/// What the file of a path looks like.
pub(crate) fn looks_of<R: Files + AllocGlobal>(rt: &R, path: &str) -> Option<Looks>
where
    R::File: Drop,
{
    let size = size_of(rt, path)?;
    let file = fs::open(rt, path).ok()?;
    look_at(rt.alloc(), file, size)
}

/// What is said of an error of a file.
fn about_error(kind: ErrorKind) -> Option<About> {
    match kind {
        ErrorKind::NotFound => Some(About::Only("is not there")),
        ErrorKind::PermissionDenied => Some(About::Only("may not be read by this user")),
        _ => None,
    }
}

/// What is said of a file that could not be opened or read, as the system answers when it is asked
/// again. A pipe and a device are not opened again, which could wait.
pub(crate) fn about_unread<R: Files>(rt: &R, path: &str) -> Option<About>
where
    R::File: Drop,
{
    let found = match fs::metadata(rt, path) {
        Ok(found) => found,
        Err(error) => return about_error(error.kind()),
    };
    if found.is_dir() {
        return Some(About::Only("is a folder"));
    }
    if !found.is_file() {
        return None;
    }
    match fs::open(rt, path) {
        Ok(_) => None,
        Err(error) => about_error(error.kind()),
    }
}
