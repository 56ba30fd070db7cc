//! Files of the system, opened by their paths.
ghost use Rattle.std.specs.Prelude.{⊤};
ghost use Rattle.tally.specs.Bytes.{bytes_left};
ghost use Rattle.tally.specs.Faults.{NamesPath};

use crate::opening::{OpenFault, Opens};
use std::fs;
use std::io::{self, Cursor, Read};
use std::os::fd::AsRawFd;
use std::rt::Files;
use tally_records::Kind;
use tally_wtmpdb::logins_in;

/// The path of the program's own standard input.
pub(crate) const STANDARD_INPUT: &str = "/dev/stdin";

/// A folder that each system has, and that has no bytes to read.
pub(crate) const ROOT: &str = "/";

/// The descriptors of standard input, output and error.
const STANDARD: [i32; 3] = [0, 1, 2];

/// What stands in the place of closed standard streams, as many as are closed.
#[derive(Drop)]
pub(crate) struct Held<F: Drop> {
    _first: Option<F>,
    _second: Option<F>,
    _third: Option<F>,
}

/// A folder in the place of the first standard stream that is closed.
fn hold_closed_stream<R: Files>(rt: &R) -> io::Result<Option<R::File>>
where
    R::File: AsRawFd + Drop,
{
    let folder = fs::open(rt, ROOT)?;
    if STANDARD.contains(&folder.as_raw_fd()) {
        Ok(Some(folder))
    } else {
        Ok(None)
    }
}

/// Holds a folder in the place of each standard stream that is closed. The system gives a file the
/// least free descriptor, so that without it a file of the command line would be read again as
/// `/dev/stdin`. A folder gives no byte and takes none: who reads or writes a closed stream fails.
pub(crate) fn hold_closed_streams<R: Files>(rt: &R) -> io::Result<Held<R::File>>
where
    R::File: AsRawFd + Drop,
{
    let _first = hold_closed_stream(rt)?;
    let _second = hold_closed_stream(rt)?;
    let _third = hold_closed_stream(rt)?;
    Ok(Held {
        _first,
        _second,
        _third,
    })
}

/// What a file of the command line is read from: the file, standard input, or the login records of a database.
#[derive(Drop)]
pub(crate) enum Opened<F: Read + Drop, S: Read + Drop> {
    File(F),
    Standard(S),
    Made(Cursor<Vec<u8>>),
}

impl<F: Read + Drop, S: Read + Drop> Read for Opened<F, S> {
    ghost remaining = { bytes_left F.remaining S.remaining };

    fn read(&mut self, buf: &mut [u8]) -> io::Result<usize> {
        match self {
            Opened::File(file) => file.read(buf),
            Opened::Standard(input) => input.read(buf),
            Opened::Made(records) => records.read(buf),
        }
    }
}

/// Opens a file. Where `/dev/stdin` is refused, as it is for a pipe that another user made,
/// standard input is read as the runtime has it.
pub(crate) fn open<R: Files + Input>(rt: &R, path: &str) -> Option<Opened<R::File, R::Reader>>
where
    R::File: Drop,
{
    match fs::open(rt, path) {
        Ok(file) => Some(Opened::File(file)),
        Err(_) if path == STANDARD_INPUT => Some(Opened::Standard(rt.reader())),
        Err(_) => None,
    }
}

/// The files of the system, and standard input. A database gives its login records, and is refused where it has more than `most`.
#[derive(Clone, Copy)]
pub(crate) struct Opener<'r, R> {
    pub(crate) rt: &'r R,
    pub(crate) most: usize,
}

impl<R: Files + Input + AllocGlobal> Opens for Opener<'_, R>
where
    R::File: Drop,
    R::Reader: Drop,
{
    type File = Opened<R::File, R::Reader>;

    // The system tells no bytes of a file.
    ghost opens = { λ _ _ _ _. ⊤ };

    ghost refuses = { λ _ _ path fault. NamesPath path fault };

    fn open_as<'a>(&self, kind: Kind, path: &'a str) -> Result<Self::File, OpenFault<'a>> {
        if kind == Kind::Login {
            match logins_in(self.rt, self.rt.alloc(), path, self.most) {
                Ok(Some(records)) => return Ok(Opened::Made(Cursor::new(records))),
                Ok(None) => {}
                Err(found) => return Err(OpenFault::Database(path, found)),
            }
        }
        match open(self.rt, path) {
            Some(opened) => Ok(opened),
            None => Err(OpenFault::NotOpened(path)),
        }
    }
}
