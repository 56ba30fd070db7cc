//! How far a run is, in a line on a terminal that is gone before the report is printed.
ghost use Rattle.std.specs.Prelude.{◌≡◌, ◌+◌, ◌-◌, ◌<◌, ◌^◌, None, false, min};
ghost use Rattle.tally_terminal.specs.Progress.{followed_file, followed_path, record_size};
ghost use Rattle.tally_terminal.specs.declared.shown.ErrorsTo.TheVariants as to_where;

use crate::shown::{ErrorsTo, printed};
use std::fmt::{self, Display, Formatter};
use std::io::{self, Read};
use std::rt::Clock;
use std::time::{Duration, Instant};
use tally_records::{Kind, LOGIN_SIZE, PROC_SIZE};

/// How many milliseconds a run takes before the first line.
const SILENCE: u64 = 1_000;

/// How many milliseconds the line of a file stands before its next.
const PAUSE: u64 = 200;

/// What erases the line that a terminal is in.
const ERASE: &str = "\r\x1b[K";

/// The most bytes of a path that a line shows: its last ones.
const PATH_LIMIT: usize = 40;

/// Whether a moment is there and over. Without one the clock is not asked.
fn is_over<R: Clock>(rt: &R, due: Option<Instant>) -> bool
    ensures { due ≡ None → result ≡ false }
{
    let Some(due) = due else {
        return false;
    };
    match Instant::now(rt) {
        Ok(now) => due <= now,
        Err(_) => false,
    }
}

/// The moment so many milliseconds from now, where the clock can be read.
fn after<R: Clock>(rt: &R, pause: u64) -> Option<Instant> {
    Instant::now(rt)
        .ok()?
        .checked_add(Duration::from_millis(pause))
}

/// The terminal on which a run is followed, and when the next line is due. Without a moment nothing is shown.
#[derive(Drop)]
pub struct Progress<'a, R> {
    rt: &'a R,
    due: Option<Instant>,
}

impl<'a, R: Clock + Eprint> Progress<'a, R> {
    /// That of a run that begins now. Only on a terminal is it followed.
    pub fn new(rt: &'a R, to: ErrorsTo) -> Progress<'a, R>
        ensures { to ≡ to_where.Elsewhere → result.due ≡ None }
    {
        let due = match to {
            ErrorsTo::Terminal => after(rt, SILENCE),
            ErrorsTo::Elsewhere => None,
        };
        Progress { rt, due }
    }

    /// The same for a file of the run.
    fn of_file(&self) -> Progress<'a, R>
        ensures { result.due ≡ self.now.due }
    {
        Progress {
            rt: self.rt,
            due: self.due,
        }
    }

    /// Erases what was shown, where anything may have been.
    pub fn erase(&self) {
        if is_over(self.rt, self.due) {
            let _ = self.rt.eprint(ERASE);
        }
    }

    /// Shows a line, where it is due.
    fn show(&mut self, line: Line<'_>)
        ensures { self.old.due ≡ None → self.new.due ≡ None }
    {
        if is_over(self.rt, self.due) {
            let _ = self.rt.eprint(line);
            self.due = after(self.rt, PAUSE);
        }
    }
}

/// How much was read of a file, of records of a kind or of any.
#[derive(Clone, Copy)]
struct Line<'a> {
    path: &'a str,
    kind: Option<Kind>,
    bytes: u64,
}

/// The size of a record.
fn size_of(kind: Kind) -> u64
    ensures value { result ≡ record_size kind }
    ensures positive { 0 < result }
{
    match kind {
        Kind::Login | Kind::FailedLogin => LOGIN_SIZE as u64,
        Kind::Proc => PROC_SIZE as u64,
    }
}

impl Display for Line<'_> {
    fn fmt<W: fmt::Write>(&self, f: &mut Formatter<W>) -> fmt::Result {
        f.write_str(ERASE)?;
        let path = self.path.as_bytes();
        let left_out = path.len().saturating_sub(PATH_LIMIT);
        for byte in &path[left_out..] {
            f.write_char(printed(*byte) as char)?;
        }
        write!(f, ": {} bytes", self.bytes)?;
        let Some(kind) = self.kind else {
            return Ok(());
        };
        write!(f, ", {} records", self.bytes / size_of(kind))
    }
}

/// A file that is followed as it is read.
#[derive(Drop)]
pub struct Followed<'a, R, F: Read + Drop> {
    file: F,
    progress: Progress<'a, R>,
    line: Line<'a>,
}

impl<'a, R: Clock + Eprint, F: Read + Drop> Followed<'a, R, F> {
    /// A file of which nothing was read, of records of a kind or of any.
    pub fn new(
        file: F,
        progress: &Progress<'a, R>,
        kind: Option<Kind>,
        path: &'a str,
    ) -> Followed<'a, R, F>
        ensures file { followed_file result ≡ file }
        ensures path { followed_path result ≡ path.now }
        ensures kind { result.line.kind ≡ kind }
        ensures bytes { result.line.bytes ≡ 0 }
        ensures due { result.progress.due ≡ progress.now.due }
    {
        let bytes = 0;
        Followed {
            file,
            progress: progress.of_file(),
            line: Line { path, kind, bytes },
        }
    }

    /// Counts bytes that were read. It stays apart: the loop that counts records has reading inlined, and needs the registers.
    #[inline(never)]
    fn count(&mut self, count: usize)
        ensures file { self.new.file ≡ self.old.file }
        ensures bytes { self.new.line.bytes ≡ min (self.old.line.bytes + count) (2 ^ 64 - 1) }
        ensures due { self.old.progress.due ≡ None → self.new.progress.due ≡ None }
    {
        self.line.bytes = self.line.bytes.saturating_add(count as u64);
        self.progress.show(self.line);
    }
}

impl<R: Clock + Eprint, F: Read + Drop> Read for Followed<'_, R, F> {
    ghost remaining = { λ followed. F.remaining followed.file };

    fn read(&mut self, buf: &mut [u8]) -> io::Result<usize> {
        let count = self.file.read(buf)?;
        self.count(count);
        Ok(count)
    }
}
