//! Standard output.
ghost use Rattle.std.specs.Prelude.{◌≡◌, false};

use crate::progress::Progress;
use std::io::{self, ErrorKind, Write};
use std::rt::Clock;

/// Standard output, and whether whoever read it has gone, as `head` does when it has enough. What was shown of the run's
/// progress is erased before anything is written.
#[derive(Drop)]
pub struct Watched<'a, R, W: Write + Drop> {
    writer: W,
    progress: Option<Progress<'a, R>>,
    is_reader_gone: bool,
}

impl<'a, R: Clock + Eprint, W: Write + Drop> Watched<'a, R, W> {
    pub fn new(writer: W, progress: Progress<'a, R>) -> Watched<'a, R, W>
        ensures { result.is_reader_gone ≡ false }
    {
        Watched {
            writer,
            progress: Some(progress),
            is_reader_gone: false,
        }
    }

    /// Erases what was shown of the progress, where nothing was written since.
    pub fn erase(&self) {
        if let Some(progress) = &self.progress {
            progress.erase();
        }
    }

    /// Erases it before the first write.
    fn begin(&mut self)
        ensures { self.new.writer ≡ self.old.writer }
    {
        self.erase();
        self.progress = None;
    }

    /// Whether a write failed since nobody reads any more.
    pub fn is_reader_gone(&self) -> bool
        ensures { result ≡ self.now.is_reader_gone }
    {
        self.is_reader_gone
    }

    fn note<T>(&mut self, done: &io::Result<T>)
        ensures { self.new.writer ≡ self.old.writer }
    {
        if let Err(error) = done {
            self.is_reader_gone = self.is_reader_gone || error.kind() == ErrorKind::BrokenPipe;
        }
    }
}

impl<R: Clock + Eprint, W: Write + Drop> Write for Watched<'_, R, W> {
    ghost contents = { λ watched. W.contents watched.writer };

    fn write(&mut self, buf: &[u8]) -> io::Result<usize> {
        self.begin();
        let done = self.writer.write(buf);
        self.note(&done);
        done
    }

    fn flush(&mut self) -> io::Result<()> {
        let done = self.writer.flush();
        self.note(&done);
        done
    }
}
