//! How many records a run takes, and which option takes more.
ghost use Rattle.std.specs.Prelude.{◌≡◌, ◌<◌, ◌≤◌, ◌*◌, ◌/◌, IfSome};
ghost use Rattle.tally_line.specs.Jobs.{IsRunnable};
ghost use Rattle.tally_terminal.specs.Progress.{record_size};

use crate::looking::size_of;
use std::fmt::{self, Display, Formatter};
use std::rt::Files;
use tally_cli::{FileArg, Job};
use tally_records::{Kind, LOGIN_SIZE, PROC_SIZE};

/// How many records a million of a room is.
const MILLION: usize = 1_048_576;

/// The most millions that a run takes.
const MOST_MILLIONS: u64 = 16;

/// The most login records that a run of a job takes.
pub(crate) fn records_of(job: &Job) -> usize
    requires { IsRunnable job.now }
    ensures { result ≡ 1048576 * job.now.millions }
{
    MILLION * job.millions as usize
}

/// The option by which a run takes more records.
#[derive(Clone, Copy)]
pub(crate) struct Wider {
    millions: u64,
    /// Whether the files are known to have no more.
    is_enough: bool,
}

impl Display for Wider {
    fn fmt<W: fmt::Write>(&self, f: &mut Formatter<W>) -> fmt::Result {
        let millions = self.millions;
        let takes = if self.is_enough { "as many" } else { "more" };
        write!(f, "--millions {millions} takes {takes}")
    }
}

/// How many records of a kind so many bytes have.
fn records_in(kind: Kind, size: u64) -> u64
    ensures { result ≡ size / record_size kind }
{
    match kind {
        Kind::Login | Kind::FailedLogin => size / LOGIN_SIZE as u64,
        Kind::Proc => size / PROC_SIZE as u64,
    }
}

/// How many millions the files of a kind have together, where their sizes tell it.
fn millions_in<R: Files>(rt: &R, kind: Kind, files: &[FileArg]) -> Option<u64> {
    let mut records = 0u64;
    for file in files {
        if file.kind == kind {
            let size = size_of(rt, file.path.as_str())?;
            records = records.saturating_add(records_in(kind, size));
        }
    }
    Some(records.div_ceil(MILLION as u64))
}

/// The option by which the records of files of a kind have room that had none among so many millions, where there is one.
pub(crate) fn wider_room<R: Files>(
    rt: &R,
    millions: u32,
    kind: Kind,
    files: &[FileArg],
) -> Option<Wider>
    ensures more { 0 < millions → IfSome result (λ wider. millions < wider.millions) }
    ensures most { IfSome result (λ wider. wider.millions ≤ 16) }
{
    let now = u64::from(millions);
    if now >= MOST_MILLIONS {
        return None;
    }
    let wider = match millions_in(rt, kind, files) {
        Some(found) if found > now => Wider {
            millions: found,
            is_enough: true,
        },
        _ => Wider {
            millions: (now * 2).min(MOST_MILLIONS),
            is_enough: false,
        },
    };
    if wider.millions > MOST_MILLIONS {
        return None;
    }
    Some(wider)
}
