ghost use Rattle.std.specs.Prelude.{◌≡◌, IfOk, Ok};

use std::alloc::AllocError;
use std::io;
use tally_book::{AskFault, PostFault};
use tally_clock::RuleFault;
use tally_desk::{FeedFault, OpenFault};
use tally_line::LineFault;
use tally_records::{BatchFault, Memory};

/// Why a script stopped.
#[derive(Drop)]
pub enum Stopped {
    /// Memory was refused twice.
    Memory,
    Write,
    /// A refused call did not leave this as it was.
    Changed(&'static str),
    /// A call answered something else than the script wants.
    Refused(&'static str),
}

impl Stopped {
    /// The text of it, in two parts.
    pub fn text(&self) -> (&'static str, &'static str) {
        match self {
            Stopped::Memory => ("out of memory twice", ""),
            Stopped::Write => ("write failed", ""),
            Stopped::Changed(what) => ("a refused call changed ", *what),
            Stopped::Refused(what) => ("a call was refused: ", *what),
        }
    }
}

impl From<AllocError> for Stopped {
    fn from(_error: AllocError) -> Stopped {
        Stopped::Memory
    }
}

impl From<Memory> for Stopped {
    fn from(_error: Memory) -> Stopped {
        Stopped::Memory
    }
}

impl From<io::Error> for Stopped {
    fn from(_error: io::Error) -> Stopped {
        Stopped::Write
    }
}

impl From<BatchFault> for Stopped {
    fn from(fault: BatchFault) -> Stopped {
        match fault {
            BatchFault::Memory => Stopped::Memory,
            _ => Stopped::Refused("batch"),
        }
    }
}

impl From<PostFault> for Stopped {
    fn from(fault: PostFault) -> Stopped {
        match fault {
            PostFault::Memory => Stopped::Memory,
            _ => Stopped::Refused("post"),
        }
    }
}

impl From<AskFault> for Stopped {
    fn from(fault: AskFault) -> Stopped {
        match fault {
            AskFault::Memory => Stopped::Memory,
            _ => Stopped::Refused("report"),
        }
    }
}

impl From<OpenFault> for Stopped {
    fn from(fault: OpenFault) -> Stopped {
        match fault {
            OpenFault::Memory => Stopped::Memory,
            OpenFault::Callers(_) => Stopped::Refused("open"),
        }
    }
}

impl From<FeedFault> for Stopped {
    fn from(fault: FeedFault) -> Stopped {
        match fault {
            FeedFault::Memory => Stopped::Memory,
            _ => Stopped::Refused("feed"),
        }
    }
}

impl From<RuleFault> for Stopped {
    fn from(fault: RuleFault) -> Stopped {
        match fault {
            RuleFault::Memory => Stopped::Memory,
            _ => Stopped::Refused("rule"),
        }
    }
}

impl From<LineFault> for Stopped {
    fn from(fault: LineFault) -> Stopped {
        match fault {
            LineFault::Memory => Stopped::Memory,
            _ => Stopped::Refused("word"),
        }
    }
}

/// What a call answered, with its fault as a reason to stop.
pub(crate) fn stop<T, E: Into<Stopped>>(answered: Result<T, E>) -> Result<T, Stopped>
    ensures { IfOk result (λ value. answered ≡ Ok value) }
{
    match answered {
        Ok(value) => Ok(value),
        Err(fault) => Err(fault.into()),
    }
}

/// Sees that a refused call left this as it was.
pub(crate) fn see(is_same: bool, what: &'static str) -> Result<(), Stopped> {
    if is_same {
        Ok(())
    } else {
        Err(Stopped::Changed(what))
    }
}

/// The value, where what was done with it went well.
pub fn after<T: Drop, E: Drop>(done: Result<(), E>, value: T) -> Result<T, E>
    ensures { IfOk result (λ same. same ≡ value) }
{
    done?;
    Ok(value)
}

/// Both, where neither call failed.
pub(crate) fn both<A: Drop, B: Drop, E: Drop>(
    first: Result<A, E>,
    second: Result<B, E>,
) -> Result<(A, B), E> {
    Ok((first?, second?))
}
