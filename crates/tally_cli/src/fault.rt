//! Why a run ends early.
ghost use Rattle.std.specs.Prelude.{◌≡◌};
ghost use Rattle.tally_cli.specs.Runs.{fault_from};
ghost use Rattle.tally_cli.specs.Usages.{usage_fault_from};
ghost use Rattle.tally_cli.specs.declared.fault.RunFault.TheVariants as fault;
ghost use Rattle.tally_cli.specs.declared.fault.UsageFault.TheVariants as usage_fault;

use std::alloc::AllocError;
use tally_book::AskFault;
use tally_desk::{CountFault, FeedFault};
use tally_print::PrintFault;
use tally_records::Memory;
use thiserror::Error;

/// Why a run gave no whole output.
#[derive(Debug, PartialEq, Eq, Drop, Error)]
pub enum RunFault {
    /// Memory ran out.
    #[error("out of memory")]
    Memory,
    /// There are no sources and askers, or more than 128.
    #[error("{0} callers, 1 to 128 are allowed")]
    Callers(u32),
    /// The source of this number, counted from 0, was not read to its end.
    #[error("file {host}: {fault}")]
    File { host: u32, fault: FeedFault },
    /// A report of the asker with this number was refused.
    #[error("{fault}")]
    Asker { caller: u32, fault: AskFault },
    /// The output failed.
    #[error("write failed")]
    Write,
}

impl From<AllocError> for RunFault {
    ghost from_gives = { λ _ f. f ≡ fault.Memory };

    fn from(_error: AllocError) -> RunFault {
        RunFault::Memory
    }
}

impl From<Memory> for RunFault {
    ghost from_gives = { λ _ f. f ≡ fault.Memory };

    fn from(_error: Memory) -> RunFault {
        RunFault::Memory
    }
}

impl From<PrintFault> for RunFault {
    ghost from_gives = { λ e f. f ≡ fault_from e };

    fn from(error: PrintFault) -> RunFault {
        match error {
            PrintFault::Memory => RunFault::Memory,
            PrintFault::Write => RunFault::Write,
        }
    }
}

/// Why a run that counts process records gave no whole output.
#[derive(Debug, PartialEq, Eq, Drop, Error)]
pub enum UsageFault {
    /// Memory ran out, but for the count of a file.
    #[error("out of memory")]
    Memory,
    /// There are no sources and askers, or more than 128.
    #[error("{0} callers, 1 to 128 are allowed")]
    Callers(u32),
    /// The source of this number, counted from 0, was not counted to its end.
    #[error("file {host}: {fault}")]
    File { host: u32, fault: CountFault },
    /// The chosen records of the source of this number, counted from 0, and of those before it are more than 268,435,456.
    #[error("more than 268435456 records with those before")]
    Full { host: u32 },
    /// The output failed.
    #[error("write failed")]
    Write,
}

impl From<AllocError> for UsageFault {
    ghost from_gives = { λ _ f. f ≡ usage_fault.Memory };

    fn from(_error: AllocError) -> UsageFault {
        UsageFault::Memory
    }
}

impl From<Memory> for UsageFault {
    ghost from_gives = { λ _ f. f ≡ usage_fault.Memory };

    fn from(_error: Memory) -> UsageFault {
        UsageFault::Memory
    }
}

impl From<PrintFault> for UsageFault {
    ghost from_gives = { λ e f. f ≡ usage_fault_from e };

    fn from(error: PrintFault) -> UsageFault {
        match error {
            PrintFault::Memory => UsageFault::Memory,
            PrintFault::Write => UsageFault::Write,
        }
    }
}
