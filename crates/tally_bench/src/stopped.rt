//! Why the program stopped.
use std::alloc::AllocError;
use std::io;
use tally_book::{AskFault, PostFault};
use tally_cli::{RunFault, UsageFault};
use tally_clock::RuleFault;
use tally_desk::OpenFault;
use tally_print::PrintFault;
use tally_records::BatchFault;
use thiserror::Error;

#[derive(Debug, Drop, Error)]
pub(crate) enum Stopped {
    #[error("out of memory")]
    Memory,
    #[error("write failed")]
    Write,
    #[error("no such workload: WORKLOAD SEED [THOUSANDTHS]")]
    Words,
    #[error("a call was refused: {0}")]
    Refused(&'static str),
}

impl From<AllocError> for Stopped {
    fn from(_error: AllocError) -> Stopped {
        Stopped::Memory
    }
}

impl From<io::Error> for Stopped {
    fn from(_error: io::Error) -> Stopped {
        Stopped::Write
    }
}

impl From<RunFault> for Stopped {
    fn from(_fault: RunFault) -> Stopped {
        Stopped::Refused("run")
    }
}

impl From<UsageFault> for Stopped {
    fn from(_fault: UsageFault) -> Stopped {
        Stopped::Refused("count")
    }
}

impl From<RuleFault> for Stopped {
    fn from(_fault: RuleFault) -> Stopped {
        Stopped::Refused("rule")
    }
}

impl From<BatchFault> for Stopped {
    fn from(_fault: BatchFault) -> Stopped {
        Stopped::Refused("batch")
    }
}

impl From<PostFault> for Stopped {
    fn from(_fault: PostFault) -> Stopped {
        Stopped::Refused("post")
    }
}

impl From<AskFault> for Stopped {
    fn from(_fault: AskFault) -> Stopped {
        Stopped::Refused("report")
    }
}

impl From<OpenFault> for Stopped {
    fn from(_fault: OpenFault) -> Stopped {
        Stopped::Refused("open")
    }
}

impl From<PrintFault> for Stopped {
    fn from(_fault: PrintFault) -> Stopped {
        Stopped::Refused("print")
    }
}
