//! Which file a hint is on, and what it is about.
ghost use Rattle.std.specs.Prelude.{◌≡◌};
ghost use Rattle.tally.specs.Hints as Spec;

use tally_cli::{RunFault, UsageFault};
use tally_desk::{CountFault, FeedFault};

/// Why a file was not read to its end, where a hint helps.
#[derive(Clone, Copy)]
pub(crate) enum Cause {
    /// It has what is no record of its kind.
    Content,
    /// A read failed.
    Reading,
    /// It has more records than the run takes, by itself or with the others.
    Room,
}

/// The file that a hint is on, by its number from 0, and why.
#[derive(Clone, Copy)]
pub(crate) struct Subject {
    pub(crate) host: u32,
    pub(crate) cause: Cause,
}

fn feed_cause(found: &FeedFault) -> Option<Cause>
    ensures { result ≡ Spec.feed_cause found.now }
{
    match found {
        FeedFault::Bad { .. } | FeedFault::Torn { .. } => Some(Cause::Content),
        FeedFault::Read => Some(Cause::Reading),
        FeedFault::TooLong { .. } | FeedFault::LoginsFull { .. } | FeedFault::ProcsFull { .. } => {
            Some(Cause::Room)
        }
        _ => None,
    }
}

fn count_cause(found: &CountFault) -> Option<Cause>
    ensures { result ≡ Spec.count_cause found.now }
{
    match found {
        CountFault::Bad { .. } | CountFault::Torn { .. } => Some(Cause::Content),
        CountFault::Read => Some(Cause::Reading),
        _ => None,
    }
}

/// The file that a run did not read to its end.
pub(crate) fn run_subject(found: &RunFault) -> Option<Subject>
    ensures { result ≡ Spec.run_subject found.now }
{
    let RunFault::File { host, fault } = found else {
        return None;
    };
    let cause = feed_cause(fault)?;
    Some(Subject { host: *host, cause })
}

/// The file that a run did not count to its end.
pub(crate) fn usage_subject(found: &UsageFault) -> Option<Subject>
    ensures { result ≡ Spec.usage_subject found.now }
{
    let UsageFault::File { host, fault } = found else {
        return None;
    };
    let cause = count_cause(fault)?;
    Some(Subject { host: *host, cause })
}
