//! Which process records a report is over: those of some users that began in a part of time.
ghost use Rattle.std.specs.Prelude.{◌≡◌};
ghost use Rattle.std.specs.List.{list_any};
ghost use Rattle.tally_records.specs.Choice.{names_nothing};
ghost use Rattle.tally_usage.specs.Choice.{every_proc, is_chosen, is_every_proc, is_number, is_number_among};

use tally_records::{NAMED_LIMIT, Period, ProcRecord};

/// The numbers of users: each of them is chosen. Where there is none, all are.
pub type Uids = [Option<u32>; NAMED_LIMIT];

/// The process records that a report is over: those of some users that began in a part of time.
#[derive(Clone, Copy, Debug, PartialEq, Eq)]
pub struct ProcChoice {
    pub uids: Uids,
    pub period: Period,
}

fn numbers_nothing(uids: &Uids) -> bool
    ensures { result ≡ names_nothing uids.now }
{
    uids.iter().all(|uid| uid.is_none())
}

fn is_number(wanted: u32, place: &Option<u32>) -> bool
    ensures { result ≡ is_number wanted place.now }
{
    match place {
        Some(uid) => *uid == wanted,
        None => false,
    }
}

fn has_number(uids: &Uids, wanted: u32) -> bool
    ensures { result ≡ list_any (is_number wanted) uids.now }
{
    uids.iter().any(|place| is_number(wanted, place))
}

/// Whether numbers choose a user.
fn is_number_among(uids: &Uids, wanted: u32) -> bool
    ensures { result ≡ is_number_among uids.now wanted }
{
    numbers_nothing(uids) || has_number(uids, wanted)
}

impl ProcChoice {
    /// All process records.
    pub fn every() -> ProcChoice
        ensures { result ≡ every_proc }
    {
        ProcChoice {
            uids: [None; NAMED_LIMIT],
            period: Period::always(),
        }
    }

    /// Whether all are chosen, as the choice says it.
    pub fn is_every(&self) -> bool
        ensures { result ≡ is_every_proc self.now }
    {
        numbers_nothing(&self.uids) && self.period.is_always()
    }

    /// Whether a record is chosen, by its user and by when the process began.
    pub fn has(&self, process: &ProcRecord) -> bool
        ensures { result ≡ is_chosen self.now process.now }
    {
        is_number_among(&self.uids, process.uid) && self.period.has(i64::from(process.begin))
    }
}
