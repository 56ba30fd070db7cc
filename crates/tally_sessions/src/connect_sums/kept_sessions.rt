//! The sessions of a count that keeps them, to go over.
ghost use Rattle.std.specs.Prelude.{◌≡◌};
ghost use Rattle.tally_sessions.specs.declared.sessions.TheConstants.{ENTRY_LIMIT};
ghost use Rattle.tally_sessions.specs.inside.Ended.{HaveUsers};
ghost use Rattle.tally_sessions.specs.inside.Running.{AreNear};
ghost use Rattle.tally_sessions.specs.inside.Track.{IsWithin};

use crate::connect_sums::running::Running;
use crate::sessions::ENTRY_LIMIT;

/// A place among the sessions of a count: those that have ended, and then those that are open, up to a time.
#[derive(Drop)]
pub(crate) struct KeptSessions<'a> {
    pub(crate) running: &'a Running,
    pub(crate) time: i32,
    /// How many of those that have ended are passed, and how many lines.
    pub(crate) ended: usize,
    pub(crate) slot: usize,
    pub(crate) ghost users: { HaveUsers running.now.ended },
    pub(crate) ghost now: { IsWithin ENTRY_LIMIT running.now.clock },
    pub(crate) ghost near: { AreNear running.now.slots.items },
}

impl<'a> KeptSessions<'a> {
    /// The sessions of a count, of which none is passed.
    pub(crate) fn of(running: &'a Running, time: i32) -> KeptSessions<'a>
        requires users { HaveUsers running.now.ended }
        requires now { IsWithin ENTRY_LIMIT running.now.clock }
        requires near { AreNear running.now.slots.items }
        ensures running { result.running.now ≡ running.now }
        ensures time { result.time ≡ time }
        ensures ended { result.ended ≡ 0 }
        ensures slot { result.slot ≡ 0 }
    {
        KeptSessions {
            running,
            time,
            ended: 0,
            slot: 0,
        }
    }
}
