//! The clock of a rule of POSIX.
ghost use Rattle.std.specs.Prelude.{◌≡◌, ◌↔◌, IfErr, IfOk, None};
ghost use Rattle.jiff_tz.specs.PosixReader.{read_whole};
ghost use Rattle.tally_clock.specs.Zones.{ChangesOften};
ghost use Rattle.tally_clock.specs.Rules.{IsClockOfRule, RefusesRule, ShowsRule, of_clock_fault, rule_offset};

use crate::clock::{Clock, ROW_LIMIT};
use crate::zone::ClockFault;
use jiff_tz::{TimeZone, posix};
use std::alloc::Global;

/// Why a text gives no clock.
#[derive(Clone, Copy, Debug, PartialEq, Eq)]
pub enum RuleFault {
    /// Out of memory.
    Memory,
    /// It is no rule.
    NoRule,
    /// The offset changes more than 4,096 times.
    Long,
}

impl From<ClockFault> for RuleFault {
    ghost from_gives = { λ found fault. fault ≡ of_clock_fault found };

    fn from(found: ClockFault) -> RuleFault {
        match found {
            ClockFault::Memory => RuleFault::Memory,
            ClockFault::Long => RuleFault::Long,
        }
    }
}

/// The clock of a rule that was read.
fn clock_of(alloc: Global, rule: posix::TimeZone) -> Result<Clock, ClockFault>
    ensures shows { IfOk result (ShowsRule rule) }
    ensures err { IfErr result (λ found. found ≡ ClockFault.Long → ChangesOften ROW_LIMIT (rule_offset rule)) }
{
    Clock::of_zone(alloc, &TimeZone::Posix(rule))
}

impl Clock {
    /// The clock of a rule, as `CET-1CEST,M3.5.0,M10.5.0/3`.
    pub fn of_rule(alloc: Global, text: &[u8]) -> Result<Clock, RuleFault>
        ensures value { IfOk result (IsClockOfRule text.now) }
        ensures err { IfErr result (RefusesRule text.now) }
        ensures no_rule { (result ≡ Err RuleFault.NoRule) ↔ (read_whole text.now ≡ None) }
    {
        match posix::TimeZone::parse(text) {
            Ok(rule) => Ok(clock_of(alloc, rule)?),
            Err(_) => Err(RuleFault::NoRule),
        }
    }
}
