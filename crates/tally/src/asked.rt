//! What a command line asks to report: its clock, its moments and its names of users, worked out.
ghost use Rattle.std.specs.Prelude.{◌≡◌, IfErr, IfOk, IfSome, IsSome, None, Ok, Err, string_bytes};
ghost use Rattle.std.specs.Process.{exit_status};
ghost use Rattle.tally.specs.Statuses.{IsRefusal};
ghost use Rattle.tally.specs.Zones.{IsOfZoneText};
ghost use Rattle.tally_clock.specs.Rows.{utc};
ghost use Rattle.tally_clock.specs.Words.{zone_word};
ghost use Rattle.tally_clock.specs.declared.word.ZoneWord.TheVariants.{Text};
ghost use Rattle.tally_line.specs.Jobs.{IsRunnable, TakesUntil};
ghost use Rattle.tally_line.specs.Settled.{Settles, SettlesChoice};
ghost use Rattle.tally_line.specs.declared.settling.TimesFault.{TimesFault};
ghost use Rattle.tally_moments.specs.Seconds.{local};

use crate::faults::{FAULT, fault, file_fault, times_fault, zone_fault};
use crate::hints::hinted_not_opened;
use crate::users::{UsersFault, names_of};
use std::process::ExitCode;
use std::rt::Files;
use tally_cli::{FileArg, FilesApart, FilesAsked, Job};
use tally_clock::Clock;
use tally_line::{Times, TimesFault, UsageAsked, settle, settle_choice};
use tally_records::Memory;
use tally_terminal::{ErrorsTo, Shown};
use tally_usage::{ProcChoice, UserNames};
use tally_zones::clock_of;

/// What a command line asks to report, and the second at which its words were read.
#[derive(Clone, Copy)]
pub(crate) struct Asked<'a> {
    pub(crate) job: &'a Job,
    pub(crate) times: &'a Times,
    pub(crate) usage: &'a UsageAsked,
    pub(crate) apart: FilesAsked,
    pub(crate) now: i64,
    pub(crate) zone: Option<&'a String>,
    pub(crate) files: &'a [FileArg],
}

/// The clock of the zone that the command line names, and UTC where it names none. It stays apart, so that a run needs no stack
/// for it.
#[inline(never)]
pub(crate) fn clock_for<R>(rt: &R, to: ErrorsTo, zone: Option<&String>) -> Result<Clock, ExitCode>
where
    R: Files + Eprint + AllocGlobal,
    R::File: Drop,
    ensures utc { zone.entry ≡ None → result ≡ Ok utc }
    ensures text { IfSome zone.entry (λ word. zone_word (string_bytes word.now) ≡ Text → IsOfZoneText (string_bytes word.now) result) }
    ensures status { IfErr result IsRefusal }
{
    let Some(word) = zone else {
        return Ok(Clock::utc(rt.alloc()));
    };
    match clock_of(rt, word.as_str()) {
        Ok(clock) => Ok(clock),
        Err(found) => Err(zone_fault(rt, to, word.as_str(), found)),
    }
}

/// The job with the seconds of the command line's moments, or what is wrong with them.
fn settled(asked: Asked<'_>, clock: &Clock) -> Result<Job, TimesFault>
    requires runnable { IsRunnable asked.job.now }
    requires until { TakesUntil asked.job.now.report asked.times.now.until }
    ensures value { Settles (local clock.now asked.entry.job.now.offset) asked.entry.now asked.entry.times.now asked.entry.job.now result }
    ensures runnable { IfOk result IsRunnable }
{
    settle(asked.job, asked.times, clock, asked.now)
}

/// The job of the command line with the seconds of its moments.
pub(crate) fn job_for<R: Eprint>(rt: &R, asked: Asked<'_>, clock: &Clock) -> Result<Job, ExitCode>
    requires runnable { IsRunnable asked.job.now }
    requires until { TakesUntil asked.job.now.report asked.times.now.until }
    ensures settled { IfOk result (λ job. Settles (local clock.now asked.entry.job.now.offset) asked.entry.now asked.entry.times.now asked.entry.job.now (Ok job)) }
    ensures runnable { IfOk result IsRunnable }
    ensures status { IfErr result (λ status. exit_status status ≡ 2) }
    ensures refused { IfErr result (λ _. (found : TimesFault) × Settles (local clock.now asked.entry.job.now.offset) asked.entry.now asked.entry.times.now asked.entry.job.now (Err found)) }
{
    match settled(asked, clock) {
        Ok(job) => Ok(job),
        Err(found) => Err(times_fault(rt, found)),
    }
}

/// Prints why a file gives no names of users.
fn users_fault<R: Files + Eprint>(rt: &R, to: ErrorsTo, path: &str, found: UsersFault) -> ExitCode
where
    R::File: Drop,
    ensures { exit_status result ≡ 1 }
{
    match found {
        UsersFault::Memory => fault(rt, FAULT, Memory),
        UsersFault::NotOpened => hinted_not_opened(rt, to, path),
        UsersFault::NoUsers => file_fault(rt, FAULT, Shown::new(path, to), "no file of users"),
    }
}

/// The names of users that the file of the command line gives, where it names one. It stays apart, as `clock_for` does.
#[inline(never)]
pub(crate) fn names_for<R>(
    rt: &R,
    to: ErrorsTo,
    path: Option<&String>,
) -> Result<Option<UserNames>, ExitCode>
where
    R: Files + Input + Eprint + AllocGlobal,
    R::File: Drop,
    R::Reader: Drop,
    ensures none { path.entry ≡ None → result ≡ Ok None }
    ensures some { IfSome path.entry (λ _. IfOk result IsSome) }
    ensures status { IfErr result (λ status. exit_status status ≡ 1) }
{
    let Some(path) = path else {
        return Ok(None);
    };
    match names_of(rt, path.as_str()) {
        Ok(names) => Ok(Some(names)),
        Err(found) => Err(users_fault(rt, to, path.as_str(), found)),
    }
}

/// The files of the command line, told apart as it asks.
pub(crate) fn files_apart<'a>(asked: Asked<'a>) -> FilesApart<'a>
    ensures { result ≡ record { files = asked.entry.files; asked = asked.entry.apart } }
{
    FilesApart {
        files: asked.files,
        asked: asked.apart,
    }
}

/// The users and the period that the command line chooses processes by, or what is wrong with its moments.
fn settled_choice(asked: Asked<'_>, clock: &Clock) -> Result<ProcChoice, TimesFault>
    ensures { SettlesChoice (local clock.now asked.entry.job.now.offset) asked.entry.now asked.entry.times.now asked.entry.usage.now.uids result }
{
    let uids = asked.usage.uids;
    let minutes = asked.job.offset;
    settle_choice(uids, asked.times, clock, minutes, asked.now)
}

/// The processes that the command line chooses.
pub(crate) fn choice_for<R: Eprint>(
    rt: &R,
    asked: Asked<'_>,
    clock: &Clock,
) -> Result<ProcChoice, ExitCode>
    ensures settled { IfOk result (λ choice. SettlesChoice (local clock.now asked.entry.job.now.offset) asked.entry.now asked.entry.times.now asked.entry.usage.now.uids (Ok choice)) }
    ensures status { IfErr result (λ status. exit_status status ≡ 2) }
    ensures refused { IfErr result (λ _. (found : TimesFault) × SettlesChoice (local clock.now asked.entry.job.now.offset) asked.entry.now asked.entry.times.now asked.entry.usage.now.uids (Err found)) }
{
    match settled_choice(asked, clock) {
        Ok(choice) => Ok(choice),
        Err(found) => Err(times_fault(rt, found)),
    }
}
