//! The latest failed logins of a host.
ghost use Rattle.std.specs.Prelude.{◌≡◌, ◌<◌, [], ◌∷◌, IfNone, IfOk, IfSome, None, OnOk, Some, if◌then◌else◌};
ghost use Rattle.tally_attempts.specs.Attempts.{attempts_before, latest_attempts};
ghost use Rattle.tally_attempts.specs.inside.Latest.{is_full, with_first};
ghost use Rattle.tally_sessions.specs.Lent.{entries_in};
ghost use Rattle.tally_sessions.specs.Totals.{first_time};

use crate::attempt::Attempt;
use crate::chosen::put_chosen;
use std::alloc::Global;
use tally_records::{List, LoginChoice, Memory};
use tally_sessions::Entries;

/// Whether so many are as many as a limit leaves.
fn is_full(limit: Option<u32>, count: usize) -> bool
    ensures { result ≡ is_full limit count }
{
    match limit {
        Some(limit) => limit as usize <= count,
        None => false,
    }
}

/// Writes a host's last entry before a place over a row where it is a chosen failed login: its place, and whether it is.
#[tactic(auto, using(crate::proofs::LatestLemmas::last_here, crate::proofs::LatestLemmas::nothing_before))]
fn put_last(
    row: &mut Attempt,
    entries: Entries<'_>,
    host: u32,
    choice: &LoginChoice,
    before: usize,
) -> Option<(usize, bool)>
    ensures earlier { IfSome result (λ r. r.0 < before) }
    ensures row { IfSome result (λ r. attempts_before host choice.now before (entries_in entries.entry)
        ≡ with_first (if r.1 then Some row.new else None) (attempts_before host choice.now r.0 (entries_in entries.entry))) }
    ensures none { IfNone result (attempts_before host choice.now before (entries_in entries.entry) ≡ []) }
{
    let at = entries.last_of(host, before)?;
    Some((at, put_chosen(row, entries, choice, at, host)))
}

/// Writes the last chosen failed login of a host before a place among the entries over a row, and gives its own place. What stands
/// before that place is not read, so that all are found one by one, the latest first, from the number of the entries on. Where there
/// is none, nothing is said of the row.
pub fn put_latest_before(
    row: &mut Attempt,
    entries: Entries<'_>,
    host: u32,
    choice: &LoginChoice,
    before: usize,
) -> Option<usize>
    ensures earlier { IfSome result (λ at. at < before) }
    ensures some { IfSome result (λ at. attempts_before host choice.now before (entries_in entries.entry) ≡ row.new ∷ attempts_before host choice.now at (entries_in entries.entry)) }
    ensures none { IfNone result (attempts_before host choice.now before (entries_in entries.entry) ≡ []) }
{
    let mut end = before;
    while let Some((at, is_chosen)) = put_last(row, entries, host, choice, end) {
        if is_chosen {
            return Some(at);
        }
        end = at;
    }
    None
}

/// A row that others are written over.
fn blank() -> Attempt {
    Attempt {
        host: 0,
        user: [0; 32],
        line: [0; 32],
        remote: [0; 256],
        time: 0,
    }
}

/// The last chosen failed login of a host before a place among the entries, and its own place, as `put_latest_before` finds it.
pub fn latest_before(
    entries: Entries<'_>,
    host: u32,
    choice: &LoginChoice,
    before: usize,
) -> Option<(usize, Attempt)>
    ensures earlier { IfSome result (λ r. r.0 < before) }
    ensures some { IfSome result (λ r. attempts_before host choice.now before (entries_in entries.entry) ≡ r.1 ∷ attempts_before host choice.now r.0 (entries_in entries.entry)) }
    ensures none { IfNone result (attempts_before host choice.now before (entries_in entries.entry) ≡ []) }
{
    let mut row = blank();
    let at = put_latest_before(&mut row, entries, host, choice, before)?;
    Some((at, row))
}

/// Adds the chosen failed logins of a host, the latest first, until there are as many as the limit leaves.
fn push_latest(
    rows: &mut Vec<Attempt>,
    entries: Entries<'_>,
    host: u32,
    limit: Option<u32>,
    choice: &LoginChoice,
) -> Result<(), Memory>
    requires { rows.old.items ≡ [] }
    ensures { OnOk result (rows.new.items ≡ latest_attempts host limit choice.now (entries_in entries.entry)) }
{
    let mut before = entries.len();
    while !is_full(limit, rows.len()) {
        let Some((at, row)) = latest_before(entries, host, choice, before) else {
            return Ok(());
        };
        rows.push(row)?;
        before = at;
    }
    Ok(())
}

/// The chosen failed logins of a host, the latest first, as lastb(8) lists them; the first `limit` of them. With a limit,
/// only the records up to the last of these are read. It errs where memory runs out.
pub fn latest_attempts(
    alloc: Global,
    entries: Entries<'_>,
    host: u32,
    limit: Option<u32>,
    choice: &LoginChoice,
) -> Result<List<Attempt>, Memory>
    ensures { IfOk result (λ rows. rows ≡ latest_attempts host limit choice.now (entries_in entries.entry)) }
{
    let mut rows = Vec::new(alloc);
    push_latest(&mut rows, entries, host, limit, choice)?;
    List::from_vec(alloc, rows)
}

/// The time of a host's first record, of whatever type.
#[tactic(auto, using(crate::proofs::LatestLemmas::first_there))]
pub fn first_time(entries: Entries<'_>, host: u32) -> Option<i32>
    ensures { result ≡ first_time host (entries_in entries.entry) }
{
    let at = entries.next_of(host, 0)?;
    entries.time(at)
}
