//! Which stored records are chosen failed logins.
ghost use Rattle.std.specs.Prelude.{◌≡◌, ◌||◌, ◌==◌, None, Some, if◌then◌else◌, option_map, slice_get};
ghost use Rattle.tally_attempts.specs.Attempts.{attempt, is_attempt, is_chosen};
ghost use Rattle.tally_attempts.specs.inside.Latest.{if_chosen};
ghost use Rattle.tally_records.specs.Event.{is_blank};
ghost use Rattle.tally_sessions.specs.Lent.{entries_in};

use crate::attempt::Attempt;
use tally_records::{LoginChoice, LoginRecord, Name, is_among};
use tally_sessions::{Entries, Entry};

/// Whether a name is empty.
fn is_blank(name: &Name) -> bool
    ensures { result ≡ is_blank name.now }
{
    name[0] == 0
}

/// Whether failed logins are of a type.
fn is_attempt_type(kind: u8) -> bool
    ensures { result ≡ ((kind == 6) || (kind == 7)) }
{
    kind == 6 || kind == 7
}

/// Whether a record is a failed login.
fn is_attempt(r: &LoginRecord) -> bool
    ensures { result ≡ is_attempt r.now }
{
    is_attempt_type(r.kind) && !(is_blank(&r.line) && is_blank(&r.user))
}

/// Whether a record is a chosen failed login.
fn is_chosen(choice: &LoginChoice, r: &LoginRecord) -> bool
    ensures { result ≡ is_chosen choice.now r.now }
{
    is_attempt(r)
        && is_among(&choice.users, &r.user)
        && is_among(&choice.lines, &r.line)
        && choice.period.has(i64::from(r.time))
}

/// The entry at a place, where its type and its time are those of a chosen failed login. The texts of others are not read.
fn likely_at(entries: Entries<'_>, choice: &LoginChoice, index: usize) -> Option<Entry>
    ensures { if_chosen choice.now result ≡ if_chosen choice.now (slice_get (entries_in entries.entry) index) }
{
    let kind = entries.kind(index)?;
    if !is_attempt_type(kind) {
        return None;
    }
    let time = entries.time(index)?;
    if !choice.period.has(i64::from(time)) {
        return None;
    }
    entries.get(index)
}

/// The record of the entry at a place, where it is a chosen failed login.
pub(crate) fn chosen_at(
    entries: Entries<'_>,
    choice: &LoginChoice,
    index: usize,
) -> Option<LoginRecord>
    ensures { result ≡ if_chosen choice.now (slice_get (entries_in entries.entry) index) }
{
    let entry = likely_at(entries, choice, index)?;
    if is_chosen(choice, &entry.item) {
        Some(entry.item)
    } else {
        None
    }
}

/// Writes a host's record over a row.
fn put_attempt(row: &mut Attempt, host: u32, r: &LoginRecord)
    ensures { row.new ≡ attempt host r.now }
{
    row.host = host;
    row.user = r.user;
    row.line = r.line;
    row.remote = r.remote;
    row.time = r.time;
}

/// Writes the record at a place, as one of a host, over a row where it is a chosen failed login, and says whether it is.
pub(crate) fn put_chosen(
    row: &mut Attempt,
    entries: Entries<'_>,
    choice: &LoginChoice,
    index: usize,
    host: u32,
) -> bool
    ensures { (if result then Some row.new else None) ≡ option_map (attempt host) (if_chosen choice.now (slice_get (entries_in entries.entry) index)) }
{
    let Some(entry) = &likely_at(entries, choice, index) else {
        return false;
    };
    if !is_chosen(choice, &entry.item) {
        return false;
    }
    put_attempt(row, host, &entry.item);
    true
}
