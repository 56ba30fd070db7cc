//! The seconds of each user on each day.
ghost use Rattle.std.specs.Prelude.{◌≡◌, ◌≤◌, ◌<◌, ◌+◌, ◌-◌, ◌^◌, ℕ, ℤ, pos, neg_ℤ, ◌+ℤ◌, ◌-ℤ◌, ◌*ℤ◌, ◌≤ℤ◌, All, List, OnOk, IfOk, length, bytes_eq, unsigned_abs, if◌then◌else◌};
ghost use Rattle.std.specs.Ordering.{is_eq};
ghost use Rattle.tally_clock.specs.Days.{seconds_on};
ghost use Rattle.tally_sessions.specs.inside.Changes as user;
ghost use Rattle.tally_sessions.specs.inside.Changes.{AreWithin, change_of_day_user, count_of, day_change, rows_ahead, told_of};
ghost use Rattle.tally_sessions.specs.inside.Counts.{size_of, stand_for};
ghost use Rattle.tally_sessions.specs.inside.Spans.{span_change};
ghost use Rattle.tally_sessions.specs.inside.Sums.{day_user_cmp};
ghost use Rattle.tally_sessions.specs.Days as days;
ghost use Rattle.tally_sessions.specs.Days.{local};
ghost use Rattle.tally_sessions.specs.Rows.{day_user_times};
ghost use Rattle.tally_sessions.specs.Sums.{seconds_of_day_user};
ghost use Rattle.tally_sessions.specs.declared.connect.keys.DayUser.{DayUser as Key};

use crate::connect::cut::{Cut, row_span};
use crate::connect::keys::{DayUser, RowUser, add_change};
use crate::connect::name_key::NameKey;
use crate::connect::source::SessionSource;
use crate::connect::span::{Span, day_of};
use crate::sessions::ENTRY_LIMIT;
use crate::sums::Session;
use crate::times::DayUserTime;
use std::alloc::Global;
use std::collections::BTreeMap;
use tally_clock::Clock;
use tally_records::Memory;

/// Adds to the change of a user on a day.
fn add_on_day(
    changes: &mut BTreeMap<DayUser, i64>,
    day: i32,
    user: NameKey,
    more: i64,
) -> Result<(), Memory>
    requires low { neg_ℤ (pos (2 ^ 61)) ≤ℤ day_change changes.old.entries (record { day = day; user = user }) }
    requires high { day_change changes.old.entries (record { day = day; user = user }) ≤ℤ pos (2 ^ 61) }
    requires more_low { neg_ℤ (pos (2 ^ 61)) ≤ℤ more }
    requires more_high { more ≤ℤ pos (2 ^ 61) }
    ensures { OnOk result ((k : Key) → day_change changes.new.entries k
        ≡ day_change changes.old.entries k +ℤ (if is_eq (day_user_cmp (record { day = day; user = user }) k) then more else pos 0)) }
{
    add_change(changes, DayUser { day, user }, more)
}

/// Adds the changes of a span's seconds from day to day, so many times, to those of a user. They are
/// on its first two days, its last and the next.
fn add_changes(
    changes: &mut BTreeMap<DayUser, i64>,
    user: NameKey,
    span: &Span,
    times: i64,
) -> Result<(), Memory>
    requires low { (k : Key) → neg_ℤ (pos (2 ^ 61)) ≤ℤ day_change changes.old.entries k }
    requires high { (k : Key) → day_change changes.old.entries k ≤ℤ pos (2 ^ 61) }
    requires times_low { neg_ℤ (pos 33554432) ≤ℤ times }
    requires times_high { times ≤ℤ pos 33554432 }
    ensures { OnOk result ((k : Key) → day_change changes.new.entries k
        ≡ day_change changes.old.entries k
        +ℤ (if bytes_eq user k.user then times *ℤ span_change k.day span.now.begin span.now.end_time else pos 0)) }
{
    let first = day_of(span.begin);
    let last = day_of(span.end_time);
    let mut day = first;
    while day <= last + 1 {
        add_on_day(changes, day, user, span.change_on(day, times))?;
        day = if day > first {
            last.max(day + 1)
        } else {
            day + 1
        };
    }
    Ok(())
}

/// Adds one session of a user that has whole each row from one up to another.
fn count_rows(
    counts: &mut BTreeMap<RowUser, i64>,
    user: NameKey,
    from: usize,
    to: usize,
) -> Result<(), Memory>
    requires few { (row : ℕ) → unsigned_abs (count_of counts.old.entries user row) ≤ 2 ^ 26 }
    ensures value { OnOk result ((change : ℕ → ℤ) (name : List ℕ) (rows : ℕ) → from < rows → to < rows → stand_for (count_of counts.new.entries name) change rows
        ≡ stand_for (count_of counts.old.entries name) change rows +ℤ (if bytes_eq user name then change from -ℤ change to else pos 0)) }
    ensures two { OnOk result ((name : List ℕ) (rows : ℕ) → from < rows → to < rows
        → size_of (count_of counts.new.entries name) rows ≤ size_of (count_of counts.old.entries name) rows + 2) }
    ensures within { OnOk result ((rows : ℕ) → from < rows → to < rows → AreWithin counts.old.entries rows → AreWithin counts.new.entries rows) }
{
    add_change(counts, RowUser { row: from, user }, 1)?;
    add_change(counts, RowUser { row: to, user }, -1)?;
    Ok(())
}

/// Adds a session: the changes of its seconds in the rows of the clock where it begins and ends to the
/// days of its user, and one to the user's count of the first row that it has whole, up to the row where it ends.
fn add_session(
    changes: &mut BTreeMap<DayUser, i64>,
    counts: &mut BTreeMap<RowUser, i64>,
    clock: &Clock,
    offset: i32,
    session: &Session,
) -> Result<(), Memory>
    requires offset_in { days.IsOffset offset }
    requires low { (k : Key) → neg_ℤ (pos (2 ^ 60)) ≤ℤ day_change changes.old.entries k }
    requires high { (k : Key) → day_change changes.old.entries k ≤ℤ pos (2 ^ 60) }
    requires within { AreWithin counts.old.entries (length clock.now.rows) }
    requires small { (name : List ℕ) → size_of (count_of counts.old.entries name) (length clock.now.rows) ≤ 2 ^ 25 }
    ensures value { OnOk result ((k : Key) → told_of (local clock.now offset) clock.now.rows changes.new.entries counts.new.entries k
        ≡ told_of (local clock.now offset) clock.now.rows changes.old.entries counts.old.entries k
        +ℤ (if bytes_eq session.now.user k.user then user.change_on (local clock.now offset) k.day session.now.begin session.now.end_time else pos 0)) }
    ensures two { OnOk result ((name : List ℕ) → size_of (count_of counts.new.entries name) (length clock.now.rows)
        ≤ size_of (count_of counts.old.entries name) (length clock.now.rows) + 2) }
    ensures within { OnOk result (AreWithin counts.new.entries (length clock.now.rows)) }
    ensures days { OnOk result ((day : ℤ) → 0 < seconds_on (local clock.now offset) day session.now.begin session.now.end_time → days.IsDay day) }
{
    let cut = Cut::of(clock, offset, session);
    let user = NameKey::of(&session.user);
    add_changes(changes, user, &cut.first, 1)?;
    match cut.rest {
        None => Ok(()),
        Some(rest) => {
            add_changes(changes, user, &rest.last, 1)?;
            count_rows(counts, user, rest.from, rest.to)?;
            Ok(())
        }
    }
}

/// Lets a count go on from the next row, where there is one.
fn count_on(
    counts: &mut BTreeMap<RowUser, i64>,
    at: RowUser,
    rows: usize,
    times: i64,
) -> Result<(), Memory>
    requires row_in { at.row < rows }
    requires few { (row : ℕ) → unsigned_abs (count_of counts.old.entries at.user row) ≤ 2 ^ 26 }
    requires times_few { unsigned_abs times ≤ 2 ^ 26 }
    ensures value { OnOk result ((change : ℕ → ℤ) (name : List ℕ) → change rows ≡ pos 0 → stand_for (count_of counts.new.entries name) change rows
        ≡ stand_for (count_of counts.old.entries name) change rows +ℤ (if bytes_eq at.user name then times *ℤ change (at.row + 1) else pos 0)) }
    ensures size { OnOk result ((name : List ℕ) → size_of (count_of counts.new.entries name) rows
        ≤ size_of (count_of counts.old.entries name) rows + (if bytes_eq at.user name then unsigned_abs times else 0)) }
    ensures within { OnOk result (AreWithin counts.old.entries rows → AreWithin counts.new.entries rows) }
    ensures nearer { OnOk result (rows_ahead rows counts.new.entries ≤ rows_ahead rows counts.old.entries + (rows - (at.row + 1))) }
{
    let row = at.row + 1;
    let user = at.user;
    if row < rows {
        add_change(counts, RowUser { row, user }, times)?;
    }
    Ok(())
}

/// Adds the rows that users' sessions have whole. The least key leaves the counts, its row is added that
/// often to the days of its user, and the next row begins with as much.
fn add_rows(
    changes: &mut BTreeMap<DayUser, i64>,
    counts: &mut BTreeMap<RowUser, i64>,
    clock: &Clock,
    offset: i32,
) -> Result<(), Memory>
    requires offset_in { days.IsOffset offset }
    requires low { (k : Key) → neg_ℤ (pos (2 ^ 60)) ≤ℤ told_of (local clock.now offset) clock.now.rows changes.old.entries counts.old.entries k }
    requires high { (k : Key) → told_of (local clock.now offset) clock.now.rows changes.old.entries counts.old.entries k ≤ℤ pos (2 ^ 60) }
    requires within { AreWithin counts.old.entries (length clock.now.rows) }
    requires small { (name : List ℕ) → size_of (count_of counts.old.entries name) (length clock.now.rows) ≤ 2 ^ 25 }
    ensures { OnOk result ((k : Key) → day_change changes.new.entries k
        ≡ told_of (local clock.now offset) clock.now.rows changes.old.entries counts.old.entries k) }
{
    let rows = clock.rows().len();
    while let Some((at, times)) = counts.pop_first() {
        if times != 0 {
            add_changes(changes, at.user, &row_span(clock, offset, at.row), times)?;
            count_on(counts, at, rows, times)?;
        }
    }
    Ok(())
}

/// The changes of the seconds of a source's sessions from day to day, for each user.
fn user_changes<S: SessionSource>(
    alloc: Global,
    clock: &Clock,
    offset: i32,
    source: &mut S,
) -> Result<BTreeMap<DayUser, i64>, Memory>
    requires offset_in { days.IsOffset offset }
    requires few { length (S.ahead source.old) ≤ ENTRY_LIMIT }
    ensures value { IfOk result (λ changes. (k : Key) → day_change changes.entries k ≡ change_of_day_user (local clock.now offset) k (S.ahead source.old)) }
    ensures days { IfOk result (λ _. (k : Key) → 0 < seconds_of_day_user (local clock.now offset) k.day k.user (S.ahead source.old) → days.IsDay k.day) }
{
    let mut changes = BTreeMap::new(alloc);
    let mut counts = BTreeMap::new(alloc);
    while let Some(session) = source.next_session() {
        add_session(&mut changes, &mut counts, clock, offset, &session)?;
    }
    add_rows(&mut changes, &mut counts, clock, offset)?;
    Ok(changes)
}

/// The rows of the users on days that have any time, by day and then by name bytes. The least key
/// leaves the changes with all that its user has on the day, and the next day begins with as much.
pub(crate) fn day_user_rows<S: SessionSource>(
    alloc: Global,
    clock: &Clock,
    offset: i32,
    source: &mut S,
) -> Result<Vec<DayUserTime>, Memory>
    requires offset_in { days.IsOffset offset }
    requires few { length (S.ahead source.old) ≤ ENTRY_LIMIT }
    ensures rows { IfOk result (λ rows. rows.items ≡ day_user_times (local clock.now offset) (S.ahead source.old)) }
    ensures days { IfOk result (λ rows. All (λ row. days.IsDay row.day) rows.items) }
{
    let mut changes = user_changes(alloc, clock, offset, source)?;
    let mut rows = Vec::new(alloc);
    while let Some((at, seconds)) = changes.pop_first() {
        let day = at.day;
        let user = at.user;
        if seconds > 0 {
            rows.push(DayUserTime {
                day,
                user: user.name(),
                seconds: seconds as u64,
            })?;
            add_change(&mut changes, DayUser { day: day + 1, user }, seconds)?;
        }
    }
    Ok(rows)
}
