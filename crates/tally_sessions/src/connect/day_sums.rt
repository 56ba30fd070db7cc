//! Sums of seconds over the days of sessions.
ghost use Rattle.std.specs.Prelude.{◌≡◌, ◌≤◌, ◌<◌, ◌+◌, ◌^◌, ℕ, ℤ, pos, neg_ℤ, ◌+ℤ◌, ◌-ℤ◌, ◌*ℤ◌, ◌≤ℤ◌, IfOk, length, vec_len};
ghost use Rattle.std.specs.Ordering.{int_cmp};
ghost use Rattle.tally_clock.specs.Days.{seconds_on};
ghost use Rattle.tally_sessions.specs.inside.Changes as changes;
ghost use Rattle.tally_sessions.specs.inside.Counts.{change_since, size_of, stand_for};
ghost use Rattle.tally_sessions.specs.inside.Cuts.{rest_change};
ghost use Rattle.tally_sessions.specs.inside.Spans.{span_change};
ghost use Rattle.tally_sessions.specs.Days as days;
ghost use Rattle.tally_sessions.specs.Days.{local};
ghost use Rattle.tally_sessions.specs.Sums.{seconds_of_day};
ghost use Rattle.tally_sessions.specs.inside.Sums.{sum_at};

use crate::connect::cut::{Cut, row_span};
use crate::connect::source::SessionSource;
use crate::connect::span::{Span, day_of};
use crate::sessions::ENTRY_LIMIT;
use crate::sums::{Session, add};
use std::alloc::Global;
use std::collections::BTreeMap;
use tally_clock::Clock;
use tally_records::Memory;

/// The first day that a time can have.
const FIRST_DAY: i32 = -24_858;

/// How many days a time can have, and the day after them.
const DAY_COUNT: usize = 49_717;

/// The day of a place in a table of all days.
fn day_at(place: usize) -> i32
    requires { place < DAY_COUNT }
    ensures { result ≡ changes.day_at place }
{
    FIRST_DAY + place as i32
}

/// The place of a day.
fn place_of(day: i32) -> usize
    requires { days.IsDay day }
    ensures day { changes.day_at result ≡ day }
    ensures in_table { result + 1 < DAY_COUNT }
{
    (day - FIRST_DAY) as usize
}

/// Adds the changes of a span's seconds from day to day, so many times. They are on its first two
/// days, its last and the next: the days between them have the same seconds, all that a day has.
fn add_changes(table: &mut [i64], span: &Span, times: i64)
    requires all_days { length table.old ≡ DAY_COUNT }
    requires low { (place : ℕ) → neg_ℤ (pos (2 ^ 62)) ≤ℤ changes.change_at table.old place }
    requires high { (place : ℕ) → changes.change_at table.old place ≤ℤ pos (2 ^ 62) }
    requires times_low { neg_ℤ (pos 33554432) ≤ℤ times }
    requires times_high { times ≤ℤ pos 33554432 }
    ensures { (place : ℕ) → place < DAY_COUNT → changes.change_at table.new place
        ≡ changes.change_at table.old place +ℤ times *ℤ span_change (changes.day_at place) span.now.begin span.now.end_time }
{
    let first = place_of(day_of(span.begin));
    let last = place_of(day_of(span.end_time));
    let mut place = first;
    while place <= last + 1 {
        table[place] += span.change_on(day_at(place), times);
        place = if place > first {
            last.max(place + 1)
        } else {
            place + 1
        };
    }
}

/// Adds the changes of a cut session's seconds in the row of the clock where it ends, where it begins in another.
#[tactic(auto, using(crate::proofs::connect::CutChanges::no_rest, crate::proofs::connect::CutChanges::one_rest, crate::proofs::connect::Weights::once))]
fn add_last(table: &mut [i64], cut: &Cut)
    requires all_days { length table.old ≡ DAY_COUNT }
    requires low { (place : ℕ) → neg_ℤ (pos (2 ^ 62)) ≤ℤ changes.change_at table.old place }
    requires high { (place : ℕ) → changes.change_at table.old place ≤ℤ pos (2 ^ 62) }
    ensures { (place : ℕ) → place < DAY_COUNT → changes.change_at table.new place ≡ changes.change_at table.old place +ℤ rest_change (changes.day_at place) cut.now.rest }
{
    match cut.rest {
        None => {}
        Some(rest) => add_changes(table, &rest.last, 1),
    }
}

/// Adds one session that has whole each row from one up to another.
fn count_rows(counts: &mut [i64], from: usize, to: usize)
    requires from_in { from < length counts.old }
    requires to_in { to < length counts.old }
    requires small { size_of (changes.change_at counts.old) (length counts.old) ≤ 2 ^ 25 }
    ensures value { (change : ℕ → ℤ) → stand_for (changes.change_at counts.new) change (length counts.old)
        ≡ (stand_for (changes.change_at counts.old) change (length counts.old) +ℤ change from) -ℤ change to }
    ensures two { size_of (changes.change_at counts.new) (length counts.old) ≤ size_of (changes.change_at counts.old) (length counts.old) + 2 }
{
    counts[from] += 1;
    counts[to] -= 1;
}

/// Adds a session: the changes of its seconds in the rows of the clock where it begins and ends to the
/// days, and one to the count of the first row that it has whole, up to the row where it ends.
fn add_session(table: &mut [i64], counts: &mut [i64], clock: &Clock, offset: i32, session: &Session)
    requires offset_in { days.IsOffset offset }
    requires all_days { length table.old ≡ DAY_COUNT }
    requires all_rows { length counts.old ≡ length clock.now.rows }
    requires low { (place : ℕ) → neg_ℤ (pos (2 ^ 61)) ≤ℤ changes.change_at table.old place }
    requires high { (place : ℕ) → changes.change_at table.old place ≤ℤ pos (2 ^ 61) }
    requires small { size_of (changes.change_at counts.old) (length clock.now.rows) ≤ 2 ^ 25 }
    ensures value { (place : ℕ) → place < DAY_COUNT → changes.told_at (local clock.now offset) clock.now.rows table.new counts.new place
        ≡ changes.told_at (local clock.now offset) clock.now.rows table.old counts.old place
        +ℤ changes.change_on (local clock.now offset) (changes.day_at place) session.now.begin session.now.end_time }
    ensures two { size_of (changes.change_at counts.new) (length clock.now.rows) ≤ size_of (changes.change_at counts.old) (length clock.now.rows) + 2 }
    ensures days { (day : ℤ) → 0 < seconds_on (local clock.now offset) day session.now.begin session.now.end_time → days.IsDay day }
{
    let cut = Cut::of(clock, offset, session);
    add_changes(table, &cut.first, 1);
    add_last(table, &cut);
    match cut.rest {
        None => {}
        Some(rest) => count_rows(counts, rest.from, rest.to),
    }
}

/// Adds the rows that sessions have whole, each as often as the counts up to it say.
fn add_rows(table: &mut [i64], counts: &[i64], clock: &Clock, offset: i32)
    requires offset_in { days.IsOffset offset }
    requires all_days { length table.old ≡ DAY_COUNT }
    requires all_rows { length counts.now ≡ length clock.now.rows }
    requires low { (place : ℕ) → neg_ℤ (pos (2 ^ 61)) ≤ℤ changes.change_at table.old place }
    requires high { (place : ℕ) → changes.change_at table.old place ≤ℤ pos (2 ^ 61) }
    requires small { size_of (changes.change_at counts.now) (length clock.now.rows) ≤ 2 ^ 25 }
    ensures { (place : ℕ) → place < DAY_COUNT → changes.change_at table.new place
        ≡ changes.told_at (local clock.now offset) clock.now.rows table.old counts.now place }
{
    let mut times = 0;
    for row in 0..counts.len() {
        times += counts[row];
        add_changes(table, &row_span(clock, offset, row), times);
    }
}

/// The changes of the seconds of a source's sessions from day to day.
fn day_changes<S: SessionSource>(
    alloc: Global,
    clock: &Clock,
    offset: i32,
    source: &mut S,
) -> Result<Vec<i64>, Memory>
    requires offset_in { days.IsOffset offset }
    requires few { length (S.ahead source.old) ≤ ENTRY_LIMIT }
    ensures all_days { IfOk result (λ table. vec_len table ≡ DAY_COUNT) }
    ensures value { IfOk result (λ table. (place : ℕ) → place < DAY_COUNT → changes.change_at table.items place
        ≡ changes.change_of_day (local clock.now offset) (changes.day_at place) (S.ahead source.old)) }
    ensures days { IfOk result (λ _. (day : ℤ) → 0 < seconds_of_day (local clock.now offset) day (S.ahead source.old) → days.IsDay day) }
{
    let mut table = vec![in alloc; 0; DAY_COUNT]?;
    let mut counts = vec![in alloc; 0; clock.rows().len()]?;
    while let Some(session) = source.next_session() {
        add_session(&mut table, &mut counts, clock, offset, &session);
    }
    add_rows(&mut table, &counts, clock, offset);
    Ok(table)
}

/// The seconds of a source's sessions on each day.
pub(crate) fn day_sums<S: SessionSource>(
    alloc: Global,
    clock: &Clock,
    offset: i32,
    source: &mut S,
) -> Result<BTreeMap<i32, u64>, Memory>
    requires offset_in { days.IsOffset offset }
    requires few { length (S.ahead source.old) ≤ ENTRY_LIMIT }
    ensures value { IfOk result (λ sums. (day : ℤ) → sum_at int_cmp sums.entries day ≡ seconds_of_day (local clock.now offset) day (S.ahead source.old)) }
    ensures days { IfOk result (λ sums. (day : ℤ) → 0 < sum_at int_cmp sums.entries day → days.IsDay day) }
{
    let table = day_changes(alloc, clock, offset, source)?;
    let mut sums = BTreeMap::new(alloc);
    let mut seconds = 0;
    for (place, change) in table.iter().enumerate() {
        seconds += *change;
        if seconds > 0 {
            add(&mut sums, day_at(place), seconds as u64)?;
        }
    }
    Ok(sums)
}
