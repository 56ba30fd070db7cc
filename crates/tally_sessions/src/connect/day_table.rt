//! A table of the seconds of users on days, with a cell for each day of a range and each user.
ghost use Rattle.std.specs.Prelude.{◌≡◌, ◌≤◌, ◌<◌, ◌+◌, ◌*◌, ◌^◌, ◌==◌, ℕ, ℤ, pos, neg_ℤ, ◌+ℤ◌, ◌≤ℤ◌, IfSome, IfNone, IsTrue, get_or, length, slice_get, slice_set, if◌then◌else◌, Some};
ghost use Rattle.tally_clock.specs.Days.{seconds_on};
ghost use Rattle.tally_sessions.specs.Days as days;
ghost use Rattle.tally_sessions.specs.Days.{local};
ghost use Rattle.tally_sessions.specs.inside.Spans.{span_on};
ghost use Rattle.tally_sessions.specs.inside.Tables.{cell_at};

use crate::connect::cut::Cut;
use crate::connect::name_key::NameKey;
use crate::connect::span::{Span, day_of};
use crate::sums::Session;
use tally_clock::Clock;

/// The cells of a user in a table that begins with a day: one of each `width`, at the user's rank.
#[derive(Clone, Copy)]
pub(crate) struct Column {
    pub(crate) first: i32,
    pub(crate) width: usize,
    pub(crate) rank: usize,
}

/// The day of a place in a table that begins with a day.
pub(crate) fn day_at(first: i32, place: usize) -> i32
    requires first_in { days.IsDay first }
    requires place_in { place < 2 ^ 20 }
    ensures { result ≡ first +ℤ pos place }
{
    first + place as i32
}

/// How many days there are from one up to another, or 0.
pub(crate) fn days_between(first: i32, end: i32) -> usize
    requires first_in { days.IsDay first }
    requires low { neg_ℤ (pos 24858) ≤ℤ end }
    requires high { end ≤ℤ pos 24858 }
    ensures up { first ≤ℤ end → first +ℤ pos result ≡ end }
    ensures back { end ≤ℤ first → result ≡ 0 }
    ensures few { result < 2 ^ 17 }
{
    (end - first).max(0) as usize
}

/// Adds to a cell, where there is one.
fn add_at(cells: &mut [u64], place: usize, more: u64) -> bool
    requires { get_or cells.old place 0 + more < 2 ^ 64 }
    ensures within { IsTrue result → place < length cells.old }
    ensures set { IsTrue result → cells.new ≡ slice_set cells.old place (get_or cells.old place 0 + more) }
{
    if place >= cells.len() {
        return false;
    }
    cells[place] += more;
    true
}

/// Adds the seconds of a span to the cells of a user. It gives up where the table lacks a day of it.
fn add_span(cells: &mut [u64], column: Column, span: &Span) -> bool
    requires first_in { days.IsDay column.first }
    requires rank_in { column.rank < column.width }
    requires narrow { column.width < 2 ^ 40 }
    requires few { (place : ℕ) → cell_at cells.old column.width place column.rank ≤ 2 ^ 60 }
    ensures cells { IsTrue result → (place rank : ℕ) → rank < column.width → cell_at cells.new column.width place rank
        ≡ cell_at cells.old column.width place rank + (if rank == column.rank then span_on (column.first +ℤ pos place) span.now.begin span.now.end_time else 0) }
    ensures from_first { IsTrue result → (day : ℤ) → (day +ℤ pos 1) ≤ℤ column.first → span_on day span.now.begin span.now.end_time ≡ 0 }
{
    let first = day_of(span.begin);
    if first < column.first {
        return false;
    }
    let from = days_between(column.first, first);
    let to = days_between(column.first, day_of(span.end_time) + 1);
    for place in from..to {
        let seconds = span.seconds_on(day_at(column.first, place));
        if !add_at(cells, place * column.width + column.rank, seconds as u64) {
            return false;
        }
    }
    true
}

/// Adds a session to the cells of its user. It gives up where the table lacks a day of it, and where
/// the session has a row of the clock whole.
pub(crate) fn add_session(
    cells: &mut [u64],
    column: Column,
    clock: &Clock,
    offset: i32,
    session: &Session,
) -> bool
    requires offset_in { days.IsOffset offset }
    requires first_in { days.IsDay column.first }
    requires rank_in { column.rank < column.width }
    requires narrow { column.width < 2 ^ 40 }
    requires few { (place : ℕ) → cell_at cells.old column.width place column.rank ≤ 2 ^ 50 }
    ensures cells { IsTrue result → (place rank : ℕ) → rank < column.width → cell_at cells.new column.width place rank
        ≡ cell_at cells.old column.width place rank + (if rank == column.rank then seconds_on (local clock.now offset) (column.first +ℤ pos place) session.now.begin session.now.end_time else 0) }
    ensures from_first { IsTrue result → (day : ℤ) → (day +ℤ pos 1) ≤ℤ column.first → seconds_on (local clock.now offset) day session.now.begin session.now.end_time ≡ 0 }
    ensures days { (day : ℤ) → 0 < seconds_on (local clock.now offset) day session.now.begin session.now.end_time → days.IsDay day }
{
    let cut = Cut::of(clock, offset, session);
    if !add_span(cells, column, &cut.first) {
        return false;
    }
    match cut.rest {
        None => true,
        Some(rest) => rest.from == rest.to && add_span(cells, column, &rest.last),
    }
}

/// The place of a user among users in order.
fn rank_of(users: &[NameKey], user: &NameKey) -> Option<usize>
    ensures { IfSome result (λ rank. slice_get users.now rank ≡ Some user.now) }
{
    match users.binary_search(user) {
        Ok(rank) => Some(rank),
        Err(_) => None,
    }
}

/// The same, where a hint is tried first. It is set to the place that is found, of which it has the lowest 16 bits.
pub(crate) fn rank_by(users: &[NameKey], user: &NameKey, hint: &mut u16) -> Option<usize>
    ensures { IfSome result (λ rank. slice_get users.now rank ≡ Some user.now) }
{
    let guess = usize::from(*hint);
    if guess < users.len() && users[guess] == *user {
        return Some(guess);
    }
    let rank = rank_of(users, user)?;
    *hint = (rank % 65_536) as u16;
    Some(rank)
}
