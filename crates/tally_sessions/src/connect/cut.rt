//! Sessions cut where the offset of a clock changes.
ghost use Rattle.std.specs.Prelude.{◌≡◌, ◌+◌, ◌<◌, ◌≤◌, ◌^◌, ℕ, ℤ, pos, neg_ℤ, ◌+ℤ◌, ◌*ℤ◌, ◌≤ℤ◌, IfNone, IfSome, MatchOption, length};
ghost use Rattle.tally_clock.specs.Days.{seconds_on};
ghost use Rattle.tally_clock.specs.Rows.{count_at, offset_after};
ghost use Rattle.tally_sessions.specs.Days.{IsDay, IsOffset, local};
ghost use Rattle.tally_sessions.specs.inside.Counts.{seconds_since, start_of};
ghost use Rattle.tally_sessions.specs.inside.Spans.{span_on};

use crate::connect::span::Span;
use crate::sums::Session;
use tally_clock::{Clock, Row};

/// A second after all that records can have.
const AFTER_ALL: i64 = 2_147_483_648;

/// What is left of a session after the row of the clock in which it begins.
#[derive(Clone, Copy)]
pub(crate) struct Rest {
    /// Its seconds in the row in which it ends.
    pub(crate) last: Span,
    /// The first row that it has whole, or else `to`.
    pub(crate) from: usize,
    /// The row in which it ends.
    pub(crate) to: usize,
}

/// The seconds of a session, by the offsets of a clock.
#[derive(Clone, Copy)]
pub(crate) struct Cut {
    pub(crate) first: Span,
    pub(crate) rest: Option<Rest>,
}

/// By how many seconds local time is ahead after so many rows, with a question's offset in minutes.
#[tactic(auto, using(crate::proofs::connect::LocalTime::ahead_is))]
fn ahead_after(clock: &Clock, count: usize, offset: i32) -> i32
    requires offset_in { IsOffset offset }
    requires count { count ≤ length clock.now.rows }
    ensures value { result ≡ (offset_after clock.now.first clock.now.rows count).seconds +ℤ pos 60 *ℤ offset }
    ensures low { neg_ℤ (pos 179939) ≤ℤ result }
    ensures high { result ≤ℤ pos 179939 }
{
    clock.offset_after(count).seconds + 60 * offset
}

/// The local time of seconds that have one offset: that after so many rows, with a question's in minutes.
fn span_in(clock: &Clock, offset: i32, count: usize, begin: i64, end_time: i64) -> Span
    requires offset_in { IsOffset offset }
    requires count { count ≡ count_at clock.now.rows begin }
    requires up_to_next { end_time ≤ℤ start_of clock.now.rows count }
    requires begin_low { neg_ℤ (pos (2 ^ 31)) ≤ℤ begin }
    requires begin_high { begin ≤ℤ pos (2 ^ 31) }
    requires end_low { neg_ℤ (pos (2 ^ 31)) ≤ℤ end_time }
    requires end_high { end_time ≤ℤ pos (2 ^ 31) }
    ensures { (day : ℤ) → seconds_on (local clock.now offset) day begin end_time ≡ span_on day result.begin result.end_time }
{
    let ahead = i64::from(ahead_after(clock, count, offset));
    Span {
        begin: begin + ahead,
        end_time: end_time + ahead,
    }
}

/// The start of the row at a place, or a second after all that records can have.
fn start_of(rows: &[Row], row: usize) -> i64
    ensures value { result ≡ start_of rows.now row }
    ensures low { neg_ℤ (pos (2 ^ 31)) ≤ℤ result }
    ensures high { result ≤ℤ pos (2 ^ 31) }
{
    match rows.get(row) {
        Some(row) => i64::from(row.from),
        None => AFTER_ALL,
    }
}

/// The local time of a whole row.
pub(crate) fn row_span(clock: &Clock, offset: i32, row: usize) -> Span
    requires offset_in { IsOffset offset }
    requires row_in { row < length clock.now.rows }
    ensures { (day : ℤ) → seconds_since (local clock.now offset) clock.now.rows day row
        ≡ span_on day result.begin result.end_time + seconds_since (local clock.now offset) clock.now.rows day (row + 1) }
{
    let rows = clock.rows();
    let begin = start_of(rows, row);
    span_in(clock, offset, row + 1, begin, start_of(rows, row + 1))
}

/// The row in which a session ends, where it begins in an earlier one, by how many have begun at its start and at its end.
fn later_row(begun: usize, begun_later: usize) -> Option<usize>
    ensures { MatchOption result (begun_later ≤ begun) (λ row. (row + 1 ≡ begun_later) × (begun ≤ row)) }
{
    if begun < begun_later {
        Some(begun_later - 1)
    } else {
        None
    }
}

impl Cut {
    /// Cuts a session by a clock with a question's offset in minutes.
    pub(crate) fn of(clock: &Clock, offset: i32, session: &Session) -> Cut
        requires { IsOffset offset }
        ensures one { IfNone result.rest ((day : ℤ) → seconds_on (local clock.now offset) day session.now.begin session.now.end_time
            ≡ span_on day result.first.begin result.first.end_time) }
        ensures several { IfSome result.rest (λ rest. (day : ℤ)
            → seconds_on (local clock.now offset) day session.now.begin session.now.end_time + seconds_since (local clock.now offset) clock.now.rows day rest.to
            ≡ span_on day result.first.begin result.first.end_time + span_on day rest.last.begin rest.last.end_time
            + seconds_since (local clock.now offset) clock.now.rows day rest.from) }
        ensures from_in { IfSome result.rest (λ rest. rest.from < length clock.now.rows) }
        ensures to_in { IfSome result.rest (λ rest. rest.to < length clock.now.rows) }
        ensures days { (day : ℤ) → 0 < seconds_on (local clock.now offset) day session.now.begin session.now.end_time → IsDay day }
    {
        let rows = clock.rows();
        let begin = i64::from(session.begin);
        let end_time = i64::from(session.end_time);
        let from = clock.count_at(session.begin);
        let to = clock.count_at(session.end_time);
        match later_row(from, to) {
            Some(last) => Cut {
                first: span_in(clock, offset, from, begin, start_of(rows, from)),
                rest: Some(Rest {
                    last: span_in(clock, offset, to, start_of(rows, last), end_time),
                    from,
                    to: last,
                }),
            },
            None => Cut {
                first: span_in(clock, offset, from, begin, end_time),
                rest: None,
            },
        }
    }
}
