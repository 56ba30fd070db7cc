//! A clock as a table.
ghost use Rattle.tally_clock.specs.Rows.{IsRising};

use crate::row::Row;
use jiff_core::Offset;
use std::alloc::{AllocError, Global};
use std::marker::Model;

/// The most rows of a clock. A rule has 272, and no zone of the system more.
pub const ROW_LIMIT: usize = 4_096;

/// How far a place's clock is ahead of UTC, in seconds, at each second that a record can have.
#[derive(Drop)]
pub struct Clock {
    first: Offset,
    rows: Vec<Row>,
}

impl Model for Clock {
    ghost use Rattle.tally_clock.specs.Rows.{ClockRows};

    ghost Value = { ClockRows };

    ghost use Rattle.tally_clock.specs.inside.Kept.{rows_of, IsSound};

    ghost view = { rows_of };

    ghost invariant = { IsSound };
}

impl Clock {
    ghost use Rattle.std.specs.Prelude.{◌≡◌, IfOk, int_le, length, vec_len, ◌≤◌};
    ghost use Rattle.tally_clock.specs.Rows.{count_at, offset_after, offset_at, utc};

    /// The clock of UTC, which has no rows.
    pub fn utc(alloc: Global) -> Clock
        ensures { result ≡ utc }
    {
        Clock {
            first: Offset::UTC,
            rows: Vec::new(alloc),
        }
    }

    /// A clock from its rows.
    pub(crate) fn from_rows(first: Offset, rows: Vec<Row>) -> Clock
        requires rising { IsRising rows.items }
        requires few { vec_len rows ≤ ROW_LIMIT }
        ensures { result ≡ record { first = first; rows = rows.items } }
    {
        Clock { first, rows }
    }

    /// An equal clock.
    pub fn try_copy(&self, alloc: Global) -> Result<Clock, AllocError>
        ensures { IfOk result (λ copy. copy ≡ self.now) }
    {
        let mut rows = Vec::new(alloc);
        rows.extend_from_slice(self.rows.as_slice())?;
        Ok(Clock {
            first: self.first,
            rows,
        })
    }

    /// The offset before the first row.
    pub fn first(&self) -> Offset
        ensures { result ≡ self.now.first }
    {
        self.first
    }

    /// The rows, in order of the seconds from which they hold.
    pub fn rows(&self) -> &[Row]
        ensures value { result.now ≡ self.now.rows }
        ensures rising { IsRising self.now.rows }
        ensures few { length self.now.rows ≤ ROW_LIMIT }
    {
        self.rows.as_slice()
    }

    /// How many rows have begun at a second.
    pub fn count_at(&self, time: i32) -> usize
        ensures value { result ≡ count_at self.now.rows time }
        ensures bound { result ≤ length self.now.rows }
    {
        self.rows.as_slice().partition_point(
            |row: &Row| -> bool
                ensures { result ≡ int_le row.now.from time }
            { row.from <= time },
        )
    }

    /// The offset after so many rows have begun.
    pub fn offset_after(&self, count: usize) -> Offset
        requires { count ≤ length self.now.rows }
        ensures { result ≡ offset_after self.now.first self.now.rows count }
    {
        if count == 0 {
            self.first
        } else {
            self.rows[count - 1].offset
        }
    }

    /// The offset at a second.
    pub fn offset_at(&self, time: i32) -> Offset
        ensures { result.seconds ≡ offset_at self.now time }
    {
        self.offset_after(self.count_at(time))
    }
}
