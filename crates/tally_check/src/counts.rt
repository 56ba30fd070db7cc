//! Counts over what is seen of the records of a file.
ghost use Rattle.std.specs.Prelude.{◌≡◌, ◌<◌, []};
ghost use Rattle.tally_check.specs.Counts as Spec;
ghost use Rattle.tally_check.specs.inside.Notes as Inside;
ghost use Rattle.tally_check.specs.inside.Spans.{with_one};

use crate::seen::{Seen, is_unknown, is_zeros};

/// Records of one sort: how many there are, and the place of the first, counted from 0.
#[derive(Clone, Copy, Debug, PartialEq, Eq)]
pub struct Found {
    pub count: usize,
    pub first: Option<usize>,
}

/// Records of zeros alone.
#[derive(Clone, Copy, Debug, PartialEq, Eq)]
pub struct Zeros {
    /// All of them.
    pub all: Found,
    /// How many of them no other record follows.
    pub at_end: usize,
}

/// The earliest and the latest second that records name, in seconds since 1970.
#[derive(Clone, Copy, Debug, PartialEq, Eq)]
pub struct Span {
    pub first: i64,
    pub last: i64,
}

/// What is counted over the records of a file.
#[derive(Clone, Copy, Debug, PartialEq, Eq)]
pub struct Counts {
    /// All whole records.
    pub records: usize,
    pub zeros: Zeros,
    /// Records whose type or version is none.
    pub unknown: Found,
    /// The times of all others, where there are any.
    pub span: Option<Span>,
}

const NONE: Found = Found {
    count: 0,
    first: None,
};

/// The counts of no record.
pub(crate) fn no_counts() -> Counts
    ensures { result ≡ Spec.counts_of [] }
{
    Counts {
        records: 0,
        zeros: Zeros {
            all: NONE,
            at_end: 0,
        },
        unknown: NONE,
        span: None,
    }
}

/// One more at a place, where it is of the sort.
fn with_found(found: Found, is_one: bool, at: usize) -> Found
    requires { found.count < Inside.MOST }
    ensures { result ≡ Inside.with_found found is_one at }
{
    if !is_one {
        return found;
    }
    Found {
        count: found.count + 1,
        first: found.first.or(Some(at)),
    }
}

/// One more at a place, where it is of zeros.
fn with_zeros(zeros: Zeros, is_one: bool, at: usize) -> Zeros
    requires all { zeros.all.count < Inside.MOST }
    requires at_end { zeros.at_end < Inside.MOST }
    ensures { result ≡ Inside.with_zeros zeros is_one at }
{
    Zeros {
        all: with_found(zeros.all, is_one, at),
        at_end: if is_one { zeros.at_end + 1 } else { 0 },
    }
}

/// The span with one more second.
fn widened(span: Option<Span>, time: i64) -> Span
    ensures { result ≡ Spec.widened span time }
{
    match span {
        None => Span {
            first: time,
            last: time,
        },
        Some(span) => Span {
            first: span.first.min(time),
            last: span.last.max(time),
        },
    }
}

/// The span with the second that one record more names.
fn with_one(span: Option<Span>, one: &Seen) -> Option<Span>
    ensures { result ≡ with_one span one.now }
{
    match one {
        Seen::Known { time, .. } => Some(widened(span, *time)),
        _ => span,
    }
}

/// The counts with one record more.
pub(crate) fn with_seen(counts: &Counts, one: &Seen) -> Counts
    requires { Inside.AreFew counts.now }
    ensures { result ≡ Inside.with_seen counts.now one.now }
{
    let at = counts.records;
    Counts {
        records: at + 1,
        zeros: with_zeros(counts.zeros, is_zeros(one), at),
        unknown: with_found(counts.unknown, is_unknown(one), at),
        span: with_one(counts.span, one),
    }
}
