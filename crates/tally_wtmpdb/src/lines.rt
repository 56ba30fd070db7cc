//! Which sessions have a line with a mark, since another session on their TTY is open, and which logouts end a session.
ghost use Rattle.std.specs.Prelude.{◌≡◌, ◌<◌, ◌+◌, ◌-◌, ◌^◌, ◌==◌, ◌||◌, ◌&&◌, ℕ, List, IfOk, OnOk, None, Some, [], bytes_eq, if◌then◌else◌, is_some, length, map, nat_lt, slice_get, take};
ghost use Rattle.std.specs.List.{range_with_len};
ghost use Rattle.tally_wtmpdb.specs.Lines as Spec;
ghost use Rattle.tally_wtmpdb.specs.Lines.{open_logins};
ghost use Rattle.tally_wtmpdb.specs.Moments.{AreInOrder};
ghost use Rattle.tally_wtmpdb.specs.Moments as Of;
ghost use Rattle.tally_wtmpdb.specs.inside.Open.{IsKept, count_in, mark_in};

use crate::field::name;
use crate::moment::{Moment, What};
use crate::row::{row_at, tty};
use sqlite_value::row::Row;
use std::alloc::{AllocError, AllocFailed, Global};
use std::collections::BTreeMap;
use tally_records::Name;

/// The sessions that are open.
#[derive(Drop)]
pub(crate) struct OpenSessions {
    /// Whether the line of each has a mark, by the place of its row.
    marks: BTreeMap<usize, bool>,
    /// How many there are on each text; 0 may be left of those that ended.
    counts: BTreeMap<Name, usize>,
}

fn has_mark(text: &Name) -> bool
    ensures { result ≡ Spec.has_mark text.now }
{
    text.iter().any(|byte| *byte == b'#')
}

impl OpenSessions {
    /// None is open.
    fn new(alloc: Global) -> OpenSessions
        ensures marks { (place : ℕ) → mark_in result place ≡ None }
        ensures counts { (text : List ℕ) → count_in result text ≡ 0 }
    {
        OpenSessions {
            marks: BTreeMap::new(alloc),
            counts: BTreeMap::new(alloc),
        }
    }

    /// How many sessions on a text are open.
    fn count(&self, text: &Name) -> usize
        ensures { result ≡ count_in self.now text.now }
    {
        self.counts.get(text).copied().unwrap_or(0)
    }

    /// Opens the session of the row at a place, and answers whether its line has a mark.
    fn begin(&mut self, text: Name, place: usize) -> Result<bool, AllocError>
        requires { count_in self.old text + 1 < 2 ^ 64 }
        ensures marked { IfOk result (λ marked. marked ≡ (Spec.has_mark text || nat_lt 0 (count_in self.old text))) }
        ensures marks { IfOk result (λ marked. (other : ℕ) → mark_in self.new other ≡ (if place == other then Some marked else mark_in self.old other)) }
        ensures counts { OnOk result ((other : List ℕ) → count_in self.new other ≡ (if bytes_eq text other then count_in self.old text + 1 else count_in self.old other)) }
    {
        let count = self.count(&text);
        let marked = has_mark(&text) || count > 0;
        self.counts.insert(text, count + 1)?;
        self.marks.insert(place, marked)?;
        Ok(marked)
    }

    /// Closes the session of the row at a place where it is open, and answers whether its line has a mark.
    fn end(&mut self, text: Name, place: usize) -> Result<Option<bool>, AllocError>
        ensures value { IfOk result (λ mark. mark ≡ mark_in self.old place) }
        ensures marks { OnOk result ((other : ℕ) → mark_in self.new other ≡ (if place == other then None else mark_in self.old other)) }
        ensures counts { OnOk result ((other : List ℕ) → count_in self.new other ≡ (if is_some (mark_in self.old place) && bytes_eq text other then count_in self.old text - 1 else count_in self.old other)) }
    {
        let mark = self.marks.remove(&place);
        if mark.is_some() {
            let count = self.count(&text);
            self.counts.insert(text, count.saturating_sub(1))?;
        }
        Ok(mark)
    }

    /// Closes all sessions.
    fn end_all(&mut self, alloc: Global)
        ensures marks { (place : ℕ) → mark_in self.new place ≡ None }
        ensures counts { (text : List ℕ) → count_in self.new text ≡ 0 }
    {
        *self = OpenSessions::new(alloc);
    }
}

/// What the sessions that are open become at a moment, and whether the line of its record has a mark; `None` for no record.
fn pass(
    alloc: Global,
    sessions: &mut OpenSessions,
    rows: &[Row],
    none: &Row,
    moments: &[Moment],
    index: usize,
) -> Result<Option<bool>, AllocError>
    requires none { none.now ≡ [] }
    requires within { index < length moments.now }
    requires ordered { AreInOrder (Of.moments rows.now) moments.now }
    requires kept { IsKept rows.now moments.now (open_logins (take index moments.now)) sessions.old }
    ensures value { IfOk result (λ mark. mark ≡ Spec.mark_at rows.now moments.now index) }
    ensures kept { OnOk result (IsKept rows.now moments.now (open_logins (take (index + 1) moments.now)) sessions.new) }
{
    let moment = moments[index];
    match moment.what {
        What::Login => {
            let text = name(tty(row_at(rows, none, moment.place)));
            Ok(Some(sessions.begin(text, moment.place)?))
        }
        What::Logout | What::LogoutAtOnce => {
            let text = name(tty(row_at(rows, none, moment.place)));
            sessions.end(text, moment.place)
        }
        What::Boot | What::Down => {
            sessions.end_all(alloc);
            Ok(Some(false))
        }
    }
}

fn push_marks(
    alloc: Global,
    marks: &mut Vec<Option<bool>>,
    rows: &[Row],
    none: &Row,
    moments: &[Moment],
) -> Result<(), AllocError>
    requires empty { marks.old.items ≡ [] }
    requires none { none.now ≡ [] }
    requires ordered { AreInOrder (Of.moments rows.now) moments.now }
    ensures { OnOk result (marks.new.items ≡ map (Spec.mark_at rows.now moments.now) (range_with_len 0 (length moments.now))) }
{
    let mut sessions = OpenSessions::new(alloc);
    for index in 0..moments.len() {
        let mark = pass(alloc, &mut sessions, rows, none, moments, index)?;
        marks.push(mark)?;
    }
    Ok(())
}

/// Whether the line of each moment's record has a mark, or `None` where the moment has no record.
pub(crate) fn marks(
    alloc: Global,
    rows: &[Row],
    none: &Row,
    moments: &[Moment],
) -> Result<Vec<Option<bool>>, AllocError>
    requires none { none.now ≡ [] }
    requires ordered { AreInOrder (Of.moments rows.now) moments.now }
    ensures { IfOk result (λ marks. marks.items ≡ map (Spec.mark_at rows.now moments.now) (range_with_len 0 (length moments.now))) }
{
    let mut marks = Vec::new(alloc);
    push_marks(alloc, &mut marks, rows, none, moments)?;
    Ok(marks)
}
