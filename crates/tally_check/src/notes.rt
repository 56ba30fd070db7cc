//! What is noted of records, one after another.
ghost use Rattle.std.specs.Prelude.{◌≡◌, ◌≤◌, ◌<◌, ◌+◌, ◌++◌, [], List, ℕ, length, slice_index};
ghost use Rattle.tally_check.specs.inside.Notes as Inside;

use crate::counts::{Counts, no_counts, with_seen};
use crate::logins::good_login;
use crate::seen::{Seen, is_of_kind, is_typed, seen_login, seen_proc};
use crate::steps::{Walk, after_if, no_walk};
use tally_records::{LOGIN_SIZE, PROC_SIZE};

/// What is noted of login records.
#[derive(Clone, Copy)]
pub(crate) struct LoginNotes {
    pub counts: Counts,
    /// Those of a type other than 0.
    pub typed: usize,
    /// How many there are of each type.
    pub types: [usize; 10],
    pub walk: Walk,
}

/// What is noted of process records.
#[derive(Clone, Copy)]
pub(crate) struct ProcNotes {
    pub counts: Counts,
    /// Those of a version other than 0.
    pub typed: usize,
    pub version_2: usize,
    pub version_3: usize,
}

/// What is noted of no login record.
pub(crate) fn no_logins() -> LoginNotes
    ensures { result ≡ Inside.login_notes [] }
{
    LoginNotes {
        counts: no_counts(),
        typed: 0,
        types: [0; 10],
        walk: no_walk(),
    }
}

/// What is noted of no process record.
pub(crate) fn no_procs() -> ProcNotes
    ensures { result ≡ Inside.proc_notes [] }
{
    ProcNotes {
        counts: no_counts(),
        typed: 0,
        version_2: 0,
        version_3: 0,
    }
}

/// The count of a kind, and one more where the record is of it.
fn with_kind(kind: u8, one: &Seen, count: usize) -> usize
    requires { count < Inside.MOST }
    ensures { result ≡ Inside.with_kind kind one.now count }
{
    count + usize::from(is_of_kind(kind, one))
}

/// The counts of types, with one record more.
fn with_type(types: &[usize; 10], one: &Seen) -> [usize; 10]
    requires zero { slice_index types.now 0 < Inside.MOST }
    requires one { slice_index types.now 1 < Inside.MOST }
    requires two { slice_index types.now 2 < Inside.MOST }
    requires three { slice_index types.now 3 < Inside.MOST }
    requires four { slice_index types.now 4 < Inside.MOST }
    requires five { slice_index types.now 5 < Inside.MOST }
    requires six { slice_index types.now 6 < Inside.MOST }
    requires seven { slice_index types.now 7 < Inside.MOST }
    requires eight { slice_index types.now 8 < Inside.MOST }
    requires nine { slice_index types.now 9 < Inside.MOST }
    ensures { result ≡ Inside.with_type types.now one.now }
{
    [
        with_kind(0, one, types[0]),
        with_kind(1, one, types[1]),
        with_kind(2, one, types[2]),
        with_kind(3, one, types[3]),
        with_kind(4, one, types[4]),
        with_kind(5, one, types[5]),
        with_kind(6, one, types[6]),
        with_kind(7, one, types[7]),
        with_kind(8, one, types[8]),
        with_kind(9, one, types[9]),
    ]
}

/// The notes with one login record more.
fn with_login(notes: &LoginNotes, bytes: &[u8; LOGIN_SIZE]) -> LoginNotes
    requires { Inside.AreFewLogins notes.now }
    ensures { result ≡ Inside.with_login notes.now bytes.now }
{
    let login = good_login(bytes);
    let seen = seen_login(bytes, &login);
    LoginNotes {
        counts: with_seen(&notes.counts, &seen),
        typed: notes.typed + usize::from(is_typed(&seen)),
        types: with_type(&notes.types, &seen),
        walk: after_if(&notes.walk, &login),
    }
}

/// The notes with one process record more.
fn with_proc(notes: &ProcNotes, bytes: &[u8; PROC_SIZE]) -> ProcNotes
    requires { Inside.AreFewProcs notes.now }
    ensures { result ≡ Inside.with_proc notes.now bytes.now }
{
    let seen = seen_proc(bytes);
    ProcNotes {
        counts: with_seen(&notes.counts, &seen),
        typed: notes.typed + usize::from(is_typed(&seen)),
        version_2: with_kind(2, &seen, notes.version_2),
        version_3: with_kind(3, &seen, notes.version_3),
    }
}

/// Notes login records too.
pub(crate) fn note_logins(notes: &mut LoginNotes, records: &[[u8; LOGIN_SIZE]])
    requires few { (before : List (List ℕ)) × (notes.old ≡ Inside.login_notes before) × (length before + length records.now ≤ Inside.MOST) }
    ensures { (before : List (List ℕ)) → notes.old ≡ Inside.login_notes before → notes.new ≡ Inside.login_notes (before ++ records.now) }
{
    for bytes in records {
        *notes = with_login(notes, bytes);
    }
}

/// Notes process records too.
pub(crate) fn note_procs(notes: &mut ProcNotes, records: &[[u8; PROC_SIZE]])
    requires few { (before : List (List ℕ)) × (notes.old ≡ Inside.proc_notes before) × (length before + length records.now ≤ Inside.MOST) }
    ensures { (before : List (List ℕ)) → notes.old ≡ Inside.proc_notes before → notes.new ≡ Inside.proc_notes (before ++ records.now) }
{
    for bytes in records {
        *notes = with_proc(notes, bytes);
    }
}
