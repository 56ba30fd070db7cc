//! What is found of a file.
ghost use Rattle.std.specs.Prelude.{◌≡◌, ◌≤◌, IfErr, IfOk, IfSome, OnOk, length, take};
ghost use Rattle.std.specs.Io.KnownBytes.{prepend_known};
ghost use Rattle.tally_check.specs.Findings as Spec;
ghost use Rattle.tally_check.specs.Kinds as Kind;
ghost use Rattle.tally_check.specs.inside.Endings as Inside;

use crate::counts::Counts;
use crate::fault::CheckFault;
use crate::kind::{FileKind, Guess, guess_of, login_kind};
use crate::reading::{count_all, fill};
use crate::stays::{Sessions, weighed};
use crate::steps::Steps;
use crate::tally::{Tally, no_tally};
use std::alloc::Global;
use std::hash::RandomState;
use std::io::{self, Read};
use tally_kinds::{FRONT_SIZE, Looks};
use tally_records::{LOGIN_SIZE, PROC_SIZE};
use tally_sessions::{ENTRY_LIMIT, Sessions as Kept};

/// What is found of a file of login records, as wtmp and btmp files have them.
#[derive(Clone, Copy, Debug, PartialEq, Eq)]
pub struct LoginFindings {
    pub counts: Counts,
    /// How many records there are of each type of utmp(5), 0 to 9.
    pub types: [usize; 10],
    pub steps: Steps,
    pub sessions: Sessions,
    /// How many bytes stand after the last whole record.
    pub rest: usize,
}

/// What is found of a file of process records, acct(5).
#[derive(Clone, Copy, Debug, PartialEq, Eq)]
pub struct ProcFindings {
    pub counts: Counts,
    pub version_2: usize,
    pub version_3: usize,
    /// How many bytes stand after the last whole record.
    pub rest: usize,
}

/// What a file has, by its kind.
#[derive(Clone, Copy, Debug, PartialEq, Eq)]
pub enum Content {
    Logins(LoginFindings),
    Processes(ProcFindings),
    /// No records that are read.
    Other(Looks),
}

/// What is found of a file.
#[derive(Clone, Copy, Debug, PartialEq, Eq)]
pub struct Findings {
    /// Its size in bytes.
    pub size: u64,
    pub content: Content,
}

fn login_findings(tally: &Tally, kept: &Kept) -> LoginFindings
    requires host { kept.now.hosts ≡ 1 }
    requires few { length kept.now.entries ≤ ENTRY_LIMIT }
    ensures { result ≡ Inside.logins_counted tally.now kept.now }
{
    LoginFindings {
        counts: tally.logins.counts,
        types: tally.logins.types,
        steps: tally.logins.walk.steps,
        sessions: weighed(kept),
        rest: (tally.size % LOGIN_SIZE as u64) as usize,
    }
}

fn proc_findings(tally: &Tally) -> ProcFindings
    ensures { result ≡ Inside.procs_counted tally.now }
{
    ProcFindings {
        counts: tally.procs.counts,
        version_2: tally.procs.version_2,
        version_3: tally.procs.version_3,
        rest: (tally.size % PROC_SIZE as u64) as usize,
    }
}

/// The kind that most of a damaged file's records have.
fn damaged_kind(tally: &Tally) -> FileKind
    ensures { result ≡ Inside.damaged_counted tally.now }
{
    if tally.logins.counts.unknown.count < tally.logins.typed {
        return FileKind::Logins;
    }
    if tally.procs.counts.unknown.count < tally.procs.typed {
        return FileKind::Processes;
    }
    FileKind::Other(Looks::Unknown)
}

/// The kind of a file that begins so.
fn kind_of(front: &[u8], tally: &Tally) -> FileKind
    ensures { result ≡ Inside.kind_counted front.now tally.now }
{
    match tally.guess {
        Guess::Logins => login_kind(front, tally.size),
        Guess::Processes => FileKind::Processes,
        Guess::Damaged => damaged_kind(tally),
        Guess::Other(looks) => FileKind::Other(looks),
    }
}

fn content_of(kind: FileKind, tally: &Tally, kept: &Kept) -> Content
    requires host { kept.now.hosts ≡ 1 }
    requires few { length kept.now.entries ≤ ENTRY_LIMIT }
    ensures { result ≡ Inside.content_counted kind tally.now kept.now }
{
    match kind {
        FileKind::Logins => Content::Logins(login_findings(tally, kept)),
        FileKind::Processes => Content::Processes(proc_findings(tally)),
        FileKind::Other(looks) => Content::Other(looks),
    }
}

/// What is found of a file that begins so, by what was counted of all of it.
fn findings_of(front: &[u8], tally: &Tally, kept: &Kept) -> Findings
    requires host { kept.now.hosts ≡ 1 }
    requires few { length kept.now.entries ≤ ENTRY_LIMIT }
    ensures { result ≡ Inside.found front.now tally.now kept.now }
{
    Findings {
        size: tally.size,
        content: content_of(kind_of(front, tally), tally, kept),
    }
}

/// What is found of a file that begins so, and goes on as the reader does.
fn check_front<R: Read + Drop>(
    alloc: Global,
    keys: RandomState,
    front: &[u8],
    rest: R,
) -> Result<Findings, CheckFault>
    requires front { IfSome (prepend_known front.now (R.remaining rest)) (λ bytes. front.now ≡ take FRONT_SIZE bytes) }
    ensures value { IfOk result (λ found. IfSome (prepend_known front.now (R.remaining rest)) (λ bytes. found ≡ Spec.findings_of bytes)) }
    ensures few { OnOk result (IfSome (prepend_known front.now (R.remaining rest)) (λ bytes. length bytes ≤ Kind.most_of bytes)) }
    ensures fault { IfErr result (Kind.IsCheckFault (prepend_known front.now (R.remaining rest))) }
{
    let mut kept = Kept::new(alloc, keys, 1)?;
    let mut tally = no_tally(guess_of(front));
    let mut whole = front.chain(rest);
    count_all(alloc, &mut whole, &mut tally, &mut kept)?;
    Ok(findings_of(front, &tally, &kept))
}

/// What is found of the file that a reader has left: it is read by blocks, and none is kept. Records that say nothing are counted and
/// passed over.
///
/// It errs where memory runs out, where a read fails, and where a file has too many records: more than 1,048,576 login records,
/// or 268,435,456 process records. One whose front shows no kind may have as many bytes as login records may. The tables of names are hashed by the keys.
pub fn check<R: Read + Drop>(
    alloc: Global,
    keys: RandomState,
    mut reader: R,
) -> Result<Findings, CheckFault>
    ensures value { IfOk result (λ found. IfSome (R.remaining reader) (λ bytes. found ≡ Spec.findings_of bytes)) }
    ensures few { OnOk result (IfSome (R.remaining reader) (λ bytes. length bytes ≤ Kind.most_of bytes)) }
    ensures fault { IfErr result (Kind.IsCheckFault (R.remaining reader)) }
{
    let mut front = [0u8; FRONT_SIZE];
    let filled = fill(&mut reader, &mut front)?;
    if filled < FRONT_SIZE {
        return check_front(alloc, keys, &front[..filled], io::empty());
    }
    check_front(alloc, keys, &front, reader)
}

fn are_doubtful(counts: &Counts) -> bool
    ensures { result ≡ Spec.are_doubtful counts.now }
{
    counts.zeros.all.count > 0 || counts.unknown.count > 0
}

impl Findings {
    /// Whether something makes totals over the file doubtful.
    pub fn is_doubtful(&self) -> bool
        ensures { result ≡ Spec.is_doubtful self.now.content }
    {
        match &self.content {
            Content::Logins(found) => {
                are_doubtful(&found.counts) || found.steps.count > 0 || found.rest > 0
            }
            Content::Processes(found) => are_doubtful(&found.counts) || found.rest > 0,
            Content::Other(Looks::Nothing) => false,
            Content::Other(_) => true,
        }
    }
}
