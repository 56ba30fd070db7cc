//! The files of a check, checked one after another.
ghost use Rattle.std.specs.Prelude.{◌≡◌, ◌<◌, ◌||◌, ◌⊎◌, IfErr, IfOk, List, ℕ, length};
ghost use Rattle.tally.specs.Checked.{IsFirstNotChecked, IsNotCheckedAt, IsPartAt, IsWithPart, IsWithParts, number_at};
ghost use Rattle.tally.specs.Checks.{IsOriginOf};
ghost use Rattle.tally.specs.declared.checking.Checked.{Checked as Found};
ghost use Rattle.tally.specs.declared.checking.NotChecked.{NotChecked as NotFound};
ghost use Rattle.tally.specs.declared.checking.NotChecked.TheVariants.{Memory};
ghost use Rattle.tally_check.specs.Findings.{is_doubtful};
ghost use Rattle.tally_sessions.specs.Days.{IsOffset, local};

use crate::found::{push_found, push_head};
use std::alloc::AllocError;
use tally_check::{CheckFault, Findings};
use tally_check_text::Origin;
use tally_clock::Clock;
use tally_line::Check;

/// Where the records that were checked come from.
#[derive(Drop)]
pub(crate) enum Records {
    /// The file itself.
    Own,
    /// The database that the file is.
    Made,
    /// The file is a database of which none were made, and is checked itself: this is why.
    NotMade(String),
}

impl Records {
    /// The same, as it is printed.
    pub(crate) fn origin(&self) -> Origin<'_>
        ensures { IsOriginOf self.now result }
    {
        match self {
            Records::Own => Origin::File,
            Records::Made => Origin::Database,
            Records::NotMade(why) => Origin::Refused(why.as_str()),
        }
    }
}

/// What is found of a file.
#[derive(Drop)]
pub(crate) struct Checked {
    pub(crate) records: Records,
    pub(crate) findings: Findings,
}

/// Why the files were not all checked.
#[derive(Drop)]
pub(crate) enum NotChecked<'a> {
    Memory,
    /// The file of this path could not be opened.
    NotOpened(&'a str),
    /// The file of this path could not be checked. This is no want of memory.
    Fault(&'a str, CheckFault),
}

impl<'a> From<AllocError> for NotChecked<'a> {
    ghost from_gives = { λ _ fault. fault ≡ Memory };

    fn from(_error: AllocError) -> NotChecked<'a> {
        NotChecked::Memory
    }
}

/// What checks files by their paths.
pub(crate) trait Checks {
    // Whether this was found of the file of a path.
    ghost finds: { Self → List ℕ → Found → Type 0 };

    // Whether this is why nothing was.
    ghost refuses: { Self → List ℕ → NotFound → Type 0 };

    /// What is found of the file of a path.
    fn check_path<'a>(&self, path: &'a str) -> Result<Checked, NotChecked<'a>>
        ensures found { IfOk result (finds self.now path.now) }
        ensures refused { IfErr result (refuses self.now path.now) };
}

/// The number of the file at a place.
fn number_at(at: usize) -> u32
    requires { at < usize.MAX }
    ensures { result ≡ number_at at }
{
    ((at + 1) % 4_294_967_296) as u32
}

/// Checks the file at a place, and appends what is found of it.
fn push_file<'a, C: Checks>(
    text: &mut Vec<u8>,
    checker: &C,
    asked: &'a Check,
    clock: &Clock,
    at: usize,
) -> Result<Checked, NotChecked<'a>>
    requires offset { IsOffset asked.now.offset }
    requires within { at < length asked.now.files.items }
    ensures found { IfOk result (IsWithPart (C.finds checker.now) asked.now (local clock.now asked.now.offset) at text.old.items text.new.items) }
    ensures refused { IfErr result (λ fault. (fault ≡ Memory) ⊎ IsNotCheckedAt (C.refuses checker.now) asked.now at fault) }
{
    let path = asked.files[at].as_str();
    let checked = checker.check_path(path)?;
    let (origin, findings) = (checked.records.origin(), &checked.findings);
    push_found(text, asked, clock, number_at(at), path, origin, findings)?;
    Ok(checked)
}

/// Whether something is doubtful once what was found of one more file is known.
fn is_doubtful_with(before: bool, checked: &Checked) -> bool
    ensures { result ≡ (before || is_doubtful checked.now.findings.content) }
{
    before || checked.findings.is_doubtful()
}

/// Checks all files in order, up to the first that cannot be checked, appends what is found of them, and says whether one is
/// doubtful. At a fault a first part of the text was appended.
pub(crate) fn check_all<'a, C: Checks>(
    text: &mut Vec<u8>,
    checker: &C,
    asked: &'a Check,
    clock: &Clock,
) -> Result<bool, NotChecked<'a>>
    requires { IsOffset asked.now.offset }
    ensures found { IfOk result (IsWithParts (C.finds checker.now) asked.now (local clock.now asked.now.offset) text.old.items text.new.items) }
    ensures refused { IfErr result (IsFirstNotChecked (C.finds checker.now) (C.refuses checker.now) asked.now (local clock.now asked.now.offset)) }
{
    push_head(text, asked)?;
    let mut is_doubtful = false;
    for at in 0..asked.files.len() {
        let checked = push_file(text, checker, asked, clock, at)?;
        is_doubtful = is_doubtful_with(is_doubtful, &checked);
    }
    Ok(is_doubtful)
}
