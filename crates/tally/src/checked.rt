//! What is found of the file of a path: of its own bytes, or of the login records that are made of it where it is a database.
ghost use Rattle.std.specs.Prelude.{◌≡◌, IfErr, IfOk, ⊤};
ghost use Rattle.tally.specs.Checked.{IsOfPath, TellsFault};
ghost use Rattle.tally_check.specs.Findings.{findings_of};

use crate::checking::{Checked, Checks, NotChecked, Records};
use crate::opened::open;
use std::fs;
use std::hash::RandomState;
use std::io::Cursor;
use std::rt::{Clock, Files};
use tally_check::{CheckFault, Findings, check};
use tally_terminal::{Followed, Progress};
use tally_wtmpdb::{DatabaseFault, logins_in};

/// The most login records of a database that are checked, as many as of a file.
const RECORD_LIMIT: usize = 1_048_576;

/// What checks the files of the system.
#[derive(Clone, Copy)]
pub(crate) struct Checker<'p, 'r, R> {
    pub(crate) rt: &'r R,
    pub(crate) progress: &'p Progress<'r, R>,
    pub(crate) keys: RandomState,
}

/// Why the file of a path was not checked.
fn not_checked(path: &str, found: CheckFault) -> NotChecked<'_>
    ensures path { IsOfPath path.now result }
    ensures fault { TellsFault path.now found result }
{
    match found {
        CheckFault::Memory => NotChecked::Memory,
        found => NotChecked::Fault(path, found),
    }
}

impl<R> Checker<'_, '_, R>
where
    R: Files + Input + Eprint + Clock + AllocGlobal,
    R::File: Drop,
    R::Reader: Drop,
{
    /// What is found of the bytes of the file of a path.
    fn findings_of<'a>(&self, path: &'a str) -> Result<Findings, NotChecked<'a>>
        ensures { IfErr result (IsOfPath path.now) }
    {
        let Some(opened) = open(self.rt, path) else {
            return Err(NotChecked::NotOpened(path));
        };
        let followed = Followed::new(opened, self.progress, None, path);
        match check(self.rt.alloc(), self.keys, followed) {
            Ok(findings) => Ok(findings),
            Err(found) => Err(not_checked(path, found)),
        }
    }

    /// What is found of the login records that were made of the database of a path, whose own size is said.
    fn findings_made<'a>(&self, path: &'a str, records: Vec<u8>) -> Result<Findings, NotChecked<'a>>
        ensures made { IfOk result (λ found. found.content ≡ (findings_of records.items).content) }
        ensures refused { IfErr result (IsOfPath path.now) }
    {
        let Ok(file) = fs::metadata(self.rt, path) else {
            return Err(NotChecked::Fault(path, CheckFault::Read));
        };
        match check(self.rt.alloc(), self.keys, Cursor::new(records)) {
            Ok(mut findings) => {
                findings.size = file.len();
                Ok(findings)
            }
            Err(found) => Err(not_checked(path, found)),
        }
    }
}

impl<R> Checks for Checker<'_, '_, R>
where
    R: Files + Input + Eprint + Clock + AllocGlobal,
    R::File: Drop,
    R::Reader: Drop,
{
    // The system tells no bytes of a file.
    ghost finds = { λ _ _ _. ⊤ };

    ghost refuses = { λ _ path fault. IsOfPath path fault };

    fn check_path<'a>(&self, path: &'a str) -> Result<Checked, NotChecked<'a>> {
        let alloc = self.rt.alloc();
        match logins_in(self.rt, alloc, path, RECORD_LIMIT) {
            Ok(Some(records)) => Ok(Checked {
                records: Records::Made,
                findings: self.findings_made(path, records)?,
            }),
            Ok(None) => Ok(Checked {
                records: Records::Own,
                findings: self.findings_of(path)?,
            }),
            Err(DatabaseFault::Memory) => Err(NotChecked::Memory),
            Err(DatabaseFault::NotRead) => Err(NotChecked::Fault(path, CheckFault::Read)),
            Err(found) => Ok(Checked {
                records: Records::NotMade(format!(in alloc; "{found}")?),
                findings: self.findings_of(path)?,
            }),
        }
    }
}
