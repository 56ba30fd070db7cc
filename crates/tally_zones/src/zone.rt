//! The clock of a zone's word.
ghost use Rattle.std.specs.Prelude.{◌≡◌, IfOk, IfSome, take};
ghost use Rattle.tally_clock.specs.Files.{IsClockOfFile};
ghost use Rattle.tally_clock.specs.Words.{zone_word};
ghost use Rattle.tally_clock.specs.declared.word.ZoneWord.{ZoneWord};
ghost use Rattle.tally_zones.specs.declared.zone.ZoneFault.TheVariants as fault;
ghost use Rattle.tally_zones.specs.Zones.{IsOfText, front_of, of_file_fault, of_rule_fault};

use std::alloc::{AllocError, AllocFailed, Global};
use std::fs;
use std::io::{self, ErrorKind, Read};
use std::rt::Files;
use tally_clock::{
    Clock, FILE_LIMIT, FileFault, RuleFault, ZoneText, ZoneWord, zone_text, zone_word,
};

/// The file of the machine's own zone.
const LOCAL: &str = "/etc/localtime";

/// The folder of zones by name.
const FOLDER: &str = "/usr/share/zoneinfo/";

/// The zone that is there without its file.
const UTC: &str = "UTC";

/// Why a word gives no clock.
#[derive(Clone, Copy, Debug)]
pub enum ZoneFault {
    /// Memory ran out.
    Memory,
    /// It names no file, and is no rule.
    NotFound,
    /// It names what is no time zone file.
    NoZone,
    /// It is an offset from UTC that POSIX reads the other way round.
    Mistaken,
}

impl From<AllocError> for ZoneFault {
    ghost from_gives = { λ _ found. found ≡ fault.Memory };

    fn from(_error: AllocError) -> ZoneFault {
        ZoneFault::Memory
    }
}

impl<T: Drop> From<AllocFailed<T>> for ZoneFault {
    ghost from_gives = { λ _ found. found ≡ fault.Memory };

    fn from(_error: AllocFailed<T>) -> ZoneFault {
        ZoneFault::Memory
    }
}

impl From<FileFault> for ZoneFault {
    ghost from_gives = { λ found fault. fault ≡ of_file_fault found };

    fn from(found: FileFault) -> ZoneFault {
        match found {
            FileFault::Memory => ZoneFault::Memory,
            _ => ZoneFault::NoZone,
        }
    }
}

impl From<RuleFault> for ZoneFault {
    ghost from_gives = { λ found fault. fault ≡ of_rule_fault found };

    fn from(found: RuleFault) -> ZoneFault {
        match found {
            RuleFault::Memory => ZoneFault::Memory,
            _ => ZoneFault::NotFound,
        }
    }
}

/// The clock of the zone that a word names: `local`, a path, a name as `Europe/Berlin`, or a rule of POSIX. It errs where memory
/// runs out, and where there is no such zone.
pub fn clock_of<R: Files + AllocGlobal>(rt: &R, word: &str) -> Result<Clock, ZoneFault>
where
    R::File: Drop,
    ensures { zone_word word.now ≡ ZoneWord.Text → IsOfText word.now result }
{
    match zone_word(word) {
        ZoneWord::Local => clock_of_machine(rt),
        ZoneWord::Path => match fs::open(rt, word) {
            Ok(file) => clock_read(rt.alloc(), file),
            Err(_) => Err(ZoneFault::NotFound),
        },
        ZoneWord::Name => clock_of_name(rt, word),
        ZoneWord::Text => clock_of_text(rt.alloc(), word),
    }
}

/// The machine's clock: UTC where it names no zone.
fn clock_of_machine<R: Files + AllocGlobal>(rt: &R) -> Result<Clock, ZoneFault>
where
    R::File: Drop,
{
    match fs::open(rt, LOCAL) {
        Ok(file) => clock_read(rt.alloc(), file),
        Err(_) => Ok(Clock::utc(rt.alloc())),
    }
}

/// The clock of the file that has a name, and else of the name as a text. UTC needs no file.
fn clock_of_name<R: Files + AllocGlobal>(rt: &R, name: &str) -> Result<Clock, ZoneFault>
where
    R::File: Drop,
{
    let path = format!(in rt.alloc(); "{FOLDER}{name}")?;
    match fs::open(rt, path.as_str()) {
        Ok(file) => clock_read(rt.alloc(), file),
        Err(_) if name == UTC => Ok(Clock::utc(rt.alloc())),
        Err(_) => clock_of_text(rt.alloc(), name),
    }
}

/// The clock of a word that names no file.
fn clock_of_text(alloc: Global, text: &str) -> Result<Clock, ZoneFault>
    ensures { IsOfText text.now result }
{
    match zone_text(text) {
        ZoneText::MistakenOffset => Err(ZoneFault::Mistaken),
        ZoneText::Rule => Ok(Clock::of_rule(alloc, text.as_bytes())?),
    }
}

/// The clock of the time zone file that a reader has left.
fn clock_read<F: Read + Drop>(alloc: Global, file: F) -> Result<Clock, ZoneFault>
    ensures { IfOk result (λ clock. IfSome (F.remaining file) (λ bytes. IsClockOfFile bytes clock)) }
{
    match front(alloc, file) {
        Ok(bytes) => Ok(Clock::of_file(alloc, bytes.as_slice())?),
        Err(error) if error.kind() == ErrorKind::OutOfMemory => Err(ZoneFault::Memory),
        Err(_) => Err(ZoneFault::NoZone),
    }
}

/// As much of a file as shows whether it is too large: another may have no end.
fn front<F: Read + Drop>(alloc: Global, file: F) -> io::Result<Vec<u8>>
    ensures { IfOk result (λ bytes. IfSome (F.remaining file) (λ all. bytes.items ≡ front_of all)) }
{
    read_up_to(alloc, file, FILE_LIMIT as u64 + 1)
}

/// The bytes that a reader has left, up to a limit.
fn read_up_to<F: Read + Drop>(alloc: Global, file: F, limit: u64) -> io::Result<Vec<u8>>
    ensures { IfOk result (λ bytes. IfSome (F.remaining file) (λ all. bytes.items ≡ take limit all)) }
{
    let mut bytes = Vec::new(alloc);
    file.take(limit).read_to_end(&mut bytes)?;
    Ok(bytes)
}
