//! What kinds of files are called.
ghost use Rattle.std.specs.Prelude.{◌≡◌, nat_lt, option_map};
ghost use Rattle.tally_check_text.specs.Kinds as Spec;

use crate::origin::Origin;
use tally_check::{Content, LoginFindings, ProcFindings};
use tally_kinds::Looks;

/// What a file without records that are read has.
fn other_name(looks: Looks) -> &'static [u8]
    ensures { result.now ≡ Spec.other_name looks }
{
    match looks {
        Looks::Nothing => b"empty",
        Looks::Gzip => b"packed by gzip",
        Looks::Xz => b"packed by xz",
        Looks::Zstd => b"packed by zstd",
        Looks::Bzip2 => b"packed by bzip2",
        Looks::Sqlite => b"an SQLite database, as of wtmpdb",
        Looks::FailedLogins | Looks::Logins => b"login records",
        Looks::Logins400 => b"login records of 400 bytes, as 64-bit ARM and s390x write them",
        Looks::BigEndianLogins => b"login records of a big-endian machine",
        Looks::Processes => b"process records",
        Looks::BigEndianProcesses => b"process records of a big-endian machine",
        Looks::Lastlog => b"the last login of each user, as lastlog(8) shows it",
        Looks::Savacct => b"the sums by command of sa(8), as savacct keeps them",
        Looks::Usracct => b"the sums by user of sa(8), as usracct keeps them",
        Looks::Text => b"text",
        Looks::Unknown => b"of no known kind",
    }
}

/// What unpacks a packed file.
pub(crate) fn unpacker(looks: Looks) -> Option<&'static [u8]>
    ensures { option_map (λ name. name.now) result ≡ Spec.unpacker looks }
{
    match looks {
        Looks::Gzip => Some(b"zcat"),
        Looks::Xz => Some(b"xzcat"),
        Looks::Zstd => Some(b"zstdcat"),
        Looks::Bzip2 => Some(b"bzcat"),
        _ => None,
    }
}

fn are_none(counts: &[usize]) -> bool
    ensures { result ≡ Spec.are_none counts.now }
{
    counts.iter().all(|count| *count == 0)
}

/// Whether no record has a type that a file of failed logins has not.
fn has_no_other(types: &[usize; 10]) -> bool
    ensures { result ≡ Spec.has_no_other types.now }
{
    are_none(&types[1..6]) && are_none(&types[8..10])
}

/// Whether all records of a file are of types that failed logins have, and some is.
fn may_be_failed(found: &LoginFindings) -> bool
    ensures { result ≡ Spec.may_be_failed found.now }
{
    (found.types[6] > 0 || found.types[7] > 0) && has_no_other(&found.types)
}

fn logins_name(found: &LoginFindings) -> &'static [u8]
    ensures { result.now ≡ Spec.logins_name found.now }
{
    if may_be_failed(found) {
        b"login records, maybe failed logins"
    } else {
        b"login records"
    }
}

/// Process records by their versions.
fn versions_name(two: bool, three: bool) -> &'static [u8]
    ensures { result.now ≡ Spec.versions_name two three }
{
    match (two, three) {
        (true, true) => b"process records, versions 2 and 3",
        (true, false) => b"process records, version 2",
        (false, true) => b"process records, version 3",
        (false, false) => b"process records",
    }
}

fn procs_name(found: &ProcFindings) -> &'static [u8]
    ensures { result.now ≡ Spec.procs_name found.now }
{
    versions_name(found.version_2 > 0, found.version_3 > 0)
}

/// What a file has, by its bytes.
fn content_name(content: &Content) -> &'static [u8]
    ensures { result.now ≡ Spec.content_name content.now }
{
    match content {
        Content::Logins(found) => logins_name(found),
        Content::Processes(found) => procs_name(found),
        Content::Other(looks) => other_name(*looks),
    }
}

/// What a file has, or what was made of it.
pub(crate) fn kind_name(origin: Origin<'_>, content: &Content) -> &'static [u8]
    ensures { result.now ≡ Spec.kind_name origin.entry content.now }
{
    match origin {
        Origin::File | Origin::Refused(_) => content_name(content),
        Origin::Database => b"login records of a database",
    }
}

fn looks_word(looks: Looks) -> &'static [u8]
    ensures { result.now ≡ Spec.looks_word looks }
{
    match looks {
        Looks::Nothing => b"empty",
        Looks::Gzip => b"gzip",
        Looks::Xz => b"xz",
        Looks::Zstd => b"zstd",
        Looks::Bzip2 => b"bzip2",
        Looks::Sqlite => b"sqlite",
        Looks::FailedLogins | Looks::Logins => b"login",
        Looks::Logins400 => b"login_400",
        Looks::BigEndianLogins => b"login_big_endian",
        Looks::Processes => b"process",
        Looks::BigEndianProcesses => b"process_big_endian",
        Looks::Lastlog => b"lastlog",
        Looks::Savacct => b"savacct",
        Looks::Usracct => b"usracct",
        Looks::Text => b"text",
        Looks::Unknown => b"unknown",
    }
}

/// What a file has, by its bytes, in one word.
fn content_word(content: &Content) -> &'static [u8]
    ensures { result.now ≡ Spec.content_word content.now }
{
    match content {
        Content::Logins(_) => b"login",
        Content::Processes(_) => b"process",
        Content::Other(looks) => looks_word(*looks),
    }
}

/// What a file has, or what was made of it, in one word.
pub(crate) fn kind_word(origin: Origin<'_>, content: &Content) -> &'static [u8]
    ensures { result.now ≡ Spec.kind_word origin.entry content.now }
{
    match origin {
        Origin::File | Origin::Refused(_) => content_word(content),
        Origin::Database => b"wtmpdb",
    }
}
