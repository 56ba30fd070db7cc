//! The lines of a section on what makes totals doubtful.
ghost use Rattle.std.specs.Prelude.{◌≡◌, ◌++◌, OnOk, codes};
ghost use Rattle.tally_check_text.specs.Kinds.{unpacker};
ghost use Rattle.tally_check_text.specs.SectionText as Spec;

use crate::kinds::unpacker;
use crate::lines::push_number_of;
use crate::numbers::{push_length, push_number};
use crate::origin::Origin;
use crate::paths::push_quoted;
use std::alloc::AllocError;
use tally_check::{Counts, Found, Steps};
use tally_kinds::Looks;

fn push_label(text: &mut Vec<u8>) -> Result<(), AllocError>
    ensures { OnOk result (text.new.items ≡ text.old.items ++ codes "doubtful        ") }
{
    text.extend_from_slice(b"doubtful        ")
}

/// Appends where the first of some records stands, or the only one.
fn push_place(text: &mut Vec<u8>, count: usize, first: usize) -> Result<(), AllocError>
    ensures { OnOk result (text.new.items ≡ text.old.items ++ Spec.place_text count first) }
{
    text.extend_from_slice(if count == 1 {
        b": record "
    } else {
        b": the first is record "
    })?;
    push_number(text, first)
}

/// Appends a line on records of a sort, where there are any.
#[tactic(auto, unfolding(crate::specs::SectionText::found_text))]
fn push_found(
    text: &mut Vec<u8>,
    count: usize,
    first: usize,
    one: &[u8],
    more: &[u8],
) -> Result<(), AllocError>
    ensures { OnOk result (text.new.items ≡ text.old.items ++ Spec.found_text count first one.now more.now) }
{
    if count == 0 {
        return Ok(());
    }
    push_label(text)?;
    push_number_of(text, count, one, more)?;
    push_place(text, count, first)?;
    text.push(b'\n')?;
    Ok(())
}

/// The place of the first record of a sort.
fn place_of(found: Found) -> usize
    ensures { result ≡ Spec.place_of found }
{
    found.first.unwrap_or(0)
}

/// Appends the line on records of zeros alone that other records follow.
fn push_zeros_before(text: &mut Vec<u8>, counts: &Counts) -> Result<(), AllocError>
    ensures { OnOk result (text.new.items ≡ text.old.items ++ Spec.zeros_before_text counts.now) }
{
    let zeros = counts.zeros;
    push_found(
        text,
        zeros.all.count.saturating_sub(zeros.at_end),
        place_of(zeros.all),
        b"record of zeros before other records",
        b"records of zeros before other records",
    )
}

/// Appends the line on those at the end.
fn push_zeros_after(text: &mut Vec<u8>, counts: &Counts) -> Result<(), AllocError>
    ensures { OnOk result (text.new.items ≡ text.old.items ++ Spec.zeros_after_text counts.now) }
{
    push_found(
        text,
        counts.zeros.at_end,
        counts.records.saturating_sub(counts.zeros.at_end),
        b"record of zeros at the end",
        b"records of zeros at the end",
    )
}

/// Appends the lines on records of zeros alone.
pub(crate) fn push_zeros(text: &mut Vec<u8>, counts: &Counts) -> Result<(), AllocError>
    ensures { OnOk result (text.new.items ≡ text.old.items ++ Spec.zeros_text counts.now) }
{
    push_zeros_before(text, counts)?;
    push_zeros_after(text, counts)
}

/// Appends the line on records of no known type.
pub(crate) fn push_no_type(text: &mut Vec<u8>, unknown: Found) -> Result<(), AllocError>
    ensures { OnOk result (text.new.items ≡ text.old.items ++ Spec.no_type_text unknown) }
{
    push_found(
        text,
        unknown.count,
        place_of(unknown),
        b"record of no known type",
        b"records of no known type",
    )
}

/// Appends the line on records of no known version.
pub(crate) fn push_no_version(text: &mut Vec<u8>, unknown: Found) -> Result<(), AllocError>
    ensures { OnOk result (text.new.items ≡ text.old.items ++ Spec.no_version_text unknown) }
{
    push_found(
        text,
        unknown.count,
        place_of(unknown),
        b"record of no known version",
        b"records of no known version",
    )
}

fn push_greatest(text: &mut Vec<u8>, seconds: u64) -> Result<(), AllocError>
    ensures { OnOk result (text.new.items ≡ text.old.items ++ Spec.greatest_text seconds) }
{
    text.extend_from_slice(b" without a clock change, ")?;
    push_length(text, seconds)?;
    text.extend_from_slice(b" at most")
}

/// Appends what is said of steps back, without the line's label and end.
fn push_steps_back(text: &mut Vec<u8>, steps: Steps) -> Result<(), AllocError>
    ensures { OnOk result (text.new.items ≡ text.old.items ++ Spec.steps_back_text steps) }
{
    push_number_of(
        text,
        steps.count,
        b"step back in time",
        b"steps back in time",
    )?;
    push_greatest(text, steps.greatest)
}

/// Appends the line on steps back in time.
pub(crate) fn push_steps(text: &mut Vec<u8>, steps: Steps) -> Result<(), AllocError>
    ensures { OnOk result (text.new.items ≡ text.old.items ++ Spec.steps_text steps) }
{
    if steps.count == 0 {
        return Ok(());
    }
    push_label(text)?;
    push_steps_back(text, steps)?;
    text.push(b'\n')?;
    Ok(())
}

/// Appends the line on the bytes after the last whole record.
pub(crate) fn push_rest(text: &mut Vec<u8>, rest: usize) -> Result<(), AllocError>
    ensures { OnOk result (text.new.items ≡ text.old.items ++ Spec.rest_text rest) }
{
    if rest == 0 {
        return Ok(());
    }
    push_label(text)?;
    push_number_of(text, rest, b"byte", b"bytes")?;
    text.extend_from_slice(b" after the last whole record")?;
    text.push(b'\n')?;
    Ok(())
}

/// Appends what reads a packed file.
fn push_unpacking(text: &mut Vec<u8>, path: &[u8], unpacker: &[u8]) -> Result<(), AllocError>
    ensures { OnOk result (text.new.items ≡ text.old.items ++ Spec.unpacking path.now unpacker.now) }
{
    text.extend_from_slice(b": try ")?;
    text.extend_from_slice(unpacker)?;
    text.push(b' ')?;
    push_quoted(text, path)?;
    text.extend_from_slice(b" | tally check /dev/stdin")
}

/// The same, where the file is packed.
fn push_remedy(text: &mut Vec<u8>, path: &[u8], looks: Looks) -> Result<(), AllocError>
    ensures { OnOk result (text.new.items ≡ text.old.items ++ Spec.remedy path.now (unpacker looks)) }
{
    match unpacker(looks) {
        None => Ok(()),
        Some(unpacker) => push_unpacking(text, path, unpacker),
    }
}

/// Appends why no login records were made of a database.
fn push_refusal(text: &mut Vec<u8>, why: &str) -> Result<(), AllocError>
    ensures { OnOk result (text.new.items ≡ text.old.items ++ Spec.refusal why.now) }
{
    text.extend_from_slice(b": ")?;
    text.extend_from_slice(why.as_bytes())
}

/// Appends why a database has no records that are read, or what reads a packed file.
fn push_reason(
    text: &mut Vec<u8>,
    path: &[u8],
    origin: Origin<'_>,
    looks: Looks,
) -> Result<(), AllocError>
    ensures { OnOk result (text.new.items ≡ text.old.items ++ Spec.reason path.now origin.entry looks) }
{
    match origin {
        Origin::File | Origin::Database => push_remedy(text, path, looks),
        Origin::Refused(why) => push_refusal(text, why),
    }
}

fn is_nothing(looks: Looks) -> bool
    ensures { result ≡ Spec.is_nothing looks }
{
    matches!(looks, Looks::Nothing)
}

/// Appends the line on a file without records that are read.
pub(crate) fn push_other(
    text: &mut Vec<u8>,
    path: &[u8],
    origin: Origin<'_>,
    looks: Looks,
) -> Result<(), AllocError>
    ensures { OnOk result (text.new.items ≡ text.old.items ++ Spec.other_text path.now origin.entry looks) }
{
    if is_nothing(looks) {
        return Ok(());
    }
    text.extend_from_slice(b"doubtful        no records that are read")?;
    push_reason(text, path, origin, looks)?;
    text.push(b'\n')?;
    Ok(())
}
