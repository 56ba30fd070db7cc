//! The lines of a section on what a file has.
ghost use Rattle.std.specs.Prelude.{◌≡◌, ◌<◌, ◌++◌, OnOk, codes, get_or, if◌then◌else◌, ◌==◌, IfOk, true, []};
ghost use Rattle.tally_check_text.specs.Moments.{moment};
ghost use Rattle.tally_check_text.specs.SectionText as Spec;
ghost use Rattle.tally_check_text.specs.inside.LocalTime.{clock_of};

use crate::local::Local;
use crate::moments::push_moment;
use crate::numbers::{push_length, push_number};
use std::alloc::AllocError;
use tally_check::{ProcFindings, Span, Stayed};

pub(crate) fn push_size(text: &mut Vec<u8>, size: u64) -> Result<(), AllocError>
    ensures { OnOk result (text.new.items ≡ text.old.items ++ Spec.size_text size) }
{
    text.extend_from_slice(b"size            ")?;
    push_number(text, size)?;
    text.push(b'\n')?;
    Ok(())
}

pub(crate) fn push_records(text: &mut Vec<u8>, records: usize) -> Result<(), AllocError>
    ensures { OnOk result (text.new.items ≡ text.old.items ++ Spec.records_text records) }
{
    text.extend_from_slice(b"records         ")?;
    push_number(text, records)?;
    text.push(b'\n')?;
    Ok(())
}

/// The name of a type of utmp(5), 0 to 9.
fn type_name(type_number: usize) -> &'static [u8]
    requires { type_number < 10 }
    ensures { result.now ≡ get_or Spec.type_names type_number [] }
{
    match type_number {
        0 => b"EMPTY",
        1 => b"RUN_LVL",
        2 => b"BOOT_TIME",
        3 => b"NEW_TIME",
        4 => b"OLD_TIME",
        5 => b"INIT_PROCESS",
        6 => b"LOGIN_PROCESS",
        7 => b"USER_PROCESS",
        8 => b"DEAD_PROCESS",
        _ => b"ACCOUNTING",
    }
}

/// Appends what stands before a type that some stand before, or none.
fn push_before(text: &mut Vec<u8>, begun: bool) -> Result<(), AllocError>
    ensures { OnOk result (text.new.items ≡ text.old.items ++ (if begun then codes ", " else codes "types           ")) }
{
    if begun {
        text.extend_from_slice(b", ")
    } else {
        text.extend_from_slice(b"types           ")
    }
}

/// Appends the count of a type, and its name.
fn push_type(text: &mut Vec<u8>, begun: bool, count: usize, name: &[u8]) -> Result<(), AllocError>
    ensures { OnOk result (text.new.items ≡ text.old.items ++ Spec.type_text begun count name.now) }
{
    push_before(text, begun)?;
    push_number(text, count)?;
    text.push(b' ')?;
    text.extend_from_slice(name)
}

/// Appends a type where some records have it, and says whether any type stands there then.
fn push_type_if(
    text: &mut Vec<u8>,
    begun: bool,
    count: usize,
    name: &[u8],
) -> Result<bool, AllocError>
    ensures text { OnOk result (text.new.items ≡ text.old.items ++ (if count == 0 then [] else Spec.type_text begun count name.now)) }
    ensures begun { IfOk result (λ now. now ≡ (if count == 0 then begun else true)) }
{
    if count == 0 {
        return Ok(begun);
    }
    push_type(text, begun, count, name)?;
    Ok(true)
}

/// Appends a line of the types that records have, where there is one.
pub(crate) fn push_types(text: &mut Vec<u8>, types: &[usize; 10]) -> Result<(), AllocError>
    ensures { OnOk result (text.new.items ≡ text.old.items ++ Spec.types_text types.now) }
{
    let mut begun = false;
    for at in 0..10 {
        begun = push_type_if(text, begun, types[at], type_name(at))?;
    }
    if begun {
        text.push(b'\n')?;
    }
    Ok(())
}

/// Appends a line of the versions, where there are both.
pub(crate) fn push_versions(text: &mut Vec<u8>, found: &ProcFindings) -> Result<(), AllocError>
    ensures { OnOk result (text.new.items ≡ text.old.items ++ Spec.versions_text found.now) }
{
    if found.version_2 > 0 && found.version_3 > 0 {
        text.extend_from_slice(b"versions        ")?;
        push_number(text, found.version_2)?;
        text.extend_from_slice(b" of version 2, ")?;
        push_number(text, found.version_3)?;
        text.extend_from_slice(b" of version 3\n")?;
    }
    Ok(())
}

/// Appends a line with a moment after its label.
#[tactic(auto, unfolding(crate::specs::SectionText::time_text))]
fn push_time(
    text: &mut Vec<u8>,
    label: &[u8],
    time: i64,
    local: &Local<'_>,
) -> Result<(), AllocError>
    ensures { OnOk result (text.new.items
        ≡ text.old.items ++ Spec.time_text (clock_of local.now) label.now time) }
{
    text.extend_from_slice(label)?;
    push_moment(text, time, local)?;
    text.push(b'\n')?;
    Ok(())
}

/// Appends the line of the seconds from a time to another.
#[tactic(auto, unfolding(crate::specs::SectionText::between_text))]
fn push_between(text: &mut Vec<u8>, span: Span) -> Result<(), AllocError>
    ensures { OnOk result (text.new.items ≡ text.old.items ++ Spec.between_text span) }
{
    text.extend_from_slice(b"span            ")?;
    push_length(text, span.last.abs_diff(span.first))?;
    text.push(b'\n')?;
    Ok(())
}

/// Appends the lines of the times that records name.
fn push_times(text: &mut Vec<u8>, span: Span, local: &Local<'_>) -> Result<(), AllocError>
    ensures { OnOk result (text.new.items ≡ text.old.items ++ Spec.times_text (clock_of local.now) span) }
{
    push_time(text, b"first           ", span.first, local)?;
    push_time(text, b"last            ", span.last, local)?;
    push_between(text, span)
}

/// The same where records name any.
pub(crate) fn push_span(
    text: &mut Vec<u8>,
    span: Option<Span>,
    local: &Local<'_>,
) -> Result<(), AllocError>
    ensures { OnOk result (text.new.items ≡ text.old.items ++ Spec.span_text (clock_of local.now) span) }
{
    match span {
        None => Ok(()),
        Some(span) => push_times(text, span, local),
    }
}

/// Appends so many of what has one name for one of them and another for more.
#[tactic(auto, unfolding(crate::specs::SectionText::number_of))]
pub(crate) fn push_number_of(
    text: &mut Vec<u8>,
    number: usize,
    one: &[u8],
    more: &[u8],
) -> Result<(), AllocError>
    ensures { OnOk result (text.new.items ≡ text.old.items ++ Spec.number_of number one.now more.now) }
{
    push_number(text, number)?;
    text.push(b' ')?;
    text.extend_from_slice(if number == 1 { one } else { more })
}

/// Appends the seconds of sessions together, where there is one.
fn push_together(text: &mut Vec<u8>, stayed: Stayed) -> Result<(), AllocError>
    ensures { OnOk result (text.new.items ≡ text.old.items ++ Spec.together_text stayed) }
{
    if stayed.count == 0 {
        return Ok(());
    }
    text.extend_from_slice(b", ")?;
    push_length(text, stayed.seconds)
}

/// Appends the line of sessions.
pub(crate) fn push_stayed(
    text: &mut Vec<u8>,
    label: &[u8],
    stayed: Stayed,
) -> Result<(), AllocError>
    ensures { OnOk result (text.new.items ≡ text.old.items ++ Spec.stayed_text label.now stayed) }
{
    text.extend_from_slice(label)?;
    push_number_of(text, stayed.count, b"session", b"sessions")?;
    push_together(text, stayed)?;
    text.push(b'\n')?;
    Ok(())
}
