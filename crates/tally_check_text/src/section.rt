//! The section of a file.
ghost use Rattle.std.specs.Prelude.{◌≡◌, ◌++◌, OnOk};
ghost use Rattle.tally_check_text.specs.SectionText as Spec;
ghost use Rattle.tally_check_text.specs.SectionText.{section_text};
ghost use Rattle.tally_check_text.specs.inside.LocalTime.{clock_of};
ghost use Rattle.tally_sessions.specs.Days.{IsOffset, local};

use crate::doubts::{push_no_type, push_no_version, push_other, push_rest, push_steps, push_zeros};
use crate::kinds::kind_name;
use crate::lines::{push_records, push_size, push_span, push_stayed, push_types, push_versions};
use crate::local::Local;
use crate::origin::Origin;
use crate::paths::push_shown;
use std::alloc::AllocError;
use tally_check::{Content, Findings, LoginFindings, ProcFindings, Sessions};
use tally_clock::Clock;

/// Appends the path of a file, and what it has.
fn push_head(
    text: &mut Vec<u8>,
    path: &[u8],
    origin: Origin<'_>,
    content: &Content,
) -> Result<(), AllocError>
    ensures { OnOk result (text.new.items ≡ text.old.items ++ Spec.head_text path.now origin.entry content.now) }
{
    push_shown(text, path)?;
    text.extend_from_slice(b": ")?;
    text.extend_from_slice(kind_name(origin, content))?;
    text.push(b'\n')?;
    Ok(())
}

/// Appends what login records there are.
fn push_login_lines(
    text: &mut Vec<u8>,
    found: &LoginFindings,
    local: &Local<'_>,
) -> Result<(), AllocError>
    ensures { OnOk result (text.new.items ≡ text.old.items ++ Spec.login_lines (clock_of local.now) found.now) }
{
    push_records(text, found.counts.records)?;
    push_types(text, &found.types)?;
    push_span(text, found.counts.span, local)
}

fn push_sessions(text: &mut Vec<u8>, sessions: Sessions) -> Result<(), AllocError>
    ensures { OnOk result (text.new.items ≡ text.old.items ++ Spec.sessions_text sessions) }
{
    push_stayed(text, b"still open      ", sessions.still_open)?;
    push_stayed(text, b"ended by a boot ", sessions.crashed)
}

fn push_login_doubts(text: &mut Vec<u8>, found: &LoginFindings) -> Result<(), AllocError>
    ensures { OnOk result (text.new.items ≡ text.old.items ++ Spec.login_doubts found.now) }
{
    push_zeros(text, &found.counts)?;
    push_no_type(text, found.counts.unknown)?;
    push_steps(text, found.steps)?;
    push_rest(text, found.rest)
}

fn push_logins(
    text: &mut Vec<u8>,
    found: &LoginFindings,
    local: &Local<'_>,
) -> Result<(), AllocError>
    ensures { OnOk result (text.new.items ≡ text.old.items ++ Spec.logins_text (clock_of local.now) found.now) }
{
    push_login_lines(text, found, local)?;
    push_sessions(text, found.sessions)?;
    push_login_doubts(text, found)
}

/// Appends what process records there are.
fn push_proc_lines(
    text: &mut Vec<u8>,
    found: &ProcFindings,
    local: &Local<'_>,
) -> Result<(), AllocError>
    ensures { OnOk result (text.new.items ≡ text.old.items ++ Spec.proc_lines (clock_of local.now) found.now) }
{
    push_records(text, found.counts.records)?;
    push_versions(text, found)?;
    push_span(text, found.counts.span, local)
}

fn push_proc_doubts(text: &mut Vec<u8>, found: &ProcFindings) -> Result<(), AllocError>
    ensures { OnOk result (text.new.items ≡ text.old.items ++ Spec.proc_doubts found.now) }
{
    push_zeros(text, &found.counts)?;
    push_no_version(text, found.counts.unknown)?;
    push_rest(text, found.rest)
}

fn push_procs(text: &mut Vec<u8>, found: &ProcFindings, local: &Local<'_>) -> Result<(), AllocError>
    ensures { OnOk result (text.new.items ≡ text.old.items ++ Spec.procs_text (clock_of local.now) found.now) }
{
    push_proc_lines(text, found, local)?;
    push_proc_doubts(text, found)
}

fn push_content(
    text: &mut Vec<u8>,
    path: &[u8],
    origin: Origin<'_>,
    content: &Content,
    local: &Local<'_>,
) -> Result<(), AllocError>
    ensures { OnOk result (text.new.items ≡ text.old.items ++ Spec.content_text (clock_of local.now) path.now origin.entry content.now) }
{
    match content {
        Content::Logins(found) => push_logins(text, found, local),
        Content::Processes(found) => push_procs(text, found, local),
        Content::Other(looks) => push_other(text, path, origin, *looks),
    }
}

/// Appends that nothing is doubtful, where it is so.
fn push_verdict(text: &mut Vec<u8>, findings: &Findings) -> Result<(), AllocError>
    ensures { OnOk result (text.new.items ≡ text.old.items ++ Spec.verdict_text findings.now.content) }
{
    if findings.is_doubtful() {
        return Ok(());
    }
    text.extend_from_slice(b"doubtful        nothing\n")
}

fn push_all(
    text: &mut Vec<u8>,
    path: &[u8],
    origin: Origin<'_>,
    findings: &Findings,
    local: &Local<'_>,
) -> Result<(), AllocError>
    ensures { OnOk result (text.new.items ≡ text.old.items ++ section_text (clock_of local.now) path.now origin.entry findings.now) }
{
    push_head(text, path, origin, &findings.content)?;
    push_size(text, findings.size)?;
    push_content(text, path, origin, &findings.content, local)?;
    push_verdict(text, findings)
}

/// Appends the section of the file of a path to a text, with moments by a clock and an offset in minutes east of it. The findings are
/// those of the login records that were made of a database where the origin is one, else of the file's own bytes. It errs where memory
/// runs out; a first part of the section may have joined the text then.
pub fn push_section(
    text: &mut Vec<u8>,
    clock: &Clock,
    path: &str,
    origin: Origin<'_>,
    findings: &Findings,
    offset: i32,
) -> Result<(), AllocError>
    requires { IsOffset offset }
    ensures { OnOk result (text.new.items
        ≡ text.old.items ++ section_text (local clock.now offset) path.now origin.entry findings.now) }
{
    let local = Local { clock, offset };
    push_all(text, path.as_bytes(), origin, findings, &local)
}
