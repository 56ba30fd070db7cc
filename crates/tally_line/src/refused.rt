//! What is answered where `clap` gives no matches.
ghost use Rattle.std.specs.Prelude.{◌≡◌, ◌++◌, IfErr, IfOk, MatchBool, string_bytes};
ghost use Rattle.clap.specs.Words.{kind_of};
ghost use Rattle.tally_line.specs.inside.LineSteps.{IsFaultFor, IsHelpFor, IsMemoryOrUsage, IsNegativeRefused, begins_with_digit};

use crate::line::{Line, LineFault};
use clap::Error;
use clap::error::ErrorKind;
use std::alloc::{AllocError, Global};

/// The answer where `clap` gives no matches.
#[inline(never)]
pub(crate) fn refused(alloc: Global, error: &Error) -> Result<Line, LineFault>
    ensures memory { kind_of error.now ≡ ErrorKind.OutOfMemory → result ≡ Err LineFault.Memory }
    ensures ok { IfOk result (IsHelpFor (kind_of error.now)) }
    ensures err { IfErr result (IsFaultFor (kind_of error.now)) }
{
    let kind = error.kind();
    if kind == ErrorKind::DisplayHelp || kind == ErrorKind::DisplayVersion {
        let text = error.to_string(alloc)?;
        return Ok(Line::Help { text });
    }
    Err(fault_of(alloc, error))
}

/// The fault where `clap` gives no matches and no help is asked for.
pub(crate) fn fault_of(alloc: Global, error: &Error) -> LineFault
    ensures memory { kind_of error.now ≡ ErrorKind.OutOfMemory → result ≡ LineFault.Memory }
    ensures kind { IsMemoryOrUsage result }
{
    if error.kind() == ErrorKind::OutOfMemory {
        return LineFault::Memory;
    }
    match error.to_string(alloc).and_then(hinted) {
        Ok(text) => LineFault::Usage { text },
        Err(_) => LineFault::Memory,
    }
}

/// What to write in place of a negative number, which no option takes.
const NEGATIVE: &str =
    "\nNo option takes a negative number: the latest 5 stays are -n 5, five hours west --west 300.\n";

/// The text of a refusal, and a line more where a negative number is the reason.
fn hinted(mut text: String) -> Result<String, AllocError>
    ensures negative { IsNegativeRefused (string_bytes text) → IfOk result (λ told. string_bytes told ≡ string_bytes text ++ NEGATIVE.now) }
    ensures other { ¬ IsNegativeRefused (string_bytes text) → IfOk result (λ told. string_bytes told ≡ string_bytes text) }
{
    if is_negative_refused(text.as_str()) {
        text.push_str(NEGATIVE)?;
    }
    Ok(text)
}

/// Whether a text refuses an argument that is a negative number.
#[tactic(auto, using(crate::proofs::RefusalLemmas::negative_if))]
fn is_negative_refused(text: &str) -> bool
    ensures { MatchBool result (IsNegativeRefused text.now) (¬ IsNegativeRefused text.now) }
{
    match text.strip_prefix("error: unexpected argument '-") {
        Some(rest) => begins_with_digit(rest),
        None => false,
    }
}

/// Whether a text begins with a digit.
fn begins_with_digit(text: &str) -> bool
    ensures { result ≡ begins_with_digit text.now }
{
    match text.as_bytes() {
        [first, ..] => first.is_ascii_digit(),
        [] => false,
    }
}
