//! Words of the command line as fault lines show them.
ghost use Rattle.std.specs.Prelude.{◌≡◌, Some, IfOk, map, string_bytes};
ghost use Rattle.std.specs.List.{list_all};
ghost use Rattle.tally_print.specs.Text.{shown_byte};
ghost use Rattle.tally_terminal.specs.Shown as Spec;
ghost use Rattle.tally_terminal.specs.Shown.{shown_word};

use std::alloc::{AllocError, Global};
use std::fmt::{self, Display, Formatter};

/// Where fault lines go.
#[derive(Clone, Copy)]
pub enum ErrorsTo {
    Terminal,
    Elsewhere,
}

/// A word in a fault line: as given, but for a terminal with `?` for each byte that does not print.
#[derive(Clone, Copy)]
pub struct Shown<'a> {
    word: &'a str,
    to: ErrorsTo,
}

impl<'a> Shown<'a> {
    pub fn new(word: &'a str, to: ErrorsTo) -> Shown<'a>
        ensures word { result.word.now ≡ word.now }
        ensures to { result.to ≡ to }
    {
        Shown { word, to }
    }

    /// The path that the word is, for a command.
    pub fn quoted(&self) -> Quoted<'a> {
        Quoted { path: self.word }
    }
}

/// What a terminal is sent for a byte.
pub(crate) fn printed(byte: u8) -> u8
    ensures { result ≡ shown_byte byte }
{
    match byte {
        b' '..=b'~' => byte,
        _ => b'?',
    }
}

impl Display for Shown<'_> {
    ghost output = { λ shown. Some (shown_word shown.to shown.word.now) };

    fn fmt<W: fmt::Write>(&self, f: &mut Formatter<W>) -> fmt::Result {
        match self.to {
            ErrorsTo::Elsewhere => f.write_str(self.word),
            ErrorsTo::Terminal => {
                for byte in self.word.as_bytes() {
                    f.write_char(printed(*byte) as char)?;
                }
                Ok(())
            }
        }
    }
}

/// A path in a command that a terminal shows, as a shell reads it: in single quotes unless all of its bytes are plain, and with
/// its folder where it begins with a dash.
#[derive(Clone, Copy)]
pub struct Quoted<'a> {
    path: &'a str,
}

fn is_plain_byte(byte: u8) -> bool
    ensures { result ≡ Spec.is_plain_byte byte }
{
    match byte {
        b'a'..=b'z' | b'A'..=b'Z' | b'0'..=b':' | b'%' | b'+'..=b'/' | b'@' | b'_' => true,
        _ => false,
    }
}

/// Whether a shell reads a path as it is.
fn is_plain(path: &[u8]) -> bool
    ensures { result ≡ list_all Spec.is_plain_byte path.now }
{
    path.iter().all(|byte| is_plain_byte(*byte))
}

/// Writes a byte that stands in single quotes.
fn put_quoted<W: fmt::Write>(byte: u8, f: &mut Formatter<W>) -> fmt::Result {
    match byte {
        b'\'' => f.write_str("'\\''"),
        _ => f.write_char(printed(byte) as char),
    }
}

impl Display for Quoted<'_> {
    fn fmt<W: fmt::Write>(&self, f: &mut Formatter<W>) -> fmt::Result {
        let path = self.path.as_bytes();
        if path.starts_with(b"-") {
            f.write_str("./")?;
        }
        if is_plain(path) {
            return f.write_str(self.path);
        }
        f.write_char('\'')?;
        for byte in path {
            put_quoted(*byte, f)?;
        }
        f.write_char('\'')
    }
}

/// The words as a terminal shows them.
pub fn printable(alloc: Global, words: &[String]) -> Result<Vec<String>, AllocError>
    ensures { IfOk result (λ shown. map string_bytes shown.items ≡ map (λ word. map shown_byte (string_bytes word)) words.now) }
{
    let mut shown = Vec::new(alloc);
    for word in words {
        shown.push(format!(in alloc; "{}", Shown::new(word.as_str(), ErrorsTo::Terminal))?)?;
    }
    Ok(shown)
}
