//! Paths as they are printed, and as a shell reads them.
ghost use Rattle.std.specs.Prelude.{◌≡◌, ◌++◌, ◌∷◌, [], OnOk, codes, flat_map};
ghost use Rattle.std.specs.List.{list_all};
ghost use Rattle.tally_check_text.specs.Quoted as Spec;
ghost use Rattle.tally_print.specs.Text.{shown, shown_byte};

use std::alloc::AllocError;

pub(crate) fn shown_byte(byte: u8) -> u8
    ensures { result ≡ shown_byte byte }
{
    match byte {
        b' '..=b'~' => byte,
        _ => b'?',
    }
}

/// Appends a text as it is printed.
pub(crate) fn push_shown(text: &mut Vec<u8>, field: &[u8]) -> Result<(), AllocError>
    ensures { OnOk result (text.new.items ≡ text.old.items ++ shown field.now) }
{
    for byte in field {
        if *byte == 0 {
            break;
        }
        text.push(shown_byte(*byte))?;
    }
    Ok(())
}

fn is_plain_byte(byte: u8) -> bool
    ensures { result ≡ Spec.is_plain_byte byte }
{
    match byte {
        b'a'..=b'z' | b'A'..=b'Z' | b'0'..=b':' | b'%' | b'+'..=b'/' | b'@' | b'_' => true,
        _ => false,
    }
}

/// Whether a shell reads a path as it is.
fn is_plain(path: &[u8]) -> bool
    ensures { result ≡ list_all Spec.is_plain_byte path.now }
{
    path.iter().all(|byte| is_plain_byte(*byte))
}

fn push_quoted_byte(text: &mut Vec<u8>, byte: u8) -> Result<(), AllocError>
    ensures { OnOk result (text.new.items ≡ text.old.items ++ Spec.quoted_byte byte) }
{
    if byte == b'\'' {
        return text.extend_from_slice(b"'\\''");
    }
    text.push(shown_byte(byte))?;
    Ok(())
}

fn push_quoted_bytes(text: &mut Vec<u8>, path: &[u8]) -> Result<(), AllocError>
    ensures { OnOk result (text.new.items ≡ text.old.items ++ flat_map Spec.quoted_byte path.now) }
{
    for byte in path {
        push_quoted_byte(text, *byte)?;
    }
    Ok(())
}

/// Appends the folder of a path that begins with a dash.
fn push_folder(text: &mut Vec<u8>, path: &[u8]) -> Result<(), AllocError>
    ensures { OnOk result (text.new.items ≡ text.old.items ++ Spec.folder_before path.now) }
{
    if !path.is_empty() && path[0] == b'-' {
        return text.extend_from_slice(b"./");
    }
    Ok(())
}

/// Appends a path as it stands in a command.
#[tactic(auto, unfolding(crate::specs::Quoted::quoted))]
pub(crate) fn push_quoted(text: &mut Vec<u8>, path: &[u8]) -> Result<(), AllocError>
    ensures { OnOk result (text.new.items ≡ text.old.items ++ Spec.quoted path.now) }
{
    push_folder(text, path)?;
    if is_plain(path) {
        return text.extend_from_slice(path);
    }
    text.push(b'\'')?;
    push_quoted_bytes(text, path)?;
    text.push(b'\'')?;
    Ok(())
}
