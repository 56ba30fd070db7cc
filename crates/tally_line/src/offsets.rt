//! Offsets from UTC, as words write them.
ghost use Rattle.std.specs.Prelude.{◌↔◌, IsTrue};
ghost use Rattle.clap.specs.Words.{found_of, rows_of};
ghost use Rattle.tally_line.specs.Offsets.{HasPlainOffsets, IsPlain, IsPlainIn};

use clap::ArgMatches;

/// What is said of an offset with a sign or a leading zero, as `+0200`, which would be 200 minutes.
pub(crate) const NOT_PLAIN: &str =
    "error: --east and --west take minutes, without a sign or a leading zero: for +0200 write --east 120\n\nFor more information, try '--help'.\n";

/// Whether the offsets are plain numbers of minutes.
pub(crate) fn has_plain_offsets(matches: &ArgMatches<'_>) -> bool
    ensures { IsTrue result ↔ HasPlainOffsets (rows_of (found_of matches.now)) }
{
    is_plain_in(matches, "east") && is_plain_in(matches, "west")
}

fn is_plain_in(matches: &ArgMatches<'_>, id: &str) -> bool
    ensures { IsTrue result ↔ IsPlainIn id.now (rows_of (found_of matches.now)) }
{
    match matches.get_str(id) {
        Some(text) => is_plain(text),
        None => true,
    }
}

/// Whether a number has no sign and no leading zero.
fn is_plain(text: &str) -> bool
    ensures { IsTrue result ↔ IsPlain text.now }
{
    match text.as_bytes() {
        [b'+' | b'-', ..] | [b'0', _, ..] => false,
        _ => true,
    }
}
