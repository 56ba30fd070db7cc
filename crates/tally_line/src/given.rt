//! The words that options were given.
ghost use Rattle.std.specs.Prelude.{◌≡◌, IfOk, length, option_map, slice_get, string_bytes};
ghost use Rattle.clap.specs.Walk.{first_of};
ghost use Rattle.clap.specs.Words.{found_of, rows_of};
ghost use Rattle.tally_line.specs.Named.{words_of};
ghost use Rattle.tally_line.specs.Options.{is_set};
ghost use Rattle.tally_line.specs.Times.{is_given};

use clap::ArgMatches;
use std::alloc::{AllocError, Global};

/// The word of an option.
pub(crate) fn word_of<'a>(matches: &ArgMatches<'a>, id: &str) -> Option<&'a str>
    ensures { option_map (λ word. word.now) result ≡ first_of id.now (rows_of (found_of matches.now)) }
{
    matches.get_str(id)
}

/// The word of an option, to be kept.
pub(crate) fn text_of(
    alloc: Global,
    matches: &ArgMatches<'_>,
    id: &str,
) -> Result<Option<String>, AllocError>
    ensures { IfOk result (λ text. option_map string_bytes text ≡ first_of id.now (rows_of (found_of matches.now))) }
{
    match word_of(matches, id) {
        Some(word) => Ok(Some(String::from_str(alloc, word)?)),
        None => Ok(None),
    }
}

/// Whether an option is given.
pub(crate) fn is_given(matches: &ArgMatches<'_>, id: &str) -> bool
    ensures { result ≡ is_given id.now (rows_of (found_of matches.now)) }
{
    word_of(matches, id).is_some()
}

/// Whether a flag is set.
pub(crate) fn is_set(matches: &ArgMatches<'_>, id: &str) -> bool
    ensures { result ≡ is_set id.now (rows_of (found_of matches.now)) }
{
    match word_of(matches, id) {
        Some(word) => word == "true",
        None => false,
    }
}

/// The word of an option at a place, where it may be repeated.
pub(crate) fn word_at<'a>(matches: &ArgMatches<'a>, id: &str, at: usize) -> Option<&'a str>
    ensures { option_map (λ word. word.now) result ≡ slice_get (words_of id.now (rows_of (found_of matches.now))) at }
{
    let Some(words) = matches.get_raw(id) else {
        return None;
    };
    match words.get(at) {
        Some(word) => Some(*word),
        None => None,
    }
}

/// How often an option is given.
pub(crate) fn count_of(matches: &ArgMatches<'_>, id: &str) -> usize
    ensures { result ≡ length (words_of id.now (rows_of (found_of matches.now))) }
{
    match matches.get_raw(id) {
        Some(words) => words.len(),
        None => 0,
    }
}
