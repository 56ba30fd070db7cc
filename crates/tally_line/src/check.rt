//! What the words of `check` ask for.
ghost use Rattle.std.specs.Prelude.{◌≡◌, ◌<◌, Some, IfErr, IfOk, codes, length, map, string_bytes};
ghost use Rattle.clap.specs.Walk.{texts};
ghost use Rattle.clap.specs.Words.{found_of, rows_of};
ghost use Rattle.tally_line.specs.Lines.{AreSound, IsCheckOf, words_in};
ghost use Rattle.tally_line.specs.declared.line.LineFault.TheVariants.{Memory};

use crate::given::is_set;
use crate::line::{Check, LineFault};
use crate::options::{form_by, offset_of};
use crate::zones::zone_of;
use clap::ArgMatches;
use std::alloc::{AllocError, Global};

/// The check that the matches ask for.
pub(crate) fn check_of(alloc: Global, matches: &ArgMatches<'_>) -> Result<Check, LineFault>
    requires sound { AreSound (rows_of (found_of matches.now)) }
    requires file { 0 < length (words_in (rows_of (found_of matches.now))) }
    ensures ok { IfOk result (IsCheckOf (Some (codes "check", rows_of (found_of matches.now)))) }
    ensures err { IfErr result (λ fault. fault ≡ Memory) }
{
    let files = paths_in(alloc, matches)?;
    let zone = zone_of(alloc, matches)?;
    Ok(Check {
        form: form_by(matches),
        paths: is_set(matches, "paths"),
        offset: offset_of(matches),
        zone,
        files,
    })
}

/// The words of files, each of which is a path.
#[tactic(auto, using(crate::proofs::LineLemmas::some_file_words, crate::proofs::LineLemmas::no_file_words))]
fn paths_in(alloc: Global, matches: &ArgMatches<'_>) -> Result<Vec<String>, AllocError>
    ensures { IfOk result (λ files. map string_bytes files.items ≡ words_in (rows_of (found_of matches.now))) }
{
    match matches.get_raw("file") {
        Some(words) => kept(alloc, words),
        None => Ok(Vec::new(alloc)),
    }
}

fn kept(alloc: Global, words: &[&str]) -> Result<Vec<String>, AllocError>
    ensures { IfOk result (λ kept. map string_bytes kept.items ≡ texts words.now) }
{
    let mut kept = Vec::new(alloc);
    for word in words {
        kept.push(String::from_str(alloc, word)?)?;
    }
    Ok(kept)
}
