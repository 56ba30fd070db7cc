//! What the words ask of a report on processes beside its job.
ghost use Rattle.std.specs.Prelude.{◌≡◌, ◌↔◌, IfNone, IfOk, IfSome, IsTrue, codes, option_map, slice_get};
ghost use Rattle.std.specs.List.{All};
ghost use Rattle.clap.specs.Walk.{texts};
ghost use Rattle.clap.specs.Words.{found_of, rows_of};
ghost use Rattle.tally_line.specs.Named.{words_of};
ghost use Rattle.tally_line.specs.Options.{WritesIn, number_of};
ghost use Rattle.tally_line.specs.UsageWords as Spec;
ghost use Rattle.tally_line.specs.UsageWords.{AreUids, AreUsageWords, HasUsersToName, IsUsageAsked};

use crate::given::{count_of, is_given, is_set, text_of, word_at};
use crate::line::UsageAsked;
use clap::ArgMatches;
use std::alloc::{AllocError, Global};
use tally_records::NAMED_LIMIT;
use tally_usage::Uids;

const MANY_UIDS: &str =
    "error: --uid can be used eight times at most\n\nFor more information, try '--help'.\n";

const NO_UID: &str =
    "error: --uid takes a number from 0 to 4294967295\n\nFor more information, try '--help'.\n";

const NO_USERS: &str =
    "error: --names cannot be used without -m\n\nFor more information, try '--help'.\n";

/// What is asked, where nothing is wrong with the words.
pub(crate) fn usage_asked(alloc: Global, matches: &ArgMatches<'_>) -> Result<UsageAsked, AllocError>
    requires { AreUsageWords (rows_of (found_of matches.now)) }
    ensures { IfOk result (IsUsageAsked (rows_of (found_of matches.now))) }
{
    Ok(UsageAsked {
        uids: uids_of(matches),
        names: text_of(alloc, matches, "names")?,
    })
}

fn uids_of(matches: &ArgMatches<'_>) -> Uids
    requires { AreUids (words_of (codes "uid") (rows_of (found_of matches.now))) }
    ensures { result ≡ Spec.uids_of (words_of (codes "uid") (rows_of (found_of matches.now))) }
{
    let mut uids = [None; NAMED_LIMIT];
    for at in 0..NAMED_LIMIT {
        uids[at] = uid_at(matches, at);
    }
    uids
}

fn uid_at(matches: &ArgMatches<'_>, at: usize) -> Option<u32>
    requires { AreUids (words_of (codes "uid") (rows_of (found_of matches.now))) }
    ensures { result ≡ option_map number_of (slice_get (words_of (codes "uid") (rows_of (found_of matches.now))) at) }
{
    match word_at(matches, "uid", at) {
        Some(word) => uid_of(word),
        None => None,
    }
}

/// The number that a word writes.
fn uid_of(word: &str) -> Option<u32>
    ensures some { IfSome result (λ uid. (uid ≡ number_of word.now) × WritesIn 0 4294967295 word.now) }
    ensures none { IfNone result (¬ WritesIn 0 4294967295 word.now) }
{
    word.parse::<u32>().ok()
}

/// What is wrong with these words, where anything is.
pub(crate) fn mistake_in_usage(matches: &ArgMatches<'_>) -> Option<&'static str>
    ensures some { IfSome result (λ text. ¬ AreUsageWords (rows_of (found_of matches.now))) }
    ensures none { IfNone result (AreUsageWords (rows_of (found_of matches.now))) }
{
    mistake_in_uids(matches).or(mistake_in_file(matches))
}

fn mistake_in_uids(matches: &ArgMatches<'_>) -> Option<&'static str>
    ensures some { IfSome result (λ text. ¬ AreUids (words_of (codes "uid") (rows_of (found_of matches.now)))) }
    ensures none { IfNone result (AreUids (words_of (codes "uid") (rows_of (found_of matches.now)))) }
{
    if count_of(matches, "uid") > NAMED_LIMIT {
        Some(MANY_UIDS)
    } else if !are_uids(matches) {
        Some(NO_UID)
    } else {
        None
    }
}

fn are_uids(matches: &ArgMatches<'_>) -> bool
    ensures { IsTrue result ↔ All (WritesIn 0 4294967295) (words_of (codes "uid") (rows_of (found_of matches.now))) }
{
    match matches.get_raw("uid") {
        Some(words) => all_uids(words),
        None => true,
    }
}

fn all_uids(words: &[&str]) -> bool
    ensures { IsTrue result ↔ All (WritesIn 0 4294967295) (texts words.now) }
{
    words.iter().all(|word| is_uid(word))
}

fn is_uid(word: &str) -> bool
    ensures { IsTrue result ↔ WritesIn 0 4294967295 word.now }
{
    uid_of(word).is_some()
}

/// Names are given for a report by user alone.
fn mistake_in_file(matches: &ArgMatches<'_>) -> Option<&'static str>
    ensures some { IfSome result (λ text. ¬ HasUsersToName (rows_of (found_of matches.now))) }
    ensures none { IfNone result (HasUsersToName (rows_of (found_of matches.now))) }
{
    if is_given(matches, "names") && !is_set(matches, "by_user") {
        Some(NO_USERS)
    } else {
        None
    }
}
