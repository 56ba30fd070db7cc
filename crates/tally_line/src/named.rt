//! The users and the lines that a command line names.
ghost use Rattle.std.specs.Prelude.{◌≡◌, ◌↔◌, ◌≤◌, IfNone, IfSome, IsTrue, length, option_map, slice_get};
ghost use Rattle.std.specs.List.{All};
ghost use Rattle.clap.specs.Walk.{texts};
ghost use Rattle.clap.specs.Words.{found_of, rows_of};
ghost use Rattle.tally_records.specs.Text.{padded};
ghost use Rattle.tally_line.specs.Named as Spec;
ghost use Rattle.tally_line.specs.Named.{AreNamed, AreNames, IsName};

use crate::given::{count_of, word_at};
use clap::ArgMatches;
use tally_records::{LoginChoice, NAMED_LIMIT, Name, Names, Period};

const MANY_USERS: &str =
    "error: --user can be used eight times at most\n\nFor more information, try '--help'.\n";

const MANY_LINES: &str =
    "error: --line can be used eight times at most\n\nFor more information, try '--help'.\n";

const NO_USER: &str =
    "error: --user takes a name of 1 to 32 bytes\n\nFor more information, try '--help'.\n";

const NO_LINE: &str =
    "error: --line takes a name of 1 to 32 bytes, as tty1\n\nFor more information, try '--help'.\n";

/// The sessions that are chosen, before the period is known.
pub(crate) fn login_choice(matches: &ArgMatches<'_>) -> LoginChoice
    requires { AreNamed (rows_of (found_of matches.now)) }
    ensures { result ≡ Spec.login_choice (rows_of (found_of matches.now)) }
{
    LoginChoice {
        users: names_of(matches, "user"),
        lines: names_of(matches, "line"),
        period: Period::always(),
    }
}

fn names_of(matches: &ArgMatches<'_>, id: &str) -> Names
    requires { AreNames (Spec.words_of id.now (rows_of (found_of matches.now))) }
    ensures { result ≡ Spec.names_of (Spec.words_of id.now (rows_of (found_of matches.now))) }
{
    let mut names = [None; NAMED_LIMIT];
    for at in 0..NAMED_LIMIT {
        names[at] = name_at(matches, id, at);
    }
    names
}

fn name_at(matches: &ArgMatches<'_>, id: &str, at: usize) -> Option<Name>
    requires { AreNames (Spec.words_of id.now (rows_of (found_of matches.now))) }
    ensures { result ≡ option_map (padded 32) (slice_get (Spec.words_of id.now (rows_of (found_of matches.now))) at) }
{
    match word_at(matches, id, at) {
        Some(word) => Some(name_of(word.as_bytes())),
        None => None,
    }
}

/// A name, followed by zeros.
fn name_of(word: &[u8]) -> Name
    requires { length word.now ≤ 32 }
    ensures { result ≡ padded 32 word.now }
{
    let mut name = [0; 32];
    name[..word.len()].copy_from_slice(word);
    name
}

/// What is wrong with the words that name, where anything is.
pub(crate) fn mistake_in_names(matches: &ArgMatches<'_>) -> Option<&'static str>
    ensures some { IfSome result (λ text. ¬ AreNamed (rows_of (found_of matches.now))) }
    ensures none { IfNone result (AreNamed (rows_of (found_of matches.now))) }
{
    let users = mistake_in(matches, "user", MANY_USERS, NO_USER);
    users.or(mistake_in(matches, "line", MANY_LINES, NO_LINE))
}

fn mistake_in(
    matches: &ArgMatches<'_>,
    id: &str,
    many: &'static str,
    other: &'static str,
) -> Option<&'static str>
    ensures some { IfSome result (λ text. ¬ AreNames (Spec.words_of id.now (rows_of (found_of matches.now)))) }
    ensures none { IfNone result (AreNames (Spec.words_of id.now (rows_of (found_of matches.now)))) }
{
    if count_of(matches, id) > NAMED_LIMIT {
        Some(many)
    } else if !are_names(matches, id) {
        Some(other)
    } else {
        None
    }
}

fn are_names(matches: &ArgMatches<'_>, id: &str) -> bool
    ensures { IsTrue result ↔ All IsName (Spec.words_of id.now (rows_of (found_of matches.now))) }
{
    match matches.get_raw(id) {
        Some(words) => all_names(words),
        None => true,
    }
}

fn all_names(words: &[&str]) -> bool
    ensures { IsTrue result ↔ All IsName (texts words.now) }
{
    words.iter().all(|word| is_name(word))
}

fn is_name(word: &str) -> bool
    ensures { IsTrue result ↔ IsName word.now }
{
    1 <= word.len() && word.len() <= 32
}
