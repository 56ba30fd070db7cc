//! What records are grouped by.
ghost use Rattle.std.specs.Prelude.{◌≡◌, ◌+◌, ◌≤◌, true};
ghost use Rattle.tally_records.specs.PackedProc.{record_of};
ghost use Rattle.tally_usage.specs.inside.Keys.{same_command};
ghost use Rattle.tally_usage.specs.inside.Marks as marks;
ghost use Rattle.std.proofs.lemmas.Bool.{eqb-true};

use crate::command::Command;
use std::hash::Hash;
use tally_records::{Comm, PackedProc};

/// What records are grouped by: its test of equality is equality.
pub(crate) trait GroupKey: Eq + Hash + Copy {
    ghost exact: { (x y : Self) → Self.eq x y ≡ true → x ≡ y };
}

impl GroupKey for Command {
    ghost exact = { same_command };
}

impl GroupKey for u32 {
    ghost exact = { eqb-true };
}

/// The word in the eight bytes of a name from a place on.
fn word_at(name: &Comm, at: usize) -> u64
    requires { at + 8 ≤ 17 }
    ensures { result ≡ marks.word_at name.now at }
{
    u64::from_le_bytes([
        name[at],
        name[at + 1],
        name[at + 2],
        name[at + 3],
        name[at + 4],
        name[at + 5],
        name[at + 6],
        name[at + 7],
    ])
}

/// A mixed word: both halves of its product with an odd number, folded together.
fn folded(word: u64) -> u64
    ensures { result ≡ marks.folded word }
{
    let product = u128::from(word) * 0x9E37_79B9_7F4A_7C15;
    (product >> 64) as u64 ^ word.wrapping_mul(0x9E37_79B9_7F4A_7C15)
}

/// A number that few commands of a file share, from the first 16 bytes of the name and the fork mark.
#[tactic(auto, unfolding(crate::specs::inside::Marks::mark_of))]
pub(crate) fn command_mark(process: &PackedProc, forked: bool) -> usize
    ensures { result ≡ marks.mark_of (record_of process.now).comm forked }
{
    let name = process.comm();
    let word = word_at(name, 0) ^ word_at(name, 8).rotate_left(32);
    folded(word) as usize ^ usize::from(forked)
}
