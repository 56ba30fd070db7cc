//! A name as the key of a table, by its words.
ghost use Rattle.std.specs.Prelude.{◌≡◌, ◌≤◌, get_or, length, nat_eq};
ghost use Rattle.std.specs.Cmp.{partial_equiv_from_equiv};
ghost use Rattle.std.specs.Cmp.Lexicographic.{pointwise, nat_list_eq_equiv};
ghost use Rattle.tally_records.specs.inside.Compact.Keys.{same_writes, writes_of};
ghost use Rattle.tally_records.specs.inside.Compact.Layout.{field_of};
ghost use Rattle.tally_records.specs.Text.{field_words};

use crate::field::Name;
use crate::login::head::unpack;
use crate::login::words::word_of;
use std::hash::{Hash, Hasher};
use std::marker::Model;

/// The name of a line or a user, as a key.
#[derive(Clone, Copy)]
pub struct Key {
    words: [u64; 4],
}

impl Model for Key {
    ghost use Rattle.std.specs.Prelude.{List, ℕ};

    ghost Value = { List ℕ };

    ghost use Rattle.tally_records.specs.inside.Compact.Layout.{bytes_of};
    ghost use Rattle.tally_records.specs.Text.{field_words};
    ghost use Rattle.tally_records.specs.inside.Compact.Keys.{IsKey, words_back};

    ghost view = { λ key. bytes_of key.words };

    ghost invariant = { λ key. IsKey key.words };

    ghost inverse = { λ name. record { words = field_words name } };

    ghost inverse_ok = { λ key h i. record { words = words_back key.words h.fits i } };
}

/// The word at a place of a text, 0 after its last.
fn word_at(words: &[u64], at: usize) -> u64
    ensures { result ≡ get_or words.now at 0 }
{
    match words.get(at) {
        Some(word) => *word,
        None => 0,
    }
}

impl Key {
    /// The key of a name.
    #[tactic(auto, using(crate::proofs::Compact::KeyLemmas::four_words))]
    pub fn of(name: &Name) -> Key
        ensures { result ≡ name.now }
    {
        let (words, _) = name.as_chunks::<8>();
        Key {
            words: [
                word_of(&words[0]),
                word_of(&words[1]),
                word_of(&words[2]),
                word_of(&words[3]),
            ],
        }
    }

    /// The name, with the zeros after its text.
    #[tactic(auto, using(crate::proofs::Compact::KeyLemmas::whole_field))]
    pub fn name(&self) -> Name
        ensures { result ≡ self.now }
    {
        unpack(&self.words)
    }

    /// The words of the name, its first eight bytes first.
    pub fn words(&self) -> [u64; 4]
        ensures { result ≡ field_words self.now }
    {
        self.words
    }

    /// The key of a text by its words.
    #[tactic(auto, using(crate::proofs::Compact::KeyLemmas::words_by_place))]
    pub(crate) fn of_words(words: &[u64]) -> Key
        requires { length words.now ≤ 4 }
        ensures { result ≡ field_of 32 words.now }
    {
        Key {
            words: [
                word_at(words, 0),
                word_at(words, 1),
                word_at(words, 2),
                word_at(words, 3),
            ],
        }
    }
}

impl PartialEq for Key {
    ghost eq = { pointwise nat_eq };

    ghost laws = { partial_equiv_from_equiv nat_list_eq_equiv };

    #[tactic(auto, using(crate::proofs::Compact::KeyLemmas::same_words))]
    fn eq(&self, other: &Key) -> bool {
        self.words == other.words
    }
}

impl Eq for Key {
    ghost laws = { nat_list_eq_equiv };
}

/// A name of one word is hashed in one write.
impl Hash for Key {
    ghost hash_input = { writes_of };

    ghost respects_eq = { same_writes };

    fn hash<H: Hasher>(&self, state: &mut H) {
        state.write_u64(self.words[0]);
        if self.words[1] != 0 {
            state.write_u64(self.words[1]);
            state.write_u64(self.words[2]);
            state.write_u64(self.words[3]);
        }
    }
}
