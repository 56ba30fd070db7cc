//! A name as a key in the order of its bytes, which is compared by words.
ghost use Rattle.std.specs.Prelude.{◌≡◌, ◌<◌, Some, nat_eq};
ghost use Rattle.std.proofs.Common.{refl};
ghost use Rattle.std.specs.Cmp.{partial_equiv_from_equiv};
ghost use Rattle.std.specs.Cmp.Lexicographic.{pointwise, slice_cmp, nat_list_cmp_total, nat_list_eq_equiv, texts_po, texts_ties};
ghost use Rattle.std.specs.Ordering.{nat_cmp};
ghost use Rattle.tally_sessions.specs.inside.Names.{word_of};

use std::cmp::Ordering;
use std::marker::Model;
use tally_records::Name;

/// How many marks of keys there are.
pub(crate) const KEY_MARKS: usize = 1024;

/// The words of a name. Each has its first byte as the highest, so words are in the order of their bytes.
#[derive(Clone, Copy)]
pub(crate) struct NameKey {
    first: u64,
    second: u64,
    third: u64,
    fourth: u64,
}

impl Model for NameKey {
    ghost use Rattle.std.specs.Prelude.{List, ℕ};

    ghost Value = { List ℕ };

    ghost use Rattle.tally_sessions.specs.inside.Names.{Fit, first_back, second_back, third_back, fourth_back, name_of, word_in};

    ghost view = { λ key. name_of key.first key.second key.third key.fourth };

    ghost invariant = { λ key. Fit key.first key.second key.third key.fourth };

    ghost inverse = { λ name. record { first = word_in name 0; second = word_in name 1; third = word_in name 2; fourth = word_in name 3 } };

    ghost inverse_ok = { λ key h i. record { first = first_back h i; second = second_back h i; third = third_back h i; fourth = fourth_back h i } };
}

/// The word of eight bytes.
fn word_of(bytes: &[u8; 8]) -> u64
    ensures { result ≡ word_of bytes.now }
{
    u64::from_be_bytes(*bytes)
}

impl NameKey {
    /// The key of a name.
    #[tactic(auto, using(crate::proofs::connect::NameWords::four_words))]
    pub(crate) fn of(name: &Name) -> NameKey
        ensures { result ≡ name.now }
    {
        let (words, _) = name.as_chunks::<8>();
        NameKey {
            first: word_of(&words[0]),
            second: word_of(&words[1]),
            third: word_of(&words[2]),
            fourth: word_of(&words[3]),
        }
    }

    /// A number that few keys share, for a table of hints.
    pub(crate) fn mark(&self) -> usize
        ensures { result < KEY_MARKS }
    {
        let words = self.first ^ self.second ^ self.third ^ self.fourth;
        (words.wrapping_mul(0x9e37_79b9_7f4a_7c15) >> 54) as usize
    }

    /// The name of a key.
    pub(crate) fn name(&self) -> Name
        ensures { result ≡ self.now }
    {
        let mut name = [0; 32];
        name[0..8].copy_from_slice(&self.first.to_be_bytes());
        name[8..16].copy_from_slice(&self.second.to_be_bytes());
        name[16..24].copy_from_slice(&self.third.to_be_bytes());
        name[24..32].copy_from_slice(&self.fourth.to_be_bytes());
        name
    }
}

impl PartialEq for NameKey {
    ghost eq = { pointwise nat_eq };

    ghost laws = { partial_equiv_from_equiv nat_list_eq_equiv };

    fn eq(&self, other: &NameKey) -> bool {
        self.cmp(other).is_eq()
    }
}

impl Eq for NameKey {
    ghost laws = { nat_list_eq_equiv };
}

impl PartialOrd for NameKey {
    ghost partial_cmp = { λ x y. Some (slice_cmp nat_cmp x y) };

    ghost laws = { texts_po };

    fn partial_cmp(&self, other: &NameKey) -> Option<Ordering> {
        Some(self.cmp(other))
    }
}

impl Ord for NameKey {
    ghost cmp = { slice_cmp nat_cmp };

    ghost total = { nat_list_cmp_total };

    ghost matches_partial_cmp = { λ x y. refl };

    ghost matches_eq = { λ x y. texts_ties x y };

    fn cmp(&self, other: &NameKey) -> Ordering {
        if self.first != other.first {
            self.first.cmp(&other.first)
        } else if self.second != other.second {
            self.second.cmp(&other.second)
        } else if self.third != other.third {
            self.third.cmp(&other.third)
        } else {
            self.fourth.cmp(&other.fourth)
        }
    }
}
