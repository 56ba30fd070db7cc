//! The elapsed time of version 3 of acct(5), a float in ticks.
ghost use Rattle.std.specs.Prelude.{◌≡◌, ◌≤◌, ◌<◌, ◌^◌, ◌↔◌, IsTrue};
ghost use Rattle.tally_records.specs.Elapsed as spec;

/// Bits of the fraction; before it stands the float's first digit, a one.
const FRACTION_BITS: u32 = 23;
/// The exponent of the numbers from 1 to 2.
const EXPONENT_OF_ONE: u32 = 127;
/// The exponent at which the last bit of the fraction counts single ticks.
const EXPONENT_OF_TICKS: u32 = 150;
/// The exponent of the greatest numbers below 2^64.
const GREATEST_EXPONENT: u32 = 190;

fn is_negative(word: u32) -> bool
    ensures { IsTrue result ↔ IsTrue (spec.is_negative word) }
{
    word >> 31 == 1
}

fn exponent_of(word: u32) -> u32
    ensures { result ≡ spec.exponent_of word }
{
    (word >> FRACTION_BITS) % 256
}

fn significand_of(word: u32) -> u64
    ensures value { result ≡ spec.significand_of word }
    ensures bounded { result < 2 ^ 24 }
{
    (1 << FRACTION_BITS) + u64::from(word % (1 << FRACTION_BITS))
}

/// The whole part of the number of these digits and this exponent.
#[tactic(auto, using(crate::proofs::ElapsedLemmas::none_below_one, crate::proofs::ElapsedLemmas::digits_cut_off, crate::proofs::ElapsedLemmas::zeros_filled_in))]
fn rounded_down(significand: u64, exponent: u32) -> u64
    requires digits { significand < 2 ^ 24 }
    requires fits { exponent ≤ GREATEST_EXPONENT }
    ensures { result ≡ spec.rounded_down significand exponent }
{
    if exponent < EXPONENT_OF_ONE {
        0
    } else if exponent < EXPONENT_OF_TICKS {
        significand >> (EXPONENT_OF_TICKS - exponent)
    } else {
        significand << (exponent - EXPONENT_OF_TICKS)
    }
}

/// The whole ticks of `ac_etime` of struct acct_v3, linux/acct.h: 0 of a negative number, and the
/// greatest count of 2^64 and more and of what is no number.
#[tactic(auto, unfolding(crate::specs::Elapsed::elapsed_of))]
pub(crate) fn elapsed(word: u32) -> u64
    ensures { result ≡ spec.elapsed_of word }
{
    let exponent = exponent_of(word);
    if is_negative(word) || exponent == 0 {
        return 0;
    }
    if exponent > GREATEST_EXPONENT {
        return u64::MAX;
    }
    rounded_down(significand_of(word), exponent)
}
