ghost use Rattle.std.specs.Prelude.{◌≡◌, ◌<◌, ◌^◌};
ghost use Rattle.tally_records.specs.Compressed.{comp_of};

/// The value of a `comp_t` of acct(5): 13 bits of fraction, and above them 3 bits of a
/// base-8 exponent.
#[tactic(auto, using(crate::proofs::CompressedLemmas::shifted_out, crate::proofs::CompressedLemmas::shifted_small))]
pub fn comp(c: u16) -> u64
    ensures value { result ≡ comp_of c }
    ensures bounded { result < 2 ^ 34 }
{
    u64::from(c % 8192) << (3 * u32::from(c / 8192))
}
