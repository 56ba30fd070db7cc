//! The name of a command, 16 bytes at a time.
ghost use Rattle.std.specs.Prelude.{◌≡◌, ◌≤◌, ◌++◌, ◌∷◌, [], length, take};
ghost use Rattle.tally_records.specs.Text.{text_of};
ghost use Rattle.tally_records.specs.inside.Names.{lowest_bit};

use crate::field::Comm;
use std::simd::prelude::*;

const LANES: usize = 16;

/// The places of 16 bytes.
const PLACES: [u8; LANES] = [0, 1, 2, 3, 4, 5, 6, 7, 8, 9, 10, 11, 12, 13, 14, 15];

/// The place of the lowest bit of 16, or 16 where there is none.
fn lowest_bit(mask: u64) -> u8
    ensures { result ≡ lowest_bit mask }
{
    if mask == 0 {
        16
    } else {
        mask.trailing_zeros() as u8
    }
}

/// The text of a field's first 16 bytes: those before the first NUL, and then zeros.
#[inline(always)]
fn short_text(field: &[u8]) -> [u8; LANES]
    requires { LANES ≤ length field.now }
    ensures { result ≡ text_of 16 (take 16 field.now) }
{
    let bytes = u8x16::from_slice(field);
    let end = lowest_bit(bytes.simd_eq(u8x16::splat(0)).to_bitmask());
    let is_before = u8x16::from_array(PLACES).simd_lt(u8x16::splat(end));
    is_before.select(bytes, u8x16::splat(0)).to_array()
}

/// The 16 first bytes of a name, and the last.
fn with_last(front: [u8; LANES], last: u8) -> Comm
    ensures { result ≡ front ++ (last ∷ []) }
{
    let mut comm = [last; 17];
    comm[..LANES].copy_from_slice(&front);
    comm
}

/// The name of the command in a field of 16 or 17 bytes. The last of 17 belongs to it where none of the others is NUL.
pub(crate) fn name_of(field: &[u8]) -> Comm
    requires whole { LANES ≤ length field.now }
    requires few { length field.now ≤ 17 }
    ensures { result ≡ text_of 17 field.now }
{
    let front = short_text(field);
    if field.len() == LANES {
        return with_last(front, 0);
    }
    if front[LANES - 1] == 0 {
        return with_last(front, 0);
    }
    with_last(front, field[LANES])
}
