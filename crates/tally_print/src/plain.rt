//! Texts that are printed as they are, looked through by 16 bytes at a time.
ghost use Rattle.std.specs.Bool.{OnTrue};
ghost use Rattle.std.specs.Prelude.{◌≡◌, ◌≤◌, ◌+◌, [], drop, length};
ghost use Rattle.tally_print.specs.Text.{shown};
ghost use Rattle.tally_print.specs.inside.Plain.{ArePlain, IsRun, is_unusual, lowest_bit};

use std::simd::prelude::*;

const LANES: usize = 16;

/// Whether a byte is printed otherwise or not at all, or is a mark of the format of tables.
fn is_unusual(byte: u8) -> bool
    ensures { result ≡ is_unusual byte }
{
    byte < 0x20 || byte > 0x7E || byte == b',' || byte == b'"'
}

/// The place of the lowest bit, or the number of lanes where there is none.
fn lowest_bit(mask: u64) -> usize
    ensures { result ≡ lowest_bit mask }
{
    if mask == 0 {
        LANES
    } else {
        mask.trailing_zeros() as usize
    }
}

/// How many of 16 bytes stand before the first unusual one.
#[inline(always)]
fn plain_run(field: &[u8], at: usize) -> usize
    requires { at + LANES ≤ length field.now }
    ensures { IsRun field.now at result }
{
    let bytes = u8x16::from_slice(&field[at..]);
    let unprinted = bytes.simd_lt(u8x16::splat(0x20)) | bytes.simd_gt(u8x16::splat(0x7E));
    let marks = bytes.simd_eq(u8x16::splat(b',')) | bytes.simd_eq(u8x16::splat(b'"'));
    lowest_bit((unprinted | marks).to_bitmask())
}

/// Where the plain bytes end, byte by byte.
fn plain_end(field: &[u8], from: usize) -> usize
    requires { from ≤ length field.now }
    ensures from { from ≤ result }
    ensures within { result ≤ length field.now }
    ensures plain { ArePlain field.now from result }
{
    let mut end = from;
    while end < field.len() && !is_unusual(field[end]) {
        end += 1;
    }
    end
}

/// How many plain bytes the field begins with.
pub(crate) fn plain_len(field: &[u8]) -> usize
    ensures within { result ≤ length field.now }
    ensures plain { ArePlain field.now 0 result }
{
    let mut at = 0;
    while field.len() - at >= LANES {
        let run = plain_run(field, at);
        at += run;
        if run < LANES {
            return at;
        }
    }
    plain_end(field, at)
}

/// Whether the text of a field is over before the byte at `at`.
pub(crate) fn is_over(field: &[u8], at: usize) -> bool
    requires { at ≤ length field.now }
    ensures { OnTrue result (shown (drop at field.now) ≡ []) }
{
    if at == field.len() {
        return true;
    }
    field[at] == 0
}
