//! Where a separator stands first, and the two parts there.

ghost use Rattle.std.specs.Prelude.{◌≡◌, ◌==◌, ◌∷◌, map, position};
ghost use Rattle.std.specs.Simd.Lanes.{mask_l};
ghost use Rattle.cm_text.specs.Words.{split};
ghost use Rattle.cm_text.specs.Left.{parts};

use memchr::memchr;
use std::simd::prelude::*;

// Lines are long: where one ends is found many bytes at a time.
#[inline(never)]
#[tactic(auto, using(crate::proofs::Splits::first_is_position))]
fn far_place(bytes: &[u8], separator: u8) -> Option<usize>
    ensures { result ≡ position (λ b. b == separator) bytes.now }
{
    memchr(separator, bytes)
}

// Where spaces stand among sixteen bytes: the number whose bit k says so of byte k.
#[inline(always)]
fn spaces(bytes: u8x16) -> u64
    ensures { result ≡ mask_l (map (λ b. b == 32) bytes) }
{
    bytes.simd_eq(u8x16::splat(b' ')).to_bitmask()
}

// Fields are short: most end within sixteen bytes, which are tested at once.
#[inline(always)]
fn near_space(bytes: &[u8]) -> Option<usize>
    ensures { result ≡ position (λ b. b == 32) bytes.now }
{
    if 16 <= bytes.len() {
        let found = spaces(u8x16::from_slice(bytes));
        if found != 0 {
            return Some(found.trailing_zeros() as usize);
        }
    }
    bytes.iter().position(|b| *b == b' ')
}

#[inline(always)]
fn place(bytes: &[u8], separator: u8) -> Option<usize>
    ensures { result ≡ position (λ b. b == separator) bytes.now }
{
    if separator == b' ' {
        near_space(bytes)
    } else {
        far_place(bytes, separator)
    }
}

/// What stands before the first separator, and what stands after it.
pub(crate) fn cut(bytes: &[u8], separator: u8) -> (&[u8], Option<&[u8]>)
    ensures { split separator bytes.now ≡ result.0.now ∷ parts separator result.1 }
{
    match place(bytes, separator) {
        Some(at) => (&bytes[..at], Some(&bytes[at + 1..])),
        None => (bytes, None),
    }
}
