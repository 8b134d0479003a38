//! Fields that are read where they stand: no end is looked for, but the one byte behind is tested.

ghost use Rattle.std.specs.Prelude.{◌≡◌, ◌<◌, ◌≤◌, ◌+◌, ◌∷◌, ◌++◌, true, false, Some, None, MatchOption, IfSome, decimal};
ghost use Rattle.cm_text.specs.Words.{split};
ghost use Rattle.cm_text.specs.FieldReading.{field_at, word_is};
ghost use Rattle.cm_text.specs.Left.{parts};
ghost use Rattle.cm_text.specs.Ends.{behind, Lacks, Holds, IsOfOtherWidth, IsFirst};

use crate::words::is_word;

// What is left behind a first part that these bytes follow; `None` where the part goes on.
#[inline(always)]
fn behind(bytes: &[u8], separator: u8) -> Option<Option<&[u8]>>
    ensures { MatchOption result
        (behind separator bytes.now ≡ None)
        (λ rest. behind separator bytes.now ≡ Some (parts separator rest)) }
{
    let Some((first, rest)) = bytes.split_first() else {
        return Some(None);
    };
    if *first == separator {
        Some(Some(rest))
    } else {
        None
    }
}

/// The first field of a line, if it has so many bytes and they are plain, with what is left behind
/// it. Only the byte behind it is looked at.
#[inline(always)]
pub(crate) fn first(bytes: &[u8], width: usize) -> Option<(&[u8], Option<&[u8]>)>
    ensures { MatchOption result
        (IsOfOtherWidth width (split 32 bytes.now))
        (λ r. IsFirst width r.0.now (parts 32 r.1) (split 32 bytes.now)) }
{
    if bytes.len() < width {
        return None;
    }
    let (word, tail) = bytes.split_at(width);
    match behind(tail, b' ') {
        Some(rest) => Some((word, rest)),
        None => None,
    }
}

/// The first so many bytes and what stands behind the space after them. `None` says nothing.
#[inline(always)]
pub(crate) fn near_field(bytes: &[u8], width: usize) -> Option<(&[u8], &[u8])>
    ensures { IfSome result (λ r. bytes.now ≡ r.0.now ++ 32 ∷ r.1.now) }
{
    if width < bytes.len() && bytes[width] == b' ' {
        Some((&bytes[..width], &bytes[width + 1..]))
    } else {
        None
    }
}

// Whether the byte is in the text. With no way out at the first one, this is known of a constant
// text.
#[inline(always)]
fn has_byte(text: &[u8], byte: u8) -> bool
    ensures lacks { result ≡ false → Lacks byte text.now }
    ensures holds { result ≡ true → Holds byte text.now }
{
    let mut held = false;
    for at in 0..text.len() {
        held |= text[at] == byte;
    }
    held
}

// As `has_byte`, where the byte is no constant.
#[inline(never)]
fn has_any_byte(text: &[u8], byte: u8) -> bool
    ensures lacks { result ≡ false → Lacks byte text.now }
    ensures holds { result ≡ true → Holds byte text.now }
{
    has_byte(text, byte)
}

// Whether the separator is in the text; most are spaces, of which it is known of a constant text.
#[inline(always)]
fn holds(text: &[u8], separator: u8) -> bool
    ensures lacks { result ≡ false → Lacks separator text.now }
    ensures holds { result ≡ true → Holds separator text.now }
{
    if separator == b' ' {
        has_byte(text, b' ')
    } else {
        has_any_byte(text, separator)
    }
}

/// What is left behind the text, if it is the first part of these bytes.
#[inline(always)]
pub(crate) fn behind_text<'a>(
    bytes: &'a [u8],
    text: &[u8],
    separator: u8,
) -> Option<Option<&'a [u8]>>
    ensures { MatchOption result
        (field_at (word_is text.now) (split separator bytes.now) ≡ None)
        (λ rest. split separator bytes.now ≡ text.now ∷ parts separator rest) }
{
    if bytes.len() < text.len() {
        return None;
    }
    let (front, tail) = bytes.split_at(text.len());
    if !is_word(front, text) {
        return None;
    }
    if holds(text, separator) {
        return None;
    }
    behind(tail, separator)
}

// What a digit is worth, and 10 or more for any other byte.
#[inline(always)]
fn worth(byte: u8) -> u64
    ensures { result < 10 → byte ≡ result + 48 }
{
    u64::from(byte).wrapping_sub(u64::from(b'0'))
}

// How many bytes are looked at for a number and the space that ends it.
const NEAR: usize = 8;

/// The number, 0 to `most`, that these bytes begin with, and what is left behind the space after it.
/// `None` says nothing: the number may be long, or stand near the end.
#[inline(always)]
pub(crate) fn near_decimal(bytes: &[u8], most: u64) -> Option<(u64, &[u8])>
    ensures { IfSome result (λ r. (bytes.now ≡ decimal r.0 ++ 32 ∷ r.1.now) × (r.0 ≤ most)) }
{
    if bytes.len() < NEAR {
        return None;
    }
    let mut n = worth(bytes[0]);
    if 9 < n {
        return None;
    }
    for at in 1..NEAR {
        if bytes[at] == b' ' && n <= most {
            return Some((n, &bytes[at + 1..]));
        }
        let digit = worth(bytes[at]);
        if 9 < digit || n == 0 {
            return None;
        }
        n = n * 10 + digit;
    }
    None
}
