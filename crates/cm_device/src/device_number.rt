//! Numbers of a device file, and what its sections are named for (CiA 306).

ghost use Rattle.std.specs.Prelude.{◌≡◌, ◌⊎◌, ◌≤◌, IfNone, IfOk, IfSome, IsTrue, false};
ghost use Rattle.cm_device.specs.DeviceFiles.{AreSummed, IsBesideId, IsNegative, IsNoNumber, IsNodeId, IsNumber, IsObject, IsPlain, IsReal};
ghost use Rattle.cm_device.specs.DeviceFiles.{IsTypedNumber, IsWritten, base_and_digits, half_of, size_of};
ghost use Rattle.cm_nmt.specs.Size.{is_size};

use crate::device_file::is_same;
use cm_nmt::NodeId;
use cm_text::{Fields, is_word};
use std::num::f32_to_bits_with_nan;
use std::str;

/// Why a text is no number of a data type.
#[derive(Clone, Copy)]
pub enum NumberFault {
    /// It is no number.
    None,
    /// It is one, but not of the data type.
    Wide,
    /// It is a whole number of REAL32: it isn't said whether these are its bits.
    Whole,
}

/// REAL32 (CiA 301).
const REAL32: u32 = 8;

/// The number of 32 bits at most that the digits are in this base.
fn in_base(digits: &[u8], base: u32) -> Option<u32>
    requires { (2 ≤ base) × (base ≤ 36) }
    ensures number { IfSome result (λ n. IsWritten base digits.now n) }
    ensures none { IfNone result ((n : _) → IsWritten base digits.now n → ⊥) }
{
    if let [b'+', ..] = digits {
        return None;
    }
    match str::from_utf8(digits) {
        Ok(digits) => u32::from_str_radix(digits, base).ok(),
        Err(_) => None,
    }
}

/// The base and the digits of a number as C has it: behind `0x` base 16, behind another 0 base 8, else base 10.
fn base_and_digits(text: &[u8]) -> (u32, &[u8])
    ensures base { result.0 ≡ (base_and_digits text.now).0 }
    ensures digits { result.1.now ≡ (base_and_digits text.now).1 }
    ensures small { (2 ≤ result.0) × (result.0 ≤ 36) }
{
    match text {
        [b'0', b'x' | b'X', digits @ ..] => (16, digits),
        [b'0', _, ..] => (8, &text[1..]),
        _ => (10, text),
    }
}

/// The number as C has it.
pub(crate) fn plain_number(text: &[u8]) -> Option<u32>
    ensures number { IfSome result (λ n. IsPlain text.now n) }
    ensures none { IfNone result ((n : _) → IsPlain text.now n → ⊥) }
{
    let (base, digits) = base_and_digits(text);
    in_base(digits, base)
}

/// Whether the text stands for the node-ID.
fn is_node_id(text: &[u8]) -> bool
    ensures same { IsTrue result → IsNodeId text.now }
    ensures other { result ≡ false → IsNodeId text.now → ⊥ }
{
    is_same(text, b"$NODEID")
}

/// The number of a value: a plain one, the node-ID, or the sum of both.
pub fn number(text: &[u8], node: NodeId) -> Option<u32>
    ensures number { IfSome result (λ n. IsNumber node text.now n) }
    ensures none { IfNone result (IsNoNumber node text.now) }
{
    if is_node_id(text) {
        return Some(u32::from(node.get()));
    }
    let mut parts = Fields::new(text, b'+');
    let first = parts.next_field()?;
    let Some(second) = parts.next_field() else {
        return plain_number(text);
    };
    if !parts.is_done() {
        return None;
    }
    sum(first.trim_ascii(), second.trim_ascii(), node)
}

/// The plain number of two texts of which the other one stands for the node-ID.
fn beside_id(first: &[u8], second: &[u8]) -> Option<u32>
    ensures number { IfSome result (IsBesideId first.now second.now) }
    ensures none { IfNone result ((n : _) → IsBesideId first.now second.now n → ⊥) }
{
    if is_node_id(first) {
        return plain_number(second);
    }
    if is_node_id(second) {
        return plain_number(first);
    }
    None
}

/// The sum of the node-ID and a plain number, in either order.
fn sum(first: &[u8], second: &[u8], node: NodeId) -> Option<u32>
    ensures number { IfSome result (λ n. AreSummed node first.now second.now n) }
    ensures none { IfNone result ((n : _) → AreSummed node first.now second.now n → ⊥) }
{
    let other = beside_id(first, second)?;
    other.checked_add(u32::from(node.get()))
}

/// The index that these digits are.
pub(crate) fn index_of(digits: &[u8]) -> Option<u16>
    ensures { IfSome result (λ n. IsWritten 16 digits.now n) }
{
    u16::try_from(in_base(digits, 16)?).ok()
}

/// The sub-index that these digits are.
fn sub_index_of(digits: &[u8]) -> Option<u8>
    ensures { IfSome result (λ n. IsWritten 16 digits.now n) }
{
    u8::try_from(in_base(digits, 16)?).ok()
}

/// The index and the sub-index of the object that a section is named for: four hexadecimal digits, and `sub` with the digits of
/// a sub-index behind them, if it has one.
pub fn object_of(name: &[u8]) -> Option<(u16, u8)>
    ensures { IfSome result (λ o. IsObject name.now o) }
{
    if name.len() == 4 {
        return Some((index_of(name)?, 0));
    }
    if name.len() < 7 {
        return None;
    }
    let (digits, rest) = name.split_at(4);
    let (word, sub) = rest.split_at(3);
    if !is_same(word, b"sub") {
        return None;
    }
    Some((index_of(digits)?, sub_index_of(sub)?))
}

/// The size in bytes of the values of a data type, where a write can have it: BOOLEAN, INTEGER8, 16 and 32, UNSIGNED8, 16
/// and 32, REAL32 (CiA 301).
pub(crate) fn size_of(data_type: u32) -> Option<u8>
    ensures value { result ≡ size_of data_type }
    ensures size { IfSome result (λ s. IsTrue (is_size s)) }
{
    match data_type {
        1 | 2 | 5 => Some(1),
        3 | 6 => Some(2),
        4 | 7 | 8 => Some(4),
        _ => None,
    }
}

/// Whether the number fits into so many bytes.
fn fits(size: u8, number: u32) -> bool {
    match size {
        1 => number < 256,
        2 => number < 65_536,
        _ => true,
    }
}

/// Half of the numbers of a data type of this size.
fn half_of(size: u8) -> u32
    ensures { result ≡ half_of size }
{
    match size {
        1 => 0x80,
        2 => 0x8000,
        _ => 0x8000_0000,
    }
}

/// The bits of the number below 0 whose digits these are, of a signed data type of this size: its two's complement.
fn below_zero(size: u8, text: &[u8]) -> Result<u32, NumberFault>
    ensures { IfOk result (IsNegative size text.now) }
{
    let [b'-', digits @ ..] = text else {
        return Err(NumberFault::None);
    };
    let Some(below) = plain_number(digits) else {
        return Err(NumberFault::None);
    };
    let half = half_of(size);
    if below == 0 || half < below {
        return Err(NumberFault::Wide);
    }
    Ok(half - below + half)
}

/// Whether a text has only bytes of a real number in base 10, and a point or an exponent among them.
fn is_real(text: &[u8]) -> bool {
    let mut has_point = false;
    for byte in text {
        match *byte {
            b'.' | b'e' | b'E' => has_point = true,
            b'0'..=b'9' | b'-' | b'+' => {}
            _ => return false,
        }
    }
    has_point
}

/// The bits of a real number of 32 bits: those of one in base 10 with a point or an exponent, or the ones that are given in base 16.
fn real_bits(text: &[u8]) -> Result<u32, NumberFault>
    ensures { IfOk result (λ n. IsReal text.now n ⊎ (((base_and_digits text.now).0 ≡ 16) × IsPlain text.now n)) }
{
    if let [b'0', b'x' | b'X', ..] = text {
        return plain_number(text).ok_or(NumberFault::None);
    }
    if !is_real(text) && !is_word(text, b"0") {
        return Err(whole_fault(text));
    }
    let parsed: f32 = match fast_float::parse(text) {
        Ok(parsed) => parsed,
        Err(_) => return Err(NumberFault::None),
    };
    if parsed.is_finite() {
        Ok(f32_to_bits_with_nan(parsed))
    } else {
        Err(NumberFault::Wide)
    }
}

/// Why a text of REAL32 without a point isn't taken.
fn whole_fault(text: &[u8]) -> NumberFault {
    match plain_number(text) {
        Some(_) => NumberFault::Whole,
        None => NumberFault::None,
    }
}

/// The bits of a number of a data type of this size: a plain one, the node-ID, or the sum of both, or a plain one below 0 of INTEGER8,
/// INTEGER16 and INTEGER32; of REAL32 a real number.
pub(crate) fn typed_number(
    data_type: u32,
    size: u8,
    text: &[u8],
    node: NodeId,
) -> Result<u32, NumberFault>
    ensures { IfOk result (IsTypedNumber data_type size node text.now) }
{
    if data_type == REAL32 {
        return real_bits(text);
    }
    match number(text, node) {
        Some(number) if fits(size, number) => Ok(number),
        Some(_) => Err(NumberFault::Wide),
        None => signed_number(data_type, size, text),
    }
}

/// The bits of a number below 0, of a data type that has such.
fn signed_number(data_type: u32, size: u8, text: &[u8]) -> Result<u32, NumberFault>
    ensures { IfOk result (λ n. ((2 ≤ data_type) × (data_type ≤ 4)) × IsNegative size text.now n) }
{
    if data_type < 2 || 4 < data_type {
        return Err(NumberFault::None);
    }
    below_zero(size, text)
}
