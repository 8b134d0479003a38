//! Numbers that an operator types.
ghost use Rattle.std.specs.Prelude.{◌≡◌, ◌≤◌, ◌<◌, IfSome};
ghost use Rattle.cm_typed.specs.Numbers.{decimal_of, digit_of, hex_digit_of, hexadecimal_of, number_of, typed_node};
ghost use Rattle.cm_text.specs.Picked.{within};

use cm_nmt::NodeId;

/// What a decimal digit is worth.
fn digit_of(byte: u8) -> Option<u8>
    ensures value { result ≡ digit_of byte }
    ensures small { IfSome result (λ d. d ≤ 9) }
{
    if b'0' <= byte && byte <= b'9' {
        Some(byte - b'0')
    } else {
        None
    }
}

/// What a hexadecimal digit is worth.
fn hex_digit_of(byte: u8) -> Option<u8>
    ensures value { result ≡ hex_digit_of byte }
    ensures small { IfSome result (λ d. d ≤ 15) }
{
    if b'0' <= byte && byte <= b'9' {
        return Some(byte - b'0');
    }
    if b'A' <= byte && byte <= b'F' {
        return Some(byte - b'A' + 10);
    }
    if b'a' <= byte && byte <= b'f' {
        return Some(byte - b'a' + 10);
    }
    None
}

/// The number as a byte, if it lies in this range.
fn within(least: u16, most: u8, number: u16) -> Option<u8>
    ensures { result ≡ within least most number }
{
    if least <= number && number <= u16::from(most) {
        Some(number as u8)
    } else {
        None
    }
}

/// The number of one to three decimal digits, 0 to 255, with no 0 in front.
fn decimal_of(word: &[u8]) -> Option<u8>
    ensures { result ≡ decimal_of word.now }
{
    match word {
        [a] => digit_of(*a),
        [a, b] => {
            let tens = u16::from(digit_of(*a)?);
            within(10, 99, tens * 10 + u16::from(digit_of(*b)?))
        }
        [a, b, c] => {
            let hundreds = u16::from(digit_of(*a)?);
            let tens = u16::from(digit_of(*b)?);
            within(
                100,
                255,
                (hundreds * 10 + tens) * 10 + u16::from(digit_of(*c)?),
            )
        }
        _ => None,
    }
}

/// The number of one or two hexadecimal digits.
fn hexadecimal_of(word: &[u8]) -> Option<u8>
    ensures { result ≡ hexadecimal_of word.now }
{
    match word {
        [a] => hex_digit_of(*a),
        [a, b] => {
            let high = hex_digit_of(*a)?;
            Some(high * 16 + hex_digit_of(*b)?)
        }
        _ => None,
    }
}

/// The number that a word spells: hexadecimal digits behind "0x", else decimal ones; `None` exactly where it spells none.
pub fn number_of(word: &[u8]) -> Option<u8>
    ensures { result ≡ number_of word.now }
{
    match word {
        [b'0', b'x', digits @ ..] => hexadecimal_of(digits),
        _ => decimal_of(word),
    }
}

/// The node-ID that a word spells (CiA 301).
pub fn typed_node(word: &[u8]) -> Option<NodeId>
    ensures { result ≡ typed_node word.now }
{
    NodeId::new(number_of(word)?)
}
