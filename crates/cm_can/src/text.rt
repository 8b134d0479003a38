ghost use Rattle.std.specs.Prelude.{◌≡◌, ◌≢◌, ◌<◌, ◌≤◌, ◌+◌, ◌*◌, ◌++◌, ℕ, List, [], ◌∷◌, All, IfNone, IfSome, MatchOption, length};
ghost use Rattle.arrayvec.specs.ArrayVec.{array_vec_len};
ghost use Rattle.cm_text.specs.Hex.{glyph};
ghost use Rattle.cm_can.specs.Lines.{byte_digits, id_digits};

use crate::frame::CanId;
use arrayvec::ArrayVec;
use cm_text::digit;

/// The three digits of an identifier.
pub(crate) fn id_text(id: CanId) -> [u8; 3]
    ensures { result ≡ id_digits id.number }
{
    let number = id.number;
    [
        digit((number / 256) as u8),
        digit((number / 16 % 16) as u8),
        digit((number % 16) as u8),
    ]
}

/// Puts the digits of bytes behind a text.
pub(crate) fn push_bytes(text: &mut ArrayVec<u8, 32>, bytes: &[u8])
    requires { array_vec_len text.old + 2 * length bytes.now ≤ 32 }
    ensures { text.new.items ≡ text.old.items ++ byte_digits bytes.now }
{
    match bytes {
        [] => {}
        [first, rest @ ..] => {
            text.push(digit(*first / 16));
            text.push(digit(*first % 16));
            push_bytes(text, rest);
        }
    }
}

/// What a digit is worth, `0` to `9` and `A` to `F`; `None` exactly where the byte is none.
fn worth(byte: u8) -> Option<u8>
    ensures { MatchOption result ((d : ℕ) → d < 16 → byte ≢ glyph d)
        (λ d. (d < 16) × (byte ≡ glyph d)) }
{
    match byte {
        b'0'..=b'9' => Some(byte - b'0'),
        b'A'..=b'F' => Some(byte - b'A' + 10),
        _ => None,
    }
}

/// The byte of two digits; `None` exactly where they are those of none.
fn pair(high: u8, low: u8) -> Option<u8>
    ensures some { IfSome result (λ b. high ∷ low ∷ [] ≡ byte_digits (b ∷ [])) }
    ensures none { IfNone result ((b : ℕ) → b < 256 → high ∷ low ∷ [] ≢ byte_digits (b ∷ [])) }
{
    match (worth(high), worth(low)) {
        (Some(high), Some(low)) => Some(high * 16 + low),
        _ => None,
    }
}

/// The identifier of three digits; `None` exactly where they are those of none.
pub(crate) fn read_id(a: u8, b: u8, c: u8) -> Option<CanId>
    ensures some { IfSome result (λ id. a ∷ b ∷ c ∷ [] ≡ id_digits id.number) }
    ensures none { IfNone result ((n : ℕ) → n < 2048 → a ∷ b ∷ c ∷ [] ≢ id_digits n) }
{
    match (worth(a), worth(b), worth(c)) {
        (Some(a), Some(b), Some(c)) => {
            CanId::new(u16::from(a) * 256 + u16::from(b) * 16 + u16::from(c))
        }
        _ => None,
    }
}

/// The bytes of so many pairs of digits; `None` exactly where these are those of no bytes.
fn read_pairs(text: &[u8]) -> Option<ArrayVec<u8, 8>>
    requires { length text.now ≤ 16 }
    ensures some { IfSome result (λ bytes. text.now ≡ byte_digits bytes.items) }
    ensures none { IfNone result ((bytes : List ℕ) → All (λ b. b < 256) bytes
        → text.now ≢ byte_digits bytes) }
{
    match text {
        [] => Some(ArrayVec::new()),
        [high, low, rest @ ..] => {
            let Some(byte) = pair(*high, *low) else {
                return None;
            };
            let Some(mut bytes) = read_pairs(rest) else {
                return None;
            };
            bytes.insert(0, byte);
            Some(bytes)
        }
        _ => None,
    }
}

/// The bytes that a text spells, up to eight, two digits each; `None` exactly where it spells none.
pub(crate) fn read_bytes(text: &[u8]) -> Option<ArrayVec<u8, 8>>
    ensures some { IfSome result (λ bytes. text.now ≡ byte_digits bytes.items) }
    ensures none { IfNone result ((bytes : List ℕ) → length bytes ≤ 8 → All (λ b. b < 256) bytes
        → text.now ≢ byte_digits bytes) }
{
    if text.len() > 16 {
        return None;
    }
    read_pairs(text)
}
