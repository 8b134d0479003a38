ghost use Rattle.std.specs.Prelude.{◌≡◌, ◌≢◌, ◌<◌, ◌≤◌, ◌*◌, ◌^◌, ◌==◌, ℕ, [], ◌∷◌, Some, None, MatchOption, if◌then◌else◌, length};
ghost use Rattle.cm_text.specs.Hex.{glyph, nibble, hex_two, hex_four, hex_eight, two_of, four_of, eight_of, padded, digits_of};

/// The digit that is worth this much, as `D` for 13.
pub fn digit(worth: u8) -> u8
    requires { worth < 16 }
    ensures { result ≡ glyph worth }
{
    if worth < 10 {
        b'0' + worth
    } else {
        b'A' + (worth - 10)
    }
}

/// The two digits that spell a byte, the high one first, as `0D` for 13.
#[tactic(auto, unfolding(crate::specs::Hex::hex_two))]
pub fn hex2(n: u8) -> [u8; 2]
    ensures { result ≡ hex_two n }
{
    [digit(n / 16), digit(n % 16)]
}

/// The four digits that spell a number of 16 bits, the high one first.
#[tactic(auto, unfolding(crate::specs::Hex::hex_four))]
pub fn hex4(n: u16) -> [u8; 4]
    ensures { result ≡ hex_four n }
{
    let [a, b] = hex2((n / 256) as u8);
    let [c, d] = hex2((n % 256) as u8);
    [a, b, c, d]
}

/// The eight digits that spell a number of 32 bits, the high one first.
#[tactic(auto, unfolding(crate::specs::Hex::hex_eight))]
pub fn hex8(n: u32) -> [u8; 8]
    ensures { result ≡ hex_eight n }
{
    let [a, b, c, d] = hex4((n / 65536) as u16);
    let [e, f, g, h] = hex4((n % 65536) as u16);
    [a, b, c, d, e, f, g, h]
}

// Above every number that digits spell here, and small enough that eight of them add up.
const NONE: u64 = 1 << 32;

// What each byte is worth as a digit.
const WORTHS: [u64; 256] = [
    NONE, NONE, NONE, NONE, NONE, NONE, NONE, NONE, NONE, NONE, NONE, NONE, NONE, NONE, NONE, NONE,
    NONE, NONE, NONE, NONE, NONE, NONE, NONE, NONE, NONE, NONE, NONE, NONE, NONE, NONE, NONE, NONE,
    NONE, NONE, NONE, NONE, NONE, NONE, NONE, NONE, NONE, NONE, NONE, NONE, NONE, NONE, NONE, NONE,
    0, 1, 2, 3, 4, 5, 6, 7, 8, 9, NONE, NONE, NONE, NONE, NONE, NONE, NONE, 10, 11, 12, 13, 14, 15,
    NONE, NONE, NONE, NONE, NONE, NONE, NONE, NONE, NONE, NONE, NONE, NONE, NONE, NONE, NONE, NONE,
    NONE, NONE, NONE, NONE, NONE, NONE, NONE, NONE, NONE, NONE, NONE, NONE, NONE, NONE, NONE, NONE,
    NONE, NONE, NONE, NONE, NONE, NONE, NONE, NONE, NONE, NONE, NONE, NONE, NONE, NONE, NONE, NONE,
    NONE, NONE, NONE, NONE, NONE, NONE, NONE, NONE, NONE, NONE, NONE, NONE, NONE, NONE, NONE, NONE,
    NONE, NONE, NONE, NONE, NONE, NONE, NONE, NONE, NONE, NONE, NONE, NONE, NONE, NONE, NONE, NONE,
    NONE, NONE, NONE, NONE, NONE, NONE, NONE, NONE, NONE, NONE, NONE, NONE, NONE, NONE, NONE, NONE,
    NONE, NONE, NONE, NONE, NONE, NONE, NONE, NONE, NONE, NONE, NONE, NONE, NONE, NONE, NONE, NONE,
    NONE, NONE, NONE, NONE, NONE, NONE, NONE, NONE, NONE, NONE, NONE, NONE, NONE, NONE, NONE, NONE,
    NONE, NONE, NONE, NONE, NONE, NONE, NONE, NONE, NONE, NONE, NONE, NONE, NONE, NONE, NONE, NONE,
    NONE, NONE, NONE, NONE, NONE, NONE, NONE, NONE, NONE, NONE, NONE, NONE, NONE, NONE, NONE, NONE,
    NONE, NONE, NONE, NONE, NONE, NONE, NONE, NONE, NONE, NONE, NONE, NONE, NONE, NONE, NONE, NONE,
    NONE, NONE, NONE, NONE, NONE, NONE, NONE, NONE, NONE,
];

// What a digit is worth, and `NONE` for any other byte: by a table, so that nothing is foretold.
#[inline(always)]
fn worth(byte: u8) -> u64
    ensures value { MatchOption (if glyph (nibble byte) == byte then Some (nibble byte) else None)
        (2 ^ 32 ≤ result) (λ n. result ≡ n) }
    ensures small { result ≤ 2 ^ 32 }
{
    WORTHS[byte as usize]
}

// The number that two digits spell, and 2^32 or more where one of them is none.
#[inline(always)]
fn pair(a: u8, b: u8) -> u64
    ensures value { MatchOption (two_of (a ∷ b ∷ [])) (2 ^ 32 ≤ result) (λ n. result ≡ n) }
    ensures small { result ≤ 17 * 2 ^ 32 }
{
    worth(a) * 16 + worth(b)
}

// The number that four digits spell, and 2^32 or more where one of them is none.
#[inline(always)]
fn quad(a: u8, b: u8, c: u8, d: u8) -> u64
    ensures value { MatchOption (four_of (a ∷ b ∷ c ∷ d ∷ [])) (2 ^ 32 ≤ result) (λ n. result ≡ n) }
    ensures small { result ≤ 4369 * 2 ^ 32 }
{
    pair(a, b) * 256 + pair(c, d)
}

// The number that eight digits spell, and 2^32 or more where one of them is none.
#[inline(always)]
fn octet(digits: [u8; 8]) -> u64
    ensures { MatchOption (eight_of digits) (2 ^ 32 ≤ result) (λ n. result ≡ n) }
{
    let [a, b, c, d, e, f, g, h] = digits;
    quad(a, b, c, d) * 65536 + quad(e, f, g, h)
}

// Eight digits, of which these are the last, and the others 0.
#[inline(always)]
fn padded(word: &[u8]) -> [u8; 8]
    requires { length word.now ≤ 8 }
    ensures { result ≡ padded word.now }
{
    let mut digits = [b'0'; 8];
    digits[8 - word.len()..].copy_from_slice(word);
    digits
}

// The number that exactly so many digits spell, and 2^32 or more where the field is no such digits.
#[inline(always)]
fn number(word: &[u8], width: usize) -> u64
    requires { width ≤ 8 }
    ensures { MatchOption (digits_of width word.now) (2 ^ 32 ≤ result) (λ n. result ≡ n) }
{
    if word.len() != width {
        return NONE;
    }
    // Eight digits are read where they stand, with no copy.
    if let [a, b, c, d, e, f, g, h] = word {
        octet([*a, *b, *c, *d, *e, *f, *g, *h])
    } else {
        octet(padded(word))
    }
}

/// The byte that exactly two digits, `0` to `9` and `A` to `F`, spell; `None` exactly where the
/// field is no such digits.
pub(crate) fn read_hex2(word: &[u8]) -> Option<u8>
    ensures value { result ≡ two_of word.now }
    ensures exact { MatchOption result
        ((n : ℕ) → n < 2 ^ 8 → word.now ≢ hex_two n)
        (λ n. word.now ≡ hex_two n) }
{
    u8::try_from(number(word, 2)).ok()
}

/// The number of 16 bits that exactly four digits, `0` to `9` and `A` to `F`, spell; `None`
/// exactly where the field is no such digits.
pub(crate) fn read_hex4(word: &[u8]) -> Option<u16>
    ensures value { result ≡ four_of word.now }
    ensures exact { MatchOption result
        ((n : ℕ) → n < 2 ^ 16 → word.now ≢ hex_four n)
        (λ n. word.now ≡ hex_four n) }
{
    u16::try_from(number(word, 4)).ok()
}

/// The number of 32 bits that exactly eight digits, `0` to `9` and `A` to `F`, spell; `None`
/// exactly where the field is no such digits.
#[inline(always)]
pub fn read_hex8(word: &[u8]) -> Option<u32>
    ensures value { result ≡ eight_of word.now }
    ensures exact { MatchOption result
        ((n : ℕ) → n < 2 ^ 32 → word.now ≢ hex_eight n)
        (λ n. word.now ≡ hex_eight n) }
{
    u32::try_from(number(word, 8)).ok()
}
