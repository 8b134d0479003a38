ghost use Rattle.std.specs.Prelude.{◌≡◌, ◌≢◌, ◌≤◌, ℕ, MatchOption, IfSome, decimal};
ghost use Rattle.cm_text.specs.Decimal.{dec_of};

/// The number, 0 to `most`, that a field of decimal digits spells; `None` exactly where it spells
/// none: no digits, a leading zero, a sign, any other byte, or a number above `most`.
pub(crate) fn read_decimal(word: &[u8], most: u64) -> Option<u64>
    ensures value { result ≡ dec_of most word.now }
    ensures small { IfSome result (λ n. n ≤ most) }
    ensures exact { MatchOption result
        ((n : ℕ) → n ≤ most → word.now ≢ decimal n)
        (λ n. word.now ≡ decimal n) }
{
    decimal_value(word, most)
}

// Digit by digit, and given up where the number so far is above `most`.
fn decimal_value(word: &[u8], most: u64) -> Option<u64>
    ensures value { result ≡ dec_of most word.now }
    ensures small { IfSome result (λ n. n ≤ most) }
{
    if *word.first()? == b'0' && 1 < word.len() {
        return None;
    }
    let tenth = most / 10;
    let mut n = 0;
    for byte in word {
        if !byte.is_ascii_digit() {
            return None;
        }
        let digit = u64::from(*byte - b'0');
        if tenth < n || most - n * 10 < digit {
            return None;
        }
        n = n * 10 + digit;
    }
    Some(n)
}
