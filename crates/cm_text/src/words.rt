ghost use Rattle.std.specs.Prelude.{◌≡◌, bytes_eq};

/// Whether the field is just this text, as `word == text` says; for a constant text in fewer steps.
#[inline(always)]
pub fn is_word(word: &[u8], text: &[u8]) -> bool
    ensures { result ≡ bytes_eq word.now text.now }
{
    if word.len() != text.len() {
        return false;
    }
    // Most other words begin with another byte.
    if 0 < text.len() && word[0] != text[0] {
        return false;
    }
    // With no way out at the first other byte, a constant text is compared several bytes at a time.
    let mut same = true;
    for at in 0..text.len() {
        same &= word[at] == text[at];
    }
    same
}
