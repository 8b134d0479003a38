//! Text of others, as names and values of a list, as far as it is shown.

use std::io::{self, Write};

/// The most characters of a text that are shown.
pub const LONGEST_TEXT: usize = 64;

/// Writes a character in UTF-8, and a question mark for a control character. It fails only where the writer does.
pub fn put_letter<W: Write>(letter: char, out: &mut W) -> io::Result<()> {
    if letter.is_control() {
        out.write_all(b"?")
    } else {
        write!(out, "{letter}")
    }
}

/// Writes a text in UTF-8, the first [`LONGEST_TEXT`] characters of a long one, each as [`put_letter`] does. It fails only where the
/// writer does.
pub fn put_text<W: Write>(text: &str, out: &mut W) -> io::Result<()> {
    for letter in text.chars().take(LONGEST_TEXT) {
        put_letter(letter, out)?;
    }
    Ok(())
}
