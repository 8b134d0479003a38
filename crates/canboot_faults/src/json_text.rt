//! Text inside a string of JSON (RFC 8259).

use std::io::{self, Write};

/// Whether the character doesn't stand in a string as it is.
fn is_escaped(byte: u8) -> bool {
    matches!(byte, b'"' | b'\\' | 0..=31)
}

/// Writes a character as it stands in a string.
fn put_escaped<W: Write>(out: &mut W, byte: u8) -> io::Result<()> {
    match byte {
        b'"' => out.write_all(b"\\\""),
        b'\\' => out.write_all(b"\\\\"),
        0..=31 => write!(out, "\\u{byte:04x}"),
        _ => out.write_all(&[byte]),
    }
}

/// A writer that passes on what is written to it, each character as it stands in a string.
#[derive(Drop)]
pub(crate) struct JsonText<'e, E: Write> {
    inner: &'e mut E,
}

impl<'e, E: Write> JsonText<'e, E> {
    /// A writer to this one.
    pub(crate) fn new(inner: &'e mut E) -> JsonText<'e, E> {
        JsonText { inner }
    }
}

impl<'e, E: Write> Write for JsonText<'e, E> {
    fn write(&mut self, buf: &[u8]) -> io::Result<usize> {
        match buf.iter().position(|byte| is_escaped(*byte)) {
            None => self.inner.write(buf),
            Some(0) => {
                put_escaped(self.inner, buf[0])?;
                Ok(1)
            }
            Some(place) => self.inner.write(&buf[..place]),
        }
    }

    fn flush(&mut self) -> io::Result<()> {
        self.inner.flush()
    }
}
