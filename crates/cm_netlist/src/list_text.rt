//! Lines of a network list in TOML, as they are made for a slave.

use cm_text::{LONGEST_TEXT, put_letter, put_text};
use std::io::{self, Write};
use std::str;

/// Writes a name or a value, which is text in UTF-8, else in Latin-1.
pub fn put_name<W: Write>(name: &[u8], out: &mut W) -> io::Result<()> {
    if let Ok(text) = str::from_utf8(name) {
        return put_text(text, out);
    }
    for byte in name.get(..LONGEST_TEXT).unwrap_or(name) {
        put_letter(char::from(*byte), out)?;
    }
    Ok(())
}

/// Writes a comment behind a line, if there is a name, and ends the line.
pub fn put_comment<W: Write>(name: &[u8], out: &mut W) -> io::Result<()> {
    if !name.is_empty() {
        out.write_all(b"  # ")?;
        put_name(name, out)?;
    }
    out.write_all(b"\n")
}

/// Writes a key with a number in hexadecimal digits, where it isn't 0.
pub fn put_key<W: Write>(key: &str, value: u32, out: &mut W) -> io::Result<()> {
    if value == 0 {
        return Ok(());
    }
    writeln!(out, "{key} = 0x{value:08X}")
}

/// Writes the identity of a device, as far as an electronic data sheet gives it.
pub fn put_identity<W: Write>(
    vendor: u32,
    product: u32,
    revision: u32,
    out: &mut W,
) -> io::Result<()> {
    put_key("vendor", vendor, out)?;
    put_key("product", product, out)?;
    put_key("revision", revision, out)
}
