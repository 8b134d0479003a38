//! Text that isn't markup.

ghost use Rattle.std.specs.Prelude.{OnOk};
ghost use Rattle.std.specs.Io.KnownBytes.{Appends};
ghost use Rattle.canboot_picture.specs.Xml.{escape, escaped};

use std::io::{self, Write};

/// Writes a byte of a text: an entity where it has a meaning of its own, `?` where it can't be written.
fn put_byte<W: Write>(byte: u8, out: &mut W) -> io::Result<()>
    ensures { OnOk result (Appends (W.contents out.old) (W.contents out.new) (escape byte)) }
{
    match byte {
        b'"' => out.write_all(b"&quot;"),
        b'&' => out.write_all(b"&amp;"),
        b'\'' => out.write_all(b"&apos;"),
        b'<' => out.write_all(b"&lt;"),
        b'>' => out.write_all(b"&gt;"),
        b'\n' | 32..=126 => out.write_all(&[byte]),
        _ => out.write_all(b"?"),
    }
}

/// Writes a text as content of an element: what has a meaning of its own in XML as an entity, and `?` for each byte that isn't
/// printed in ASCII and is no line feed.
pub(crate) fn put_escaped<W: Write>(text: &str, out: &mut W) -> io::Result<()>
    ensures { OnOk result (Appends (W.contents out.old) (W.contents out.new) (escaped text.now)) }
{
    for byte in text.as_bytes() {
        put_byte(*byte, out)?;
    }
    Ok(())
}
