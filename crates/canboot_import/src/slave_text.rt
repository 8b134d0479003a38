//! An imported slave as a table of a network list in TOML.

ghost use Rattle.std.specs.Prelude.{OnOk};
ghost use Rattle.std.specs.Io.KnownBytes.{Appends};
ghost use Rattle.canboot_import.specs.Imports.{unread_line};
ghost use Rattle.canboot_import.specs.LinesRead.{Tells, TellsAll};

use crate::imported::{Identity, Imported};
use cm_device::{Item, NumberFault, Reason, Setting, Unwritten};
use cm_netlist::{SlaveEntry, put_comment, put_identity, put_key, put_name};
use cm_text::hex8;
use std::alloc::Global;
use std::io::{self, Write};

/// Writes a hexadecimal number as TOML has it.
fn put_hex<W: Write>(digits: &[u8], out: &mut W) -> io::Result<()> {
    out.write_all(b"0x")?;
    out.write_all(digits)
}

/// Writes the line of a value that is no number.
fn put_no_number<W: Write>(
    front: &str,
    part: &str,
    shown: &[u8],
    line: usize,
    out: &mut W,
) -> io::Result<()>
    ensures { OnOk result (Appends (W.contents out.old) (W.contents out.new)
        (unread_line front.now part.now shown.now line)) }
{
    write!(out, "{front}{part}: '")?;
    out.write_all(shown)?;
    writeln!(out, "' of line {line} is no number")
}

/// Writes that a part of the identity stands in the file and is no number, where that is so.
fn put_unread<W: Write>(
    alloc: Global,
    found: &Result<u32, Item<'_>>,
    part: &str,
    front: &str,
    out: &mut W,
) -> io::Result<()>
    ensures { OnOk result (Tells front.now part.now found.now (W.contents out.old) (W.contents out.new)) }
{
    match found {
        Ok(_) => Ok(()),
        Err(item) => {
            let mut shown = Vec::new(alloc);
            put_name(item.value, &mut shown)?;
            put_no_number(front, part, shown.as_slice(), item.line, out)
        }
    }
}

/// Writes a line, with these words in front, for each part of the identity that stands in the file and is no number.
pub(crate) fn put_uncompared<W: Write>(
    alloc: Global,
    identity: &Identity<'_>,
    front: &str,
    out: &mut W,
) -> io::Result<()>
    ensures { OnOk result (TellsAll front.now identity.now (W.contents out.old) (W.contents out.new)) }
{
    let device_type = "1000h, device type";
    put_unread(alloc, &identity.device_type, device_type, front, out)?;
    let vendor = "1018h sub 1, vendor-ID";
    put_unread(alloc, &identity.vendor, vendor, front, out)?;
    let product = "1018h sub 2, product code";
    put_unread(alloc, &identity.product, product, front, out)?;
    let revision = "1018h sub 3, revision number";
    put_unread(alloc, &identity.revision, revision, front, out)?;
    let serial = "1018h sub 4, serial number";
    put_unread(alloc, &identity.serial, serial, front, out)
}

/// Writes a value in the digits of its size.
fn put_value<W: Write>(size: u8, value: u32, out: &mut W) -> io::Result<()> {
    let digits = hex8(value);
    match size {
        1 => put_hex(&digits[6..], out),
        2 => put_hex(&digits[4..], out),
        _ => put_hex(&digits, out),
    }
}

/// Writes the line of a write.
fn put_write<W: Write>(setting: &Setting<'_>, out: &mut W) -> io::Result<()> {
    let write = setting.write;
    let (index, sub, size) = (write.index, write.sub, write.size);
    write!(out, "  [0x{index:04X}, {sub}, {size}, ")?;
    put_value(size, write.value, out)?;
    out.write_all(b"],")?;
    put_comment(setting.name, out)
}

/// Writes the writes, if there are any.
fn put_writes<W: Write>(settings: &[Setting<'_>], out: &mut W) -> io::Result<()> {
    if settings.is_empty() {
        return Ok(());
    }
    out.write_all(b"writes = [\n")?;
    for setting in settings {
        put_write(setting, out)?;
    }
    out.write_all(b"]\n")
}

/// Why a value is no write.
fn reason_words(reason: Reason) -> &'static str {
    match reason {
        Reason::Size => "its data type has no size of 1, 2 or 4 bytes",
        Reason::Number(NumberFault::None) => "its value is no number of its data type",
        Reason::Number(NumberFault::Wide) => "its value is too wide for its data type",
        Reason::Number(NumberFault::Whole) => {
            "a REAL32 has a point, or stands as its bits behind 0x"
        }
        Reason::Mapping => {
            "its PDO's COB-ID or number of objects isn't given, or can't be written"
        }
        Reason::Compact => "its object's CompactSubObj has no such sub-index",
        Reason::Behind => "it stands behind the first writes",
    }
}

/// Writes what isn't written to the device, and why, behind these words.
fn put_unwritten<W: Write>(unwritten: &Unwritten<'_>, front: &str, out: &mut W) -> io::Result<()> {
    let (index, sub) = unwritten.object;
    write!(out, "{front}{index:04X}h sub {sub}")?;
    if !unwritten.name.is_empty() {
        out.write_all(b", ")?;
        put_name(unwritten.name, out)?;
    }
    writeln!(out, ": {}", reason_words(unwritten.reason))
}

/// Writes a line, with these words in front, for each value that isn't written.
pub(crate) fn put_all_unwritten<W: Write>(
    all: &[Unwritten<'_>],
    front: &str,
    out: &mut W,
) -> io::Result<()> {
    for unwritten in all {
        put_unwritten(unwritten, front, out)?;
    }
    Ok(())
}

/// Writes what the list says of the slave beside its writes.
fn put_terms<W: Write>(entry: &SlaveEntry, out: &mut W) -> io::Result<()> {
    writeln!(out, "assignment = 0x{:08X}", entry.assignment.0)?;
    put_key("device_type", entry.device_type, out)?;
    put_identity(entry.vendor, entry.product, entry.revision, out)?;
    put_key("serial", entry.serial, out)?;
    if entry.heartbeat_ms == 0 {
        return Ok(());
    }
    writeln!(out, "heartbeat = {}", entry.heartbeat_ms)
}

/// Writes the slave as a table of a network list.
pub(crate) fn put_imported<W: Write>(
    alloc: Global,
    slave: &Imported<'_>,
    out: &mut W,
) -> io::Result<()> {
    out.write_all(b"[[slave]]")?;
    put_comment(slave.product, out)?;
    writeln!(out, "id = {}", slave.id.get())?;
    put_terms(&slave.entry, out)?;
    put_writes(slave.settings.settings.as_slice(), out)?;
    put_uncompared(alloc, &slave.identity, "# not compared: ", out)?;
    let unwritten = slave.settings.unwritten.as_slice();
    put_all_unwritten(unwritten, "# not written: ", out)
}
