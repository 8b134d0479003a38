//! A value of a network list, and what is wrong with a write of one, in words.

use cm_netlist::NetFault;
use cm_text::put_text;
use std::io::{self, Write};
use toml::Value;

/// Writes what a value is: the value, if it is short, or its kind.
pub(crate) fn put_value<W: Write>(value: &Value, out: &mut W) -> io::Result<()> {
    match value {
        Value::Integer(integer) => write!(out, " = {integer}"),
        Value::Boolean(truth) => write!(out, " = {truth}"),
        Value::String(text) => {
            out.write_all(b" = \"")?;
            put_text(text.as_str(), out)?;
            out.write_all(b"\"")
        }
        Value::Float(_) => out.write_all(b" is a float"),
        Value::Datetime(_) => out.write_all(b" is a date-time"),
        Value::Array(_) => out.write_all(b" is an array"),
        Value::Table(_) => out.write_all(b" is a table"),
    }
}

/// An integer of a write.
#[derive(Clone, Copy)]
enum WritePart {
    Index,
    SubIndex,
    Size,
    Value,
}

/// The integers of a write, in their order.
fn parts() -> [WritePart; 4] {
    [
        WritePart::Index,
        WritePart::SubIndex,
        WritePart::Size,
        WritePart::Value,
    ]
}

/// The value of a part.
fn value_of(write: &Value, part: WritePart) -> Option<&Value> {
    match part {
        WritePart::Index => write.get(0usize),
        WritePart::SubIndex => write.get(1usize),
        WritePart::Size => write.get(2usize),
        WritePart::Value => write.get(3usize),
    }
}

/// What a part is called.
fn part_name(part: WritePart) -> &'static str {
    match part {
        WritePart::Index => "index",
        WritePart::SubIndex => "sub-index",
        WritePart::Size => "size",
        WritePart::Value => "value",
    }
}

/// Which integers a part may be.
fn part_range(part: WritePart) -> &'static str {
    match part {
        WritePart::Index => "0 to 65535",
        WritePart::SubIndex => "0 to 255",
        WritePart::Size => "1, 2 or 4",
        WritePart::Value => "0 to 4294967295",
    }
}

/// The integer of a part, if it is one.
fn integer_of(write: &Value, part: WritePart) -> Option<i64> {
    value_of(write, part)?.as_integer()
}

/// Whether the part is an integer that is none of these.
fn is_part_outside(write: &Value, part: WritePart) -> bool {
    let Some(integer) = integer_of(write, part) else {
        return false;
    };
    let most: i64 = match part {
        WritePart::Index => 65_535,
        WritePart::SubIndex => 255,
        WritePart::Size => return !(integer == 1 || integer == 2 || integer == 4),
        WritePart::Value => 4_294_967_295,
    };
    integer < 0 || most < integer
}

/// Writes a part with its value, behind the write's name.
fn put_part<W: Write>(write: &Value, part: WritePart, out: &mut W) -> io::Result<()> {
    write!(out, ": {}", part_name(part))?;
    match value_of(write, part) {
        Some(value) => put_value(value, out),
        None => Ok(()),
    }
}

/// Writes why a value is no write.
fn put_no_write<W: Write>(write: &Value, out: &mut W) -> io::Result<()> {
    let Some(values) = write.as_array() else {
        put_value(write, out)?;
        return out.write_all(b": must be an array of four integers");
    };
    if values.len() != 4 {
        let count = values.len();
        let unit = if count == 1 { "value" } else { "values" };
        return write!(
            out,
            " has {count} {unit}: must be an array of four integers"
        );
    }
    for part in parts() {
        if integer_of(write, part).is_none() {
            put_part(write, part, out)?;
            return out.write_all(b": must be an integer");
        }
    }
    Ok(())
}

/// Writes which part of a write is out of range.
fn put_outside<W: Write>(write: &Value, out: &mut W) -> io::Result<()> {
    for part in parts() {
        if is_part_outside(write, part) {
            put_part(write, part, out)?;
            return write!(out, ": must be {}", part_range(part));
        }
    }
    Ok(())
}

/// Writes that the value is too wide for its size.
fn put_wide<W: Write>(write: &Value, out: &mut W) -> io::Result<()> {
    let index = u16::try_from(integer_of(write, WritePart::Index).unwrap_or(0)).unwrap_or(0);
    let sub = integer_of(write, WritePart::SubIndex).unwrap_or(0);
    let size = integer_of(write, WritePart::Size).unwrap_or(0);
    write!(out, ", {index:04X}h sub {sub}")?;
    put_part(write, WritePart::Value, out)?;
    let most = if size == 1 { 255 } else { 65_535 };
    write!(out, ": must be 0 to {most}, as its size is {size}")
}

/// Writes what is wrong with a write, behind which of the slave's it is.
pub(crate) fn put_write<W: Write>(fault: NetFault, write: &Value, out: &mut W) -> io::Result<()> {
    out.write_all(b" write")?;
    match fault {
        NetFault::WrongKind => put_no_write(write, out),
        NetFault::ValueTooWide => put_wide(write, out),
        _ => put_outside(write, out),
    }
}
