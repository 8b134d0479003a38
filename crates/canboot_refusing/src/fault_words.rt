//! Where a fault of a network list applies, in words.

use crate::fault_line::{Sought, line_of};
use crate::faulty_write::{put_value, put_write};
use crate::toml_text::line_at;
use canboot_faults::{ExplainedLines, Explanation};
use cm_netlist::{
    CheckFault, FaultPlace, IntegerKey, NetFault, Spot, fault_place, slave_integers, top_integers,
};
use cm_text::put_text;
use std::alloc::Global;
use std::io::{self, Write};
use std::str;
use strsim::levenshtein;
use toml::{Table, Value};

/// The key of the array of a table of a list: of the list itself, or of a slave.
fn array_name(is_slave: bool) -> &'static str {
    if is_slave { "writes" } else { "slave" }
}

/// The key at which the fault is to be looked for in the text; none for one that is missing.
fn key_of_place<'a>(fault: NetFault, place: &FaultPlace<'a>) -> Option<&'a str> {
    match place.spot {
        Spot::Unknown(name) => Some(name),
        Spot::Integer(key) => match fault {
            NetFault::MissingKey => None,
            _ => Some(key.name),
        },
        Spot::Array | Spot::Element(_) => Some(array_name(place.slave.is_some())),
        Spot::Itself => match fault {
            NetFault::TooManyWrites => Some("writes"),
            NetFault::NotListedBit => Some("assignment"),
            _ => Some("id"),
        },
        Spot::Double(_) => Some("id"),
    }
}

/// On which line of the text the place stands, where that is found.
fn line_of_place(text: &[u8], fault: NetFault, place: &FaultPlace<'_>) -> Option<usize> {
    let element = match place.spot {
        Spot::Element(number) => Some(number),
        _ => None,
    };
    let sought = Sought {
        slave: place.slave,
        key: key_of_place(fault, place),
        element,
    };
    line_of(text, &sought)
}

/// Whether it is an id that an earlier slave has, which names the slave by itself.
fn is_double(place: &FaultPlace<'_>) -> bool {
    matches!(place.spot, Spot::Double(_))
}

/// The line of the id of the slave of this number.
fn line_of_id(text: &[u8], slave: usize) -> Option<usize> {
    let sought = Sought {
        slave: Some(slave),
        key: Some("id"),
        element: None,
    };
    line_of(text, &sought)
}

/// What stands behind a number that says which of several one is, as `st` behind 1.
fn ordinal_end(number: usize) -> &'static str {
    if number % 100 / 10 == 1 {
        return "th";
    }
    match number % 10 {
        1 => "st",
        2 => "nd",
        3 => "rd",
        _ => "th",
    }
}

/// Writes which of several one is, by its number, counted from 0, and what that is: `the 1st slave`.
fn put_ordinal<W: Write>(number: usize, what: &str, out: &mut W) -> io::Result<()> {
    let counted = number.saturating_add(1);
    write!(out, "the {counted}{}{what}", ordinal_end(counted))
}

/// Writes what is called a slave: by its node-ID where it has one, else by its number.
fn put_slave_name<W: Write>(slave: &Table, number: usize, out: &mut W) -> io::Result<()> {
    match slave.get("id") {
        Some(Value::Integer(id)) if 0 < *id && *id < 128 => write!(out, "slave {id}"),
        _ => put_ordinal(number, " slave", out),
    }
}

/// Writes the line of the list and these words behind it, where that is known.
fn put_line<W: Write>(line: Option<usize>, words: &str, out: &mut W) -> io::Result<()> {
    match line {
        Some(line) => write!(out, "line {line}{words}"),
        None => Ok(()),
    }
}

/// Writes the begin of a line that speaks of the slave of this number.
fn put_slave<W: Write>(
    line: Option<usize>,
    slave: &Table,
    number: usize,
    out: &mut W,
) -> io::Result<()> {
    put_line(line, ", ", out)?;
    put_slave_name(slave, number, out)?;
    out.write_all(b": ")
}

/// Writes a key with its value.
fn put_key<W: Write>(table: &Table, key: &str, out: &mut W) -> io::Result<()> {
    write!(out, "{key}")?;
    match table.get(key) {
        Some(value) => put_value(value, out),
        None => Ok(()),
    }
}

/// Writes what is wrong with the key of an integer.
fn put_integer<W: Write>(
    fault: NetFault,
    table: &Table,
    key: &IntegerKey,
    out: &mut W,
) -> io::Result<()> {
    if fault == NetFault::MissingKey {
        return write!(out, "no '{}'", key.name);
    }
    put_key(table, key.name, out)?;
    if fault == NetFault::WrongKind {
        return out.write_all(b": must be an integer");
    }
    write!(
        out,
        ": must be {} to {}{}",
        key.least, key.greatest, key.unit
    )
}

/// The name of these that is the nearest to this one, if it is 3 letters apart at most; of several the first.
fn nearest(
    alloc: Global,
    name: &str,
    keys: &[IntegerKey],
    array: &'static str,
) -> Option<&'static str> {
    if name.len() > 60 {
        return None;
    }
    let mut least = 4;
    let mut nearest = None;
    for key in keys {
        let distance = levenshtein(alloc, name, key.name).ok()?;
        if distance < least {
            least = distance;
            nearest = Some(key.name);
        }
    }
    if levenshtein(alloc, name, array).ok()? < least {
        nearest = Some(array);
    }
    nearest
}

/// The nearest key that is known of the list itself, or of a slave.
fn nearest_known(alloc: Global, name: &str, is_slave: bool) -> Option<&'static str> {
    if is_slave {
        nearest(alloc, name, &slave_integers(), "writes")
    } else {
        nearest(alloc, name, &top_integers(), "slave")
    }
}

/// Writes an unknown key, and the nearest that is known.
fn put_unknown<W: Write>(alloc: Global, name: &str, is_slave: bool, out: &mut W) -> io::Result<()> {
    out.write_all(b"'")?;
    put_text(name, out)?;
    match nearest_known(alloc, name, is_slave) {
        Some(known) => write!(out, "' ({known}?)"),
        None => out.write_all(b"'"),
    }
}

/// Writes what is wrong with the key of the array.
fn put_no_array<W: Write>(table: &Table, is_slave: bool, out: &mut W) -> io::Result<()> {
    put_key(table, array_name(is_slave), out)?;
    if is_slave {
        out.write_all(b": must be an array of arrays of four integers")
    } else {
        out.write_all(b": must be an array of tables")
    }
}

/// The element of this number of the array at a key.
fn element_at<'a>(table: &'a Table, key: &str, number: usize) -> Option<&'a Value> {
    table.get(key)?.get(number)
}

/// The slave of this number.
fn slave_at(list: &Table, number: usize) -> Option<&Table> {
    element_at(list, "slave", number)?.as_table()
}

/// How many writes a slave has.
fn count_writes(slave: &Table) -> usize {
    match slave.get("writes") {
        Some(Value::Array(writes)) => writes.len(),
        _ => 0,
    }
}

/// Writes what is wrong with an element of the array.
fn put_element<W: Write>(
    fault: NetFault,
    table: &Table,
    is_slave: bool,
    number: usize,
    out: &mut W,
) -> io::Result<()> {
    let Some(element) = element_at(table, array_name(is_slave), number) else {
        return Ok(());
    };
    if is_slave {
        put_ordinal(number, "", out)?;
        return put_write(fault, element, out);
    }
    put_ordinal(number, " slave", out)?;
    put_value(element, out)?;
    out.write_all(b": must be a table")
}

/// Writes what is wrong with a slave as a whole.
fn put_itself<W: Write>(fault: NetFault, slave: &Table, out: &mut W) -> io::Result<()> {
    let (key, words) = match fault {
        NetFault::TooManyWrites => {
            let writes = count_writes(slave);
            return write!(out, "{writes} writes: at most 32");
        }
        NetFault::NotListedBit => ("assignment", ": bit 0 has to be set"),
        _ => ("id", ": the manager's own node-ID"),
    };
    put_key(slave, key, out)?;
    out.write_all(words.as_bytes())
}

/// Writes an id that an earlier slave has.
fn put_double<W: Write>(text: &[u8], slave: &Table, earlier: usize, out: &mut W) -> io::Result<()> {
    put_key(slave, "id", out)?;
    match line_of_id(text, earlier) {
        Some(line) => write!(out, ", as in line {line}"),
        None => {
            out.write_all(b", as that of ")?;
            put_ordinal(earlier, " slave", out)
        }
    }
}

/// Writes what is wrong with the table, of the list itself or of a slave.
fn put_spot<W: Write>(
    alloc: Global,
    text: &[u8],
    fault: NetFault,
    table: &Table,
    place: &FaultPlace<'_>,
    out: &mut W,
) -> io::Result<()> {
    let is_slave = place.slave.is_some();
    match place.spot {
        Spot::Unknown(name) => put_unknown(alloc, name, is_slave, out),
        Spot::Integer(key) => put_integer(fault, table, &key, out),
        Spot::Array => put_no_array(table, is_slave, out),
        Spot::Element(number) => put_element(fault, table, is_slave, number, out),
        Spot::Itself => put_itself(fault, table, out),
        Spot::Double(earlier) => put_double(text, table, earlier, out),
    }
}

/// Writes the begin of a line that speaks of the list itself, or of the slave whose table this is.
fn put_begin<W: Write>(
    line: Option<usize>,
    place: &FaultPlace<'_>,
    table: &Table,
    out: &mut W,
) -> io::Result<()> {
    match place.slave {
        Some(number) if !is_double(place) || line.is_none() => put_slave(line, table, number, out),
        _ => put_line(line, ": ", out),
    }
}

/// Writes a place of a list, and what is wrong there.
fn put_place<E: Write>(
    alloc: Global,
    text: &[u8],
    list: &Table,
    fault: NetFault,
    place: &FaultPlace<'_>,
    lines: &mut ExplainedLines<'_, E>,
) -> io::Result<()> {
    let line = line_of_place(text, fault, place);
    let found = match place.slave {
        Some(number) => slave_at(list, number),
        None => Some(list),
    };
    let Some(table) = found else {
        return Ok(());
    };
    lines.begin()?;
    put_begin(line, place, table, lines)?;
    put_spot(alloc, text, fault, table, place, lines)?;
    lines.end()
}

/// Writes why a text isn't TOML, and on which line.
fn put_no_toml<E: Write>(
    line: usize,
    words: &str,
    lines: &mut ExplainedLines<'_, E>,
) -> io::Result<()> {
    lines.begin()?;
    write!(lines, "line {line}: {words}")?;
    lines.end()
}

/// Writes where the fault applies, as far as that is known.
fn put_fault<E: Write>(
    alloc: Global,
    bytes: &[u8],
    fault: NetFault,
    lines: &mut ExplainedLines<'_, E>,
) -> io::Result<()> {
    let text = match str::from_utf8(bytes) {
        Ok(text) => text,
        Err(error) => return put_no_toml(line_at(bytes, error.valid_up_to()), "not UTF-8", lines),
    };
    let list = match toml::table_from_str(alloc, text) {
        Ok(list) => list,
        Err(error) => {
            return match error.span() {
                Some(span) => put_no_toml(line_at(bytes, span.start), error.message(), lines),
                None => Ok(()),
            };
        }
    };
    match fault_place(fault, &list) {
        Some(place) => put_place(alloc, bytes, &list, fault, &place, lines),
        None => Ok(()),
    }
}

/// Where a fault of a network list applies: the line of the list, the slave, the key and its value, and what is allowed there. It is the
/// place that [`fault_place`] gives; of a text that isn't TOML it is what the crate `toml` says. A line of the list that isn't found is
/// left out. Nothing is said of a list that wasn't read, or where memory is refused.
#[derive(Clone, Copy)]
pub(crate) struct ListPlace<'t> {
    pub alloc: Global,
    /// The bytes of the list.
    pub text: &'t [u8],
    pub fault: CheckFault,
}

impl<'t> Explanation for ListPlace<'t> {
    fn explain<E: Write>(&self, lines: &mut ExplainedLines<'_, E>) -> io::Result<()> {
        match self.fault {
            CheckFault::List(fault) => put_fault(self.alloc, self.text, fault, lines),
            CheckFault::Input(_) => Ok(()),
        }
    }
}
