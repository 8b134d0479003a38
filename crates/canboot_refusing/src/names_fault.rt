//! Where the fault of a file of names applies, in words.

use crate::fault_line::{Sought, line_of};
use crate::toml_text::line_at;
use canboot_faults::{ExplainedLines, Explanation};
use cm_nmt::NodeId;
use cm_shown::NamesFault;
use cm_text::{Fields, put_text};
use std::alloc::Global;
use std::io::{self, Write};
use std::str;
use toml::{Table, Value};

/// Whether the key is a node-ID: 1 to 127 in decimal, without leading zeros.
fn is_node(key: &[u8]) -> bool {
    let mut fields = Fields::new(key, b' ');
    match fields.decimal(127) {
        Some(number) => NodeId::new(number as u8).is_some() && fields.is_done(),
        None => false,
    }
}

/// Whether the value is a name: a string of 1 to 64 bytes, without control characters.
fn is_name(value: &Value) -> bool {
    match value.as_str() {
        Some(name) => {
            1 <= name.len()
                && name.len() <= 64
                && name.bytes().all(|byte| 0x20 <= byte && byte != 0x7f)
        }
        None => false,
    }
}

/// Whether it is this key that has the fault.
fn has_fault(fault: NamesFault, table: &Table, key: &str) -> bool {
    match (fault, table.get(key)) {
        (NamesFault::BadNode, _) => !is_node(key.as_bytes()),
        (NamesFault::BadName, Some(value)) => !is_name(value),
        _ => false,
    }
}

/// A key of the text, and the line on which it stands, where that is found.
#[derive(Clone, Copy)]
struct KeyFound<'a> {
    key: &'a str,
    line: Option<usize>,
}

impl<'a> KeyFound<'a> {
    /// The one that stands above the other; one whose line isn't found stands below.
    fn above(self, other: Option<KeyFound<'a>>) -> KeyFound<'a> {
        match other {
            Some(other) if other.line.unwrap_or(usize::MAX) <= self.line.unwrap_or(usize::MAX) => {
                other
            }
            _ => self,
        }
    }
}

/// The first key of the text that has the fault.
fn first_faulty<'a>(text: &[u8], table: &'a Table, fault: NamesFault) -> Option<KeyFound<'a>> {
    let mut first = None;
    for key in table.keys() {
        if has_fault(fault, table, key) {
            let sought = Sought {
                slave: None,
                key: Some(key.as_str()),
                element: None,
            };
            let found = KeyFound {
                key: key.as_str(),
                line: line_of(text, &sought),
            };
            first = Some(found.above(first));
        }
    }
    first
}

/// Writes the file, and the line there, where it is known.
fn put_place<W: Write>(path: &str, line: Option<usize>, out: &mut W) -> io::Result<()> {
    match line {
        Some(line) => write!(out, "{path}, line {line}: "),
        None => write!(out, "{path}: "),
    }
}

/// Writes which key has the fault, and what has to stand there.
fn put_key<W: Write>(key: &str, fault: NamesFault, out: &mut W) -> io::Result<()> {
    out.write_all(b"'")?;
    put_text(key, out)?;
    out.write_all(match fault {
        NamesFault::BadNode => b"': a node-ID, 1 to 127 without leading zeros",
        _ => b"': a string of 1 to 64 bytes, without control characters",
    })
}

/// Writes why a text isn't TOML, and on which line, where it is known.
fn put_no_toml<E: Write>(
    path: &str,
    line: Option<usize>,
    words: &str,
    lines: &mut ExplainedLines<'_, E>,
) -> io::Result<()> {
    lines.begin()?;
    put_place(path, line, lines)?;
    lines.write_all(words.as_bytes())?;
    lines.end()
}

/// Where a fault of a text of names applies: the file, the line, the key, and what has to stand there. Of several of its kind it is the
/// first in the text. A line that isn't found is left out, and nothing is said where memory is refused.
#[derive(Clone, Copy)]
pub(crate) struct NamesPlace<'t> {
    pub alloc: Global,
    /// The path of the file.
    pub path: &'t str,
    /// Its bytes.
    pub text: &'t [u8],
    pub fault: NamesFault,
}

impl<'t> Explanation for NamesPlace<'t> {
    fn explain<E: Write>(&self, lines: &mut ExplainedLines<'_, E>) -> io::Result<()> {
        let (path, bytes) = (self.path, self.text);
        let text = match str::from_utf8(bytes) {
            Ok(text) => text,
            Err(error) => {
                let line = line_at(bytes, error.valid_up_to());
                return put_no_toml(path, Some(line), "not UTF-8", lines);
            }
        };
        let table = match toml::table_from_str(self.alloc, text) {
            Ok(table) => table,
            Err(error) => {
                let line = error.span().map(|span| line_at(bytes, span.start));
                return put_no_toml(path, line, error.message(), lines);
            }
        };
        let Some(found) = first_faulty(bytes, &table, self.fault) else {
            return Ok(());
        };
        lines.begin()?;
        put_place(path, found.line, lines)?;
        put_key(found.key, self.fault, lines)?;
        lines.end()
    }
}
