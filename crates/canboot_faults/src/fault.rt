//! The fault of a command, as a value, and how it is told.

ghost use Rattle.std.specs.Prelude.{◌≡◌};

use crate::explaining::{Explanation, Unexplained, put_explanation};
use crate::json_text::JsonText;
use cm_report::ReportForm;
use std::fmt::Display;
use std::io::{self, Write};

/// Where a fault is, as far as its line says it.
#[derive(Clone, Copy)]
pub enum Place {
    /// Its words say it.
    Unsaid,
    /// In the network list.
    List,
    /// In the line of a journal of this number, counted from 1.
    Line(u32),
}

/// Why a command comes to an exit status that isn't 0.
#[derive(Drop)]
pub struct Fault<D: Display + Drop, X: Explanation + Drop = Unexplained> {
    /// The exit status.
    pub status: u8,
    /// Where it is.
    pub place: Place,
    /// What it is: words without a line feed.
    pub what: D,
    /// What explains it.
    pub explained: X,
}

/// Writes a fault as a line, and behind it the lines that explain it.
fn put_line<D: Display + Drop, X: Explanation + Drop, E: Write>(
    fault: &Fault<D, X>,
    err: &mut E,
) -> io::Result<()> {
    let what = &fault.what;
    let _ = match fault.place {
        Place::Unsaid => writeln!(err, "canboot: {what}"),
        Place::List => writeln!(err, "canboot: network: {what}"),
        Place::Line(line) => writeln!(err, "canboot: line {line}: {what}"),
    };
    put_explanation(ReportForm::Text, &fault.explained, err)
}

/// Writes a fault as an object up to the words that it is told in.
fn put_front<E: Write>(status: u8, place: Place, err: &mut E) -> io::Result<()> {
    write!(err, r#"{{"status":{status}"#)?;
    if let Place::Line(line) = place {
        write!(err, r#","line":{line}"#)?;
    }
    err.write_all(b",\"fault\":\"")
}

/// Writes words as they stand in a string of JSON.
fn put_words<D: Display, E: Write>(what: &D, err: &mut E) -> io::Result<()> {
    let mut text = JsonText::new(err);
    write!(text, "{what}")
}

/// Writes a fault as one JSON object on a line (RFC 8259).
fn put_object<D: Display + Drop, X: Explanation + Drop, E: Write>(
    fault: &Fault<D, X>,
    err: &mut E,
) -> io::Result<()> {
    put_front(fault.status, fault.place, err)?;
    put_words(&fault.what, err)?;
    err.write_all(b"\"")?;
    put_explanation(ReportForm::Json, &fault.explained, err)?;
    err.write_all(b"}\n")
}

/// Tells a fault in this form, and gives its exit status. A failed write of it changes nothing.
pub fn tell<D: Display + Drop, X: Explanation + Drop, E: Write>(
    form: ReportForm,
    fault: &Fault<D, X>,
    err: &mut E,
) -> u8
    ensures { result ≡ fault.now.status }
{
    let _ = match form {
        ReportForm::Text => put_line(fault, err),
        ReportForm::Json => put_object(fault, err),
    };
    fault.status
}
