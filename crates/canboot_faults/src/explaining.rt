//! The lines that explain a fault.

use crate::json_text::JsonText;
use cm_report::ReportForm;
use std::io::{self, Write};

/// What explains a fault, in lines behind it.
pub trait Explanation {
    /// Writes the lines, each begun and ended. A line that a failed write leaves open is ended by who asked for them.
    fn explain<E: Write>(&self, lines: &mut ExplainedLines<'_, E>) -> io::Result<()>;
}

/// No explanation.
#[derive(Clone, Copy)]
pub struct Unexplained;

impl Explanation for Unexplained {
    fn explain<E: Write>(&self, _lines: &mut ExplainedLines<'_, E>) -> io::Result<()> {
        Ok(())
    }
}

/// A writer of the lines that explain a fault. In the text form each begins with two blanks and ends with a line feed; in JSON (RFC 8259)
/// they are the strings of the array `explained`, which isn't there without a line. What is written stands in the line that is open.
#[derive(Drop)]
pub struct ExplainedLines<'e, E: Write> {
    form: ReportForm,
    inner: &'e mut E,
    /// Whether a line was begun.
    has_lines: bool,
    /// Whether a line was begun, and not ended.
    is_open: bool,
}

impl<'e, E: Write> ExplainedLines<'e, E> {
    /// Writes lines in this form to this writer.
    pub(crate) fn new(form: ReportForm, inner: &'e mut E) -> ExplainedLines<'e, E> {
        ExplainedLines {
            form,
            inner,
            has_lines: false,
            is_open: false,
        }
    }

    /// Begins a line; one that is open is ended before it.
    pub fn begin(&mut self) -> io::Result<()> {
        if self.is_open {
            self.end()?;
        }
        let front: &[u8] = match (self.form, self.has_lines) {
            (ReportForm::Text, _) => b"  ",
            (ReportForm::Json, false) => b",\"explained\":[\"",
            (ReportForm::Json, true) => b",\"",
        };
        self.has_lines = true;
        self.is_open = true;
        self.inner.write_all(front)
    }

    /// Ends the line that is open.
    pub fn end(&mut self) -> io::Result<()> {
        self.is_open = false;
        match self.form {
            ReportForm::Text => self.inner.write_all(b"\n"),
            ReportForm::Json => self.inner.write_all(b"\""),
        }
    }

    /// Ends the lines, and one that is still open.
    fn close(&mut self) -> io::Result<()> {
        if self.is_open {
            self.end()?;
        }
        match self.form {
            ReportForm::Json if self.has_lines => self.inner.write_all(b"]"),
            _ => Ok(()),
        }
    }
}

impl<'e, E: Write> Write for ExplainedLines<'e, E> {
    fn write(&mut self, buf: &[u8]) -> io::Result<usize> {
        match self.form {
            ReportForm::Text => self.inner.write(buf),
            ReportForm::Json => JsonText::new(self.inner).write(buf),
        }
    }

    fn flush(&mut self) -> io::Result<()> {
        self.inner.flush()
    }
}

/// Writes an explanation in this form. Where it fails, what it has written is ended all the same.
pub(crate) fn put_explanation<X: Explanation, E: Write>(
    form: ReportForm,
    explained: &X,
    err: &mut E,
) -> io::Result<()> {
    let mut lines = ExplainedLines::new(form, err);
    let _ = explained.explain(&mut lines);
    lines.close()
}
