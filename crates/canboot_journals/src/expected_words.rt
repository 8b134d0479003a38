//! What was expected where a journal has its fault, in words.

ghost use Rattle.std.specs.Prelude.{◌≡◌, ◌++◌, IfSome};
ghost use Rattle.canboot_journals.specs.Expected.{IsExpectedIn, IsFirstLine};

use crate::expected::{expected_answer, journal_of_lines};
use cm_format::{FaultKind, JournalFault};
use cm_history::{Orders, Reply};
use cm_journal::{line_entry, put_answer};
use cm_text::Fields;
use std::alloc::Global;
use std::io::{self, Write};

/// Where the line of this number begins, counted from 1; behind the last line where there are fewer.
fn line_start(bytes: &[u8], number: u32) -> usize {
    let mut start = 0usize;
    let mut left = number;
    for (place, byte) in bytes.iter().enumerate() {
        if left <= 1 {
            return start;
        }
        if *byte == b'\n' {
            left -= 1;
            start = place.saturating_add(1);
        }
    }
    start
}

/// What stands before the line of this number, and the bytes from there on.
fn parted(bytes: &[u8], number: u32) -> (&[u8], &[u8])
    ensures { result.0.now ++ result.1.now ≡ bytes.now }
{
    bytes.split_at(line_start(bytes, number).min(bytes.len()))
}

/// The first line, without its line feed.
fn first_line(bytes: &[u8]) -> Option<&[u8]>
    ensures { IfSome result (λ l. IsFirstLine l.now bytes.now) }
{
    let mut lines = Fields::new(bytes, b'\n');
    let line = lines.next_field()?;
    if lines.is_done() { None } else { Some(line) }
}

/// The manager's answer to the call of the line of this number, as [`expected_answer`] gives it behind the lines before it.
fn expected_in(alloc: Global, bytes: &[u8], number: u32) -> Option<(Reply, Orders)>
    ensures { IfSome result (λ a. IsExpectedIn bytes.now a.0 a.1) }
{
    let (before, rest) = parted(bytes, number);
    let line = first_line(rest)?;
    expected_answer(alloc, before, line)
}

/// Writes the answer that was expected.
fn put_expected_answer<E: Write>(
    alloc: Global,
    bytes: &[u8],
    number: u32,
    err: &mut E,
) -> io::Result<()> {
    let Some((reply, orders)) = expected_in(alloc, bytes, number) else {
        return Ok(());
    };
    err.write_all(b"  expected:")?;
    put_answer(err, reply, orders)?;
    err.write_all(b"\n")
}

/// Writes how a line is spelled that begins with the first word of this one.
fn put_spelling<E: Write>(line: &[u8], err: &mut E) -> io::Result<()> {
    let spelling = if line.starts_with(b"entry ") {
        match line_entry(line) {
            Some(_) => return writeln!(err, "  a journal of version 1 has no hold and no release"),
            None => "entry SEAT CALL = REPLY / ORDERS",
        }
    } else if line.starts_with(b"slave ") {
        "slave ID assign HEX type HEX vendor HEX product HEX revision HEX serial HEX heartbeat MS date HEX time HEX writes N"
    } else if line.starts_with(b"write ") {
        "write INDEX SUB SIZE VALUE"
    } else if line.starts_with(b"network ") {
        "network own ID startup HEX boottime MS seats N limit N"
    } else {
        "a line that begins with network, slave, write, entry or end"
    };
    writeln!(err, "  expected: {spelling}")
}

/// Writes what was expected at a line that can't stand where it does; the lines before it, and the line.
fn put_expected_line<E: Write>(
    alloc: Global,
    before: &[u8],
    line: &[u8],
    err: &mut E,
) -> io::Result<()> {
    let Some(journal) = journal_of_lines(alloc, before) else {
        if is_ended(before) {
            return writeln!(err, "  nothing stands behind the line of the end");
        }
        return put_spelling(line, err);
    };
    let count = journal.entries.len();
    let is_of_slave = line.starts_with(b"slave ") || line.starts_with(b"write ");
    if line.starts_with(b"entry ") || (count == 0 && is_of_slave) {
        put_spelling(line, err)
    } else {
        writeln!(err, "  expected: end {count}, or an entry")
    }
}

/// Whether the last of these lines is that of an end.
fn is_ended(lines: &[u8]) -> bool {
    let inside = lines.strip_suffix(b"\n".as_slice()).unwrap_or(lines);
    match inside.iter().rposition(|byte| *byte == b'\n') {
        Some(place) => inside[place..].starts_with(b"\nend "),
        None => inside.starts_with(b"end "),
    }
}

/// Writes what was expected where the journal ends without a line.
fn put_missing<E: Write>(alloc: Global, before: &[u8], torn: &[u8], err: &mut E) -> io::Result<()> {
    if !torn.is_empty() {
        writeln!(err, "  the line has no line feed at its end")?;
    } else if before.is_empty() {
        writeln!(err, "  the input is empty")?;
    }
    match journal_of_lines(alloc, before) {
        Some(journal) => {
            let count = journal.entries.len();
            writeln!(err, "  expected: end {count} (canboot mend writes it)")
        }
        None => Ok(()),
    }
}

/// Writes what was expected of the seat or of the number of an entry.
fn put_expected_number<E: Write>(
    alloc: Global,
    before: &[u8],
    kind: FaultKind,
    err: &mut E,
) -> io::Result<()> {
    let Some(journal) = journal_of_lines(alloc, before) else {
        return Ok(());
    };
    match kind {
        FaultKind::UnknownSeat => writeln!(err, "  expected: a seat of 1 to {}", journal.seats),
        _ => writeln!(err, "  expected: end {}, which is the limit", journal.limit),
    }
}

/// Writes what was expected at a whole line with this fault, behind the lines before it.
fn put_expected<E: Write>(
    alloc: Global,
    bytes: &[u8],
    before: &[u8],
    line: &[u8],
    fault: JournalFault,
    err: &mut E,
) -> io::Result<()> {
    if line.ends_with(b"\r") {
        return writeln!(
            err,
            "  the line ends in CR LF: lines of a journal end in LF alone"
        );
    }
    match fault.kind {
        FaultKind::BadHeader => {
            writeln!(err, "  expected: canboot journal 2, or canboot journal 1")
        }
        FaultKind::BadLine => put_expected_line(alloc, before, line, err),
        FaultKind::BadNetwork => writeln!(
            err,
            "  a number of the network list, of the seats or of the limit is out of its range, or a node-ID doesn't rise"
        ),
        FaultKind::WrongReply => put_expected_answer(alloc, bytes, fault.line, err),
        FaultKind::UnknownSeat | FaultKind::OverLimit => {
            put_expected_number(alloc, before, fault.kind, err)
        }
        FaultKind::OutOfMemory => Ok(()),
    }
}

/// Writes what was expected where a journal of these bytes has its fault, as far as that is known, in a line that begins with two
/// blanks: at a wrong reply the manager's answer ([`expected_answer`]), a last line with the right number, how a line is spelled, which
/// seats there are; that a line ends in CR LF, or that the last line is missing. A failed write of it changes nothing.
pub(crate) fn explain_journal<E: Write>(
    alloc: Global,
    bytes: &[u8],
    fault: JournalFault,
    err: &mut E,
) {
    let (before, rest) = parted(bytes, fault.line);
    let _ = match first_line(rest) {
        Some(line) => put_expected(alloc, bytes, before, line, fault, err),
        None => put_missing(alloc, before, rest, err),
    };
}
