//! What is said of a file that can't be opened, read or written: its path behind the fault, and why that is.

ghost use Rattle.std.specs.Prelude.{◌≡◌};

use canboot_faults::{
    ExplainedLines, Explanation, FAILED, input_words, tell_explained, unmade_words, unopened_words,
};
use cm_netlist::LONGEST_LIST;
use cm_report::ReportForm;
use cm_text::InputFault;
use std::io::{self, ErrorKind, Write};
use std::rt::Files;
use std::{fmt, fs};

/// Why a file can't be opened, read or written.
#[derive(Clone, Copy)]
enum Reason {
    /// These words say it.
    Words(&'static str),
    /// The system says it.
    System(ErrorKind),
    /// It has more bytes than are read.
    TooLong,
}

impl fmt::Display for Reason {
    fn fmt<W: fmt::Write>(&self, f: &mut fmt::Formatter<W>) -> fmt::Result {
        match self {
            Reason::Words(words) => write!(f, "{words}"),
            Reason::System(kind) => write!(f, "{kind}"),
            Reason::TooLong => write!(f, "has more than {LONGEST_LIST} bytes"),
        }
    }
}

/// The path of a file, and why it can't be opened, read or written; nothing is said of want of memory.
#[derive(Clone, Copy)]
struct FileReason<'p> {
    path: &'p str,
    reason: Option<Reason>,
}

impl<'p> Explanation for FileReason<'p> {
    fn explain<E: Write>(&self, lines: &mut ExplainedLines<'_, E>) -> io::Result<()> {
        let (path, Some(reason)) = (self.path, self.reason) else {
            return Ok(());
        };
        lines.begin()?;
        write!(lines, "{path}: {reason}")?;
        lines.end()
    }
}

/// Why a file can't be opened for reading.
fn unopened_reason(kind: ErrorKind) -> Option<Reason> {
    match kind {
        ErrorKind::OutOfMemory => None,
        ErrorKind::NotFound => Some(Reason::Words("no such file or directory")),
        _ => Some(Reason::System(kind)),
    }
}

/// Why a file can't be opened for writing, or made, and what an operator can do about it, as far as the system says it.
fn unmade_reason(kind: ErrorKind) -> Option<Reason> {
    let words = match kind {
        ErrorKind::OutOfMemory => return None,
        ErrorKind::NotFound => "no such directory: make it first, or name a file in another",
        ErrorKind::IsADirectory => "is a directory: name a file in it",
        ErrorKind::PermissionDenied => "permission denied: name a file that you may write",
        _ => return Some(Reason::System(kind)),
    };
    Some(Reason::Words(words))
}

/// Why a file that was opened can't be read, as far as it is known.
fn unread_reason<R: Files>(rt: &R, path: &str, fault: InputFault) -> Option<Reason> {
    match fault {
        InputFault::Memory => None,
        InputFault::Read => match fs::metadata(rt, path) {
            Ok(found) if found.is_dir() => {
                Some(Reason::Words("is a directory: name a file in it"))
            }
            Ok(found) if found.len() > LONGEST_LIST as u64 => Some(Reason::TooLong),
            _ => Some(Reason::Words("can't be read to its end")),
        },
    }
}

/// Tells in this form that a file can't be opened, as [`tell_unopened`](canboot_faults::tell_unopened) does, with its path and the system's
/// reason. The answer is the exit status.
pub fn read_fault_of<E: Write>(form: ReportForm, path: &str, kind: ErrorKind, err: &mut E) -> u8
    ensures { result ≡ 3 }
{
    let reason = unopened_reason(kind);
    let explained = FileReason { path, reason };
    tell_explained(form, FAILED, unopened_words(kind), explained, err)
}

/// Tells in this form that a file can't be opened for writing, or made, as [`tell_unmade`](canboot_faults::tell_unmade) does, with its path
/// and the system's reason. The answer is the exit status.
pub fn write_fault_of<E: Write>(form: ReportForm, path: &str, kind: ErrorKind, err: &mut E) -> u8
    ensures { result ≡ 3 }
{
    let reason = unmade_reason(kind);
    let explained = FileReason { path, reason };
    tell_explained(form, FAILED, unmade_words(kind), explained, err)
}

/// Tells in this form that a file was opened and can't be read, as [`tell_input`](canboot_faults::tell_input) does, with its path and why
/// that is, where it is known. The answer is the exit status.
pub(crate) fn unread_fault_of<R: Files, E: Write>(
    rt: &R,
    form: ReportForm,
    path: &str,
    fault: InputFault,
    err: &mut E,
) -> u8
    ensures { result ≡ 3 }
{
    let reason = unread_reason(rt, path, fault);
    let explained = FileReason { path, reason };
    tell_explained(form, FAILED, input_words(fault), explained, err)
}
