//! Faults that several commands have, and the exit status that each comes to.

ghost use Rattle.std.specs.Prelude.{◌≡◌, ◌↔◌, ◌⊎◌, if◌then◌else◌, is_ok};
ghost use Rattle.cm_netlist.specs.ListsRead.{IsFaultOfList};

use crate::explaining::{Explanation, Unexplained};
use crate::fault::{Fault, Place, tell};
use crate::status::{DONE, FAILED, REFUSED};
use cm_netlist::CheckFault;
use cm_report::ReportForm;
use cm_text::InputFault;
use std::fmt::Display;
use std::io::{self, Write};

/// Tells a fault whose words say where it is, with what explains it, and gives its exit status on.
pub fn tell_explained<X: Explanation + Drop, E: Write>(
    form: ReportForm,
    status: u8,
    what: impl Display + Drop,
    explained: X,
    err: &mut E,
) -> u8
    ensures { result ≡ status }
{
    let fault = Fault {
        status,
        place: Place::Unsaid,
        what,
        explained,
    };
    tell(form, &fault, err)
}

/// Tells a fault whose words say where it is, and gives its exit status on.
pub fn tell_words<E: Write>(
    form: ReportForm,
    status: u8,
    what: impl Display + Drop,
    err: &mut E,
) -> u8
    ensures { result ≡ status }
{
    tell_explained(form, status, what, Unexplained, err)
}

/// What is said of an input that wasn't read.
pub fn input_words(fault: InputFault) -> &'static str {
    match fault {
        InputFault::Read => "read failed",
        InputFault::Memory => "out of memory",
    }
}

/// What is said of a command line that can't be read, or of a file that can't be opened.
pub fn unopened_words(kind: io::ErrorKind) -> &'static str {
    match kind {
        io::ErrorKind::OutOfMemory => "out of memory",
        _ => "read failed",
    }
}

/// What is said of a file that can't be made.
pub fn unmade_words(kind: io::ErrorKind) -> &'static str {
    match kind {
        io::ErrorKind::OutOfMemory => "out of memory",
        _ => "write failed",
    }
}

/// Tells that an input wasn't read, and gives its exit status.
pub fn tell_input<E: Write>(form: ReportForm, fault: InputFault, err: &mut E) -> u8
    ensures { result ≡ 3 }
{
    tell_words(form, FAILED, input_words(fault), err)
}

/// The exit status of what was to be written; where it couldn't be, its fault is told.
pub fn tell_output<E: Write>(form: ReportForm, output: io::Result<()>, err: &mut E) -> u8
    ensures { result ≡ (if is_ok output then 0 else 3) }
{
    match output {
        Ok(()) => DONE,
        Err(_) => tell_words(form, FAILED, "write failed", err),
    }
}

/// Tells that a command line can't be read, or a file can't be opened, and gives the exit status.
pub fn tell_unopened<E: Write>(form: ReportForm, kind: io::ErrorKind, err: &mut E) -> u8
    ensures { result ≡ 3 }
{
    tell_words(form, FAILED, unopened_words(kind), err)
}

/// Tells that a file can't be made, and gives the exit status.
pub fn tell_unmade<E: Write>(form: ReportForm, kind: io::ErrorKind, err: &mut E) -> u8
    ensures { result ≡ 3 }
{
    tell_words(form, FAILED, unmade_words(kind), err)
}

/// Tells the fault of a network list that wasn't read, with what explains a fault of the list, and gives its exit status: 1 for a fault
/// of the list, 3 for any other.
pub fn tell_list_explained<X: Explanation + Drop, E: Write>(
    form: ReportForm,
    fault: CheckFault,
    explained: X,
    err: &mut E,
) -> u8
    ensures list { IsFaultOfList fault ↔ (result ≡ 1) }
    ensures statuses { (result ≡ 1) ⊎ (result ≡ 3) }
{
    match fault {
        CheckFault::List(what) => {
            let fault = Fault {
                status: REFUSED,
                place: Place::List,
                what,
                explained,
            };
            tell(form, &fault, err)
        }
        CheckFault::Input(fault) => tell_input(form, fault, err),
    }
}

/// Tells the fault of a network list that wasn't read, and gives its exit status: 1 for a fault of the list, 3 for any other.
pub fn tell_list<E: Write>(form: ReportForm, fault: CheckFault, err: &mut E) -> u8
    ensures list { IsFaultOfList fault ↔ (result ≡ 1) }
    ensures statuses { (result ≡ 1) ⊎ (result ≡ 3) }
{
    tell_list_explained(form, fault, Unexplained, err)
}

/// Writes one line of fault, and gives the exit status on.
pub fn fault_line<E: Write>(err: &mut E, status: u8, text: impl Display + Drop) -> u8
    ensures { result ≡ status }
{
    tell_words(ReportForm::Text, status, text, err)
}

/// Writes the line of an input that wasn't read, and gives its exit status.
pub fn input_fault_line<E: Write>(err: &mut E, fault: InputFault) -> u8
    ensures { result ≡ 3 }
{
    tell_input(ReportForm::Text, fault, err)
}

/// The exit status of what was to be written; where it couldn't be, its line of fault is.
pub fn output_status<E: Write>(err: &mut E, output: io::Result<()>) -> u8
    ensures { result ≡ (if is_ok output then 0 else 3) }
{
    tell_output(ReportForm::Text, output, err)
}

/// The fault of a command line that can't be read, or of a file that can't be opened.
pub fn read_fault<E: Write>(err: &mut E, kind: io::ErrorKind) -> u8
    ensures { result ≡ 3 }
{
    tell_unopened(ReportForm::Text, kind, err)
}
