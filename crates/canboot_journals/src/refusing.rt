//! How the fault of a journal is told.

ghost use Rattle.std.specs.Prelude.{◌≡◌, ◌≢◌, ◌⊎◌};
ghost use Rattle.canboot_journals.specs.Replay.{IsOfText};

use canboot_faults::{Fault, Place, REFUSED, Unexplained, tell, tell_input};
use cm_format::{FaultKind, JournalFault};
use cm_journal::ReadFault;
use cm_report::ReportForm;
use cm_text::InputFault;
use std::io::Write;

/// Tells a journal's fault in this form, with its line, and gives its exit status: 3 for want of memory, 1 for any other.
pub fn refuse_journal<E: Write>(form: ReportForm, fault: JournalFault, err: &mut E) -> u8
    ensures refused { result ≡ 1 → fault.kind ≢ FaultKind.OutOfMemory }
    ensures statuses { (result ≡ 1) ⊎ (result ≡ 3) }
{
    match fault.kind {
        FaultKind::OutOfMemory => tell_input(form, InputFault::Memory, err),
        what => {
            let fault = Fault {
                status: REFUSED,
                place: Place::Line(fault.line),
                what,
                explained: Unexplained,
            };
            tell(form, &fault, err)
        }
    }
}

/// Tells in this form why an input wasn't read as a journal, and gives the exit status: 1 for a fault of its text, 3 for any other.
pub(crate) fn refuse_read<E: Write>(form: ReportForm, fault: ReadFault, err: &mut E) -> u8
    ensures refused { result ≡ 1 → IsOfText fault }
    ensures statuses { (result ≡ 1) ⊎ (result ≡ 3) }
{
    match fault {
        ReadFault::Journal(fault) => refuse_journal(form, fault, err),
        ReadFault::Input(fault) => tell_input(form, fault, err),
    }
}
