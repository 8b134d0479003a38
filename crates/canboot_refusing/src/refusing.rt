//! How the fault of a network list or of a file of names is told, with where it is.

ghost use Rattle.std.specs.Prelude.{◌≡◌, ◌↔◌, ◌⊎◌};
ghost use Rattle.cm_netlist.specs.ListsRead.{IsFaultOfList};

use crate::fault_words::ListPlace;
use crate::names_fault::NamesPlace;
use canboot_faults::{REFUSED, tell_explained, tell_input, tell_list_explained};
use cm_netlist::CheckFault;
use cm_report::ReportForm;
use cm_shown::NamesFault;
use cm_text::InputFault;
use std::alloc::Global;
use std::io::Write;

/// Tells in this form the fault of a network list of these bytes, as [`tell_list`](canboot_faults::tell_list) does, with where the list
/// has the fault, as far as that is known. The answer is the exit status.
pub fn refuse_explained<E: Write>(
    form: ReportForm,
    alloc: Global,
    bytes: &[u8],
    fault: CheckFault,
    err: &mut E,
) -> u8
    ensures list { IsFaultOfList fault ↔ (result ≡ 1) }
    ensures statuses { (result ≡ 1) ⊎ (result ≡ 3) }
{
    let place = ListPlace {
        alloc,
        text: bytes,
        fault,
    };
    tell_list_explained(form, fault, place, err)
}

/// Tells in this form the fault of the names that the file of this path has in this text, with where it applies, as far as that is known.
/// The answer is the exit status: 3 for want of memory, 1 for any other.
pub fn refuse_names<E: Write>(
    form: ReportForm,
    alloc: Global,
    path: &str,
    text: &[u8],
    fault: NamesFault,
    err: &mut E,
) -> u8
    ensures { (result ≡ 1) ⊎ (result ≡ 3) }
{
    let NamesFault::OutOfMemory = fault else {
        let place = NamesPlace {
            alloc,
            path,
            text,
            fault,
        };
        return tell_explained(form, REFUSED, format_args!("names: {fault}"), place, err);
    };
    tell_input(form, InputFault::Memory, err)
}
