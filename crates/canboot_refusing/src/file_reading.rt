//! A file that is read to its end, or what is said where it can't be.

ghost use Rattle.std.specs.Prelude.{◌≡◌, IfErr};

use crate::file_fault::{read_fault_of, unread_fault_of};
use cm_netlist::LONGEST_LIST;
use cm_report::ReportForm;
use cm_text::read_input;
use std::fs;
use std::io::Write;
use std::rt::Files;

/// The bytes of the file of this path. The answer is else the exit status; the fault is told in this form, and why the file can't be
/// opened or read.
pub fn read_file<R: Files + AllocGlobal, E: Write>(
    rt: &R,
    form: ReportForm,
    path: &str,
    err: &mut E,
) -> Result<Vec<u8>, u8>
    ensures { IfErr result (λ status. status ≡ 3) }
{
    match fs::open(rt, path) {
        Ok(mut file) => match read_input(rt.alloc(), &mut file, LONGEST_LIST) {
            Ok(text) => Ok(text),
            Err(fault) => Err(unread_fault_of(rt, form, path, fault, err)),
        },
        Err(error) => Err(read_fault_of(form, path, error.kind(), err)),
    }
}
