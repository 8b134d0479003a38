//! `canboot check --explain`: a network list in words.

ghost use Rattle.std.specs.Prelude.{◌≡◌, ◌⊎◌, ◌++◌, OnOk};
ghost use Rattle.std.specs.Io.KnownBytes.{Appends};
ghost use Rattle.canboot_check.specs.Check.{FailsToCheck, RefusesList, check_line};
ghost use Rattle.canboot_lists.specs.Explained.{explained};
ghost use Rattle.canboot_lists.specs.Explain.{ExplainsList};

use crate::explaining::explain;
use canboot_check::put_check;
use canboot_faults::{input_fault_line, output_status};
use canboot_refusing::{read_fault_of, refuse_explained};
use cm_netlist::{LONGEST_LIST, Network, list_of};
use cm_report::ReportForm;
use cm_text::read_input;
use std::alloc::Global;
use std::fs;
use std::io::{self, Read, Write};
use std::rt::Files;

/// Writes the line of a network list, and what the list comes to, and all of it.
fn put_explained<W: Write>(network: &Network, out: &mut W) -> io::Result<()>
    ensures { OnOk result (Appends (W.contents out.old) (W.contents out.new)
        (check_line network.now ++ explained network.now)) }
{
    put_check(network, out)?;
    explain(network, out)?;
    out.flush()
}

/// Reads a network list in TOML to the end of the input, and writes how many slaves it lists, as
/// [`check_text`](canboot_check::check_text) does, and behind that in words what the manager does, what a boot asks each slave in its order
/// and how the slave is watched then, and what is warned of. The answer is the exit status:
///
/// - 0: all of it is written, warnings or not;
/// - 1: one of the ten faults of a network list applies to the bytes; `err` has one line that names the first that
///   applies, and behind it where it applies, and nothing is written to `out`;
/// - 3: a read or a write failed, the input is longer than 1,048,576 bytes, or memory was refused; `err` has one
///   line that says which. Only where the list has no fault may anything be written to `out`.
pub fn explain_text<R: Read, W: Write, E: Write>(
    alloc: Global,
    reader: &mut R,
    out: &mut W,
    err: &mut E,
) -> u8
    ensures done { result ≡ 0
        → ExplainsList (R.remaining reader.old) (R.remaining reader.new)
        (W.contents out.old) (W.contents out.new) }
    ensures refused { result ≡ 1
        → RefusesList (R.remaining reader.old) (R.remaining reader.new)
        (W.contents out.old) (W.contents out.new) }
    ensures failed { result ≡ 3
        → FailsToCheck (R.remaining reader.old) (R.remaining reader.new)
        (W.contents out.old) (W.contents out.new) }
    ensures statuses { (result ≡ 0) ⊎ ((result ≡ 1) ⊎ (result ≡ 3)) }
{
    let bytes = match read_input(alloc, reader, LONGEST_LIST) {
        Ok(bytes) => bytes,
        Err(fault) => return input_fault_line(err, fault),
    };
    match list_of(alloc, bytes.as_slice()) {
        Ok(network) => output_status(err, put_explained(&network, out)),
        Err(fault) => refuse_explained(ReportForm::Text, alloc, bytes.as_slice(), fault, err),
    }
}

/// `canboot check --explain`, over the file of this path: [`explain_text`], or 3 where it can't be opened.
pub fn explain_file<R: Files + AllocGlobal, W: Write, E: Write>(
    rt: &R,
    path: &str,
    out: &mut W,
    err: &mut E,
) -> u8
    ensures statuses { (result ≡ 0) ⊎ ((result ≡ 1) ⊎ (result ≡ 3)) }
{
    match fs::open(rt, path) {
        Ok(mut file) => explain_text(rt.alloc(), &mut file, out, err),
        Err(error) => read_fault_of(ReportForm::Text, path, error.kind(), err),
    }
}
