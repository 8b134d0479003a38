//! `canboot import`: a slave of a network list from its device file.

ghost use Rattle.std.specs.Prelude.{◌≡◌, ◌⊎◌, OnOk};
ghost use Rattle.std.specs.Io.KnownBytes.{Appends};
ghost use Rattle.canboot_import.specs.Importing.{FailsToImport, ImportsSlave};

use crate::imported::{ImportFault, ImportWords};
use crate::made::{ImportedText, import};
use crate::slave_text::put_all_unwritten;
use canboot_faults::{FAILED, REFUSED, fault_line, input_fault_line, output_status};
use canboot_refusing::read_fault_of;
use cm_device::{FileFault, Item, MOST_WRITES, Settings};
use cm_netlist::put_name;
use cm_report::ReportForm;
use cm_text::{InputFault, read_input};
use std::alloc::Global;
use std::fs;
use std::io::{self, Read, Write};
use std::rt::Files;

/// The greatest length of a device file, in bytes.
pub const LONGEST_DEVICE_FILE: usize = 4_194_304;

/// Writes that the node-ID of a file is none.
fn put_bad_node<E: Write>(item: &Item<'_>, err: &mut E) -> io::Result<()> {
    let line = item.line;
    write!(err, "canboot: line {line}: the node-ID is '")?;
    put_name(item.value, err)?;
    writeln!(err, "', and has to be 1 to 127; --id gives another")
}

/// Writes that the identity of a mandatory slave can't be read, and these lines of its values.
fn put_bad_identity<E: Write>(lines: &[u8], err: &mut E) -> io::Result<()> {
    err.write_all(b"canboot: what the device of a mandatory slave is can't be read\n")?;
    err.write_all(lines)
}

/// Writes that a file has too many writes, and gives the exit status.
fn refuse_many<E: Write>(settings: &Settings<'_>, err: &mut E) -> u8
    ensures { result ≡ 1 }
{
    let all = settings.settings.len().saturating_add(settings.behind);
    let said = format_args!(
        "the file gives {all} writes, and a slave has {MOST_WRITES} at most: --first {MOST_WRITES} takes the first ones"
    );
    fault_line(err, REFUSED, said)
}

/// Writes that not each value of a file is a write, and which aren't.
fn put_bad_values<E: Write>(settings: &Settings<'_>, err: &mut E) -> io::Result<()> {
    err.write_all(b"canboot: not each value is a write: --partly takes the others\n")?;
    put_all_unwritten(settings.unwritten.as_slice(), "  ", err)
}

/// Writes why a file gives no slave, and gives the exit status.
fn refuse_import<E: Write>(err: &mut E, fault: ImportFault<'_>) -> u8
    ensures { (result ≡ 1) ⊎ (result ≡ 3) }
{
    match fault {
        ImportFault::File(FileFault::OutOfMemory) => input_fault_line(err, InputFault::Memory),
        ImportFault::File(FileFault::Line(line, fault)) => {
            fault_line(err, REFUSED, format_args!("line {line}: {fault}"))
        }
        ImportFault::NoDevice => fault_line(err, REFUSED, "neither 1000h nor 1018h is in the file"),
        ImportFault::BadNode(item) => {
            let _ = put_bad_node(&item, err);
            REFUSED
        }
        ImportFault::Unread(lines) => {
            let _ = put_bad_identity(lines.as_slice(), err);
            REFUSED
        }
        ImportFault::Many(settings) => refuse_many(&settings, err),
        ImportFault::Unwritten(settings) => {
            let _ = put_bad_values(&settings, err);
            REFUSED
        }
        ImportFault::NoNode => fault_line(err, REFUSED, "no node-ID: it is given by --id"),
        ImportFault::NoList => fault_line(err, REFUSED, "no network list has this slave"),
    }
}

/// Writes the slave, and all of it; what of the file it doesn't have, it writes to `err`.
fn put_slave<W: Write, E: Write>(slave: &ImportedText, out: &mut W, err: &mut E) -> io::Result<()>
    ensures { OnOk result (Appends (W.contents out.old) (W.contents out.new) slave.now.slave.items) }
{
    let _ = err.write_all(slave.told.as_slice());
    out.write_all(slave.slave.as_slice())?;
    out.flush()
}

/// Reads a device file (CiA 306) to the end of the input, and writes the slave that it gives, as a table of a network list in TOML.
/// What of the file it doesn't have is written to `err`, a line for each value; the clauses say of these lines only what they are, and not
/// that they were written, as a write of them that fails is passed over. The answer is the exit status:
///
/// - 0: the table is written;
/// - 1: the bytes are no device file, or not one of a device with 1000h or 1018h; or neither they nor the words give a node-ID from 1
///   to 127; or the slave is mandatory, and what stands in the file as its device type or identity is no number; or the file gives
///   more than 32 writes, or a value that is no write, and the words don't ask for the first ones or the others. `err` has a line that
///   says which, and behind it a line for each such value, and nothing is written to `out`;
/// - 3: a read or a write failed, the input is longer than 4,194,304 bytes, or memory was refused; `err` has one line that says
///   which. Only where the file gives a slave may anything be written to `out`.
pub fn import_text<R: Read, W: Write, E: Write>(
    alloc: Global,
    words: ImportWords,
    reader: &mut R,
    out: &mut W,
    err: &mut E,
) -> u8
    ensures done { result ≡ 0
        → ImportsSlave words (R.remaining reader.old) (R.remaining reader.new)
        (W.contents out.old) (W.contents out.new) }
    ensures refused { result ≡ 1 → W.contents out.new ≡ W.contents out.old }
    ensures failed { result ≡ 3
        → FailsToImport words (R.remaining reader.old) (R.remaining reader.new)
        (W.contents out.old) (W.contents out.new) }
    ensures statuses { (result ≡ 0) ⊎ ((result ≡ 1) ⊎ (result ≡ 3)) }
{
    let bytes = match read_input(alloc, reader, LONGEST_DEVICE_FILE) {
        Ok(bytes) => bytes,
        Err(fault) => return input_fault_line(err, fault),
    };
    match import(alloc, bytes.as_slice(), words) {
        Ok(slave) => {
            let written = put_slave(&slave, out, err);
            output_status(err, written)
        }
        Err(fault) => refuse_import(err, fault),
    }
}

/// `canboot import`, over the file of this path: [`import_text`], or 3 where it can't be opened.
pub fn import_file<R: Files + AllocGlobal, W: Write, E: Write>(
    rt: &R,
    path: &str,
    words: ImportWords,
    out: &mut W,
    err: &mut E,
) -> u8
    ensures statuses { (result ≡ 0) ⊎ ((result ≡ 1) ⊎ (result ≡ 3)) }
{
    match fs::open(rt, path) {
        Ok(mut file) => import_text(rt.alloc(), words, &mut file, out, err),
        Err(error) => read_fault_of(ReportForm::Text, path, error.kind(), err),
    }
}
