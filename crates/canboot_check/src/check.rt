//! `canboot check NET`: how many slaves a network list has, in a line or as one JSON object.

ghost use Rattle.std.specs.Prelude.{◌≡◌, ◌⊎◌, OnOk, length};
ghost use Rattle.std.specs.Io.KnownBytes.{Appends};
ghost use Rattle.canboot_check.specs.Check.{Checks, ChecksAsJson, ChecksIn, FailsToCheck, RefusesList};
ghost use Rattle.canboot_check.specs.Check.{check_in, check_line, counts_in, counts_json, counts_line, kept_ids, mandatory_ids};

use canboot_faults::{tell_list, tell_output, tell_unopened};
use cm_netlist::{Network, read_list};
use cm_report::ReportForm;
use std::alloc::Global;
use std::fs;
use std::io::{self, Read, Write};
use std::rt::Files;

/// How many slaves are mandatory: 1F81h bit 3 (CiA 302-2).
pub fn count_mandatory(network: &Network) -> usize
    ensures { result ≡ length (mandatory_ids network.now) }
{
    let ids = network.listed_ids();
    ids.iter().filter(|id| network.mandatory(**id)).count()
}

/// How many slaves are kept alive: 1F81h bit 4 (CiA 302-2).
pub fn count_kept(network: &Network) -> usize
    ensures { result ≡ length (kept_ids network.now) }
{
    let ids = network.listed_ids();
    ids.iter().filter(|id| network.kept(**id)).count()
}

/// Writes these numbers of slaves, mandatory slaves and slaves that are kept alive, as a line.
fn put_line<W: Write>(slaves: usize, mandatory: usize, kept: usize, out: &mut W) -> io::Result<()>
    ensures { OnOk result
        (Appends (W.contents out.old) (W.contents out.new) (counts_line slaves mandatory kept)) }
{
    writeln!(out, "ok slaves {slaves} mandatory {mandatory} kept {kept}")
}

/// Writes them as an object.
fn put_object<W: Write>(slaves: usize, mandatory: usize, kept: usize, out: &mut W) -> io::Result<()>
    ensures { OnOk result
        (Appends (W.contents out.old) (W.contents out.new) (counts_json slaves mandatory kept)) }
{
    writeln!(
        out,
        r#"{{"slaves":{slaves},"mandatory":{mandatory},"kept":{kept}}}"#
    )
}

/// Writes them in this form.
fn put_counts<W: Write>(
    form: ReportForm,
    slaves: usize,
    mandatory: usize,
    kept: usize,
    out: &mut W,
) -> io::Result<()>
    ensures { OnOk result
        (Appends (W.contents out.old) (W.contents out.new) (counts_in form slaves mandatory kept)) }
{
    match form {
        ReportForm::Text => put_line(slaves, mandatory, kept, out),
        ReportForm::Json => put_object(slaves, mandatory, kept, out),
    }
}

/// Writes what is printed of a network list in this form, and all of it.
fn put_check_in<W: Write>(form: ReportForm, network: &Network, out: &mut W) -> io::Result<()>
    ensures { OnOk result
        (Appends (W.contents out.old) (W.contents out.new) (check_in form network.now)) }
{
    let slaves = network.listed_ids().len();
    let mandatory = count_mandatory(network);
    let kept = count_kept(network);
    put_counts(form, slaves, mandatory, kept, out)?;
    out.flush()
}

/// Writes the line of a network list: how many slaves it lists, how many of them are mandatory, and how many are kept
/// alive; and all of it. It fails only where the writer does, and then says nothing of how much was written.
pub fn put_check<W: Write>(network: &Network, out: &mut W) -> io::Result<()>
    ensures { OnOk result
        (Appends (W.contents out.old) (W.contents out.new) (check_line network.now)) }
{
    put_check_in(ReportForm::Text, network, out)
}

/// Reads a network list, and prints it or its fault in this form, as [`check_text`] does. The answer is the exit status.
fn check_in<R: Read, W: Write, E: Write>(
    alloc: Global,
    form: ReportForm,
    reader: &mut R,
    out: &mut W,
    err: &mut E,
) -> u8
    ensures done { result ≡ 0
        → ChecksIn form (R.remaining reader.old) (R.remaining reader.new)
        (W.contents out.old) (W.contents out.new) }
    ensures refused { result ≡ 1
        → RefusesList (R.remaining reader.old) (R.remaining reader.new)
        (W.contents out.old) (W.contents out.new) }
    ensures failed { result ≡ 3
        → FailsToCheck (R.remaining reader.old) (R.remaining reader.new)
        (W.contents out.old) (W.contents out.new) }
    ensures statuses { (result ≡ 0) ⊎ ((result ≡ 1) ⊎ (result ≡ 3)) }
{
    match read_list(alloc, reader) {
        Ok(network) => tell_output(form, put_check_in(form, &network, out), err),
        Err(fault) => tell_list(form, fault, err),
    }
}

/// Reads a network list in TOML to the end of the input, and writes how many slaves it lists, how
/// many of them are mandatory, and how many are kept alive. The answer is the exit status:
///
/// - 0: the line is written;
/// - 1: one of the ten faults of a network list applies to the bytes, which aren't TOML where they
///   aren't UTF-8; `err` has one line that names the first that applies, and nothing is written to
///   `out`;
/// - 3: a read or a write failed, the input is longer than 1,048,576 bytes, or memory was refused;
///   `err` has one line that says which. Only where the list has no fault, and its line couldn't be
///   written, may anything be written to `out`.
pub fn check_text<R: Read, W: Write, E: Write>(
    alloc: Global,
    reader: &mut R,
    out: &mut W,
    err: &mut E,
) -> u8
    ensures done { result ≡ 0
        → Checks (R.remaining reader.old) (R.remaining reader.new)
        (W.contents out.old) (W.contents out.new) }
    ensures refused { result ≡ 1
        → RefusesList (R.remaining reader.old) (R.remaining reader.new)
        (W.contents out.old) (W.contents out.new) }
    ensures failed { result ≡ 3
        → FailsToCheck (R.remaining reader.old) (R.remaining reader.new)
        (W.contents out.old) (W.contents out.new) }
    ensures statuses { (result ≡ 0) ⊎ ((result ≡ 1) ⊎ (result ≡ 3)) }
{
    check_in(alloc, ReportForm::Text, reader, out, err)
}

/// Reads a network list in TOML to the end of the input, and writes how many slaves it lists, how many of them are mandatory,
/// and how many are kept alive, as one JSON object on a line. The answer is the exit status, as that of
/// [`check_text`]; in the place of a line of fault `err` has an object with `status` and `fault`.
pub fn check_as_json<R: Read, W: Write, E: Write>(
    alloc: Global,
    reader: &mut R,
    out: &mut W,
    err: &mut E,
) -> u8
    ensures done { result ≡ 0
        → ChecksAsJson (R.remaining reader.old) (R.remaining reader.new)
        (W.contents out.old) (W.contents out.new) }
    ensures refused { result ≡ 1
        → RefusesList (R.remaining reader.old) (R.remaining reader.new)
        (W.contents out.old) (W.contents out.new) }
    ensures failed { result ≡ 3
        → FailsToCheck (R.remaining reader.old) (R.remaining reader.new)
        (W.contents out.old) (W.contents out.new) }
    ensures statuses { (result ≡ 0) ⊎ ((result ≡ 1) ⊎ (result ≡ 3)) }
{
    check_in(alloc, ReportForm::Json, reader, out, err)
}

/// `canboot check` in this form, over the file of this path: [`check_text`] or [`check_as_json`], or 3 where it can't be opened.
pub fn check_file<R: Files + AllocGlobal, W: Write, E: Write>(
    rt: &R,
    path: &str,
    form: ReportForm,
    out: &mut W,
    err: &mut E,
) -> u8
    ensures statuses { (result ≡ 0) ⊎ ((result ≡ 1) ⊎ (result ≡ 3)) }
{
    match fs::open(rt, path) {
        Ok(mut file) => check_in(rt.alloc(), form, &mut file, out, err),
        Err(error) => tell_unopened(form, error.kind(), err),
    }
}
