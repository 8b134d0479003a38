//! `canboot replay`: a journal's report, as lines or as one JSON object.

ghost use Rattle.std.specs.Prelude.{◌≡◌, ◌⊎◌, List, OnOk};
ghost use Rattle.std.specs.Io.KnownBytes.{Appends};
ghost use Rattle.cm_history.specs.declared.call.Entry.{Entry};
ghost use Rattle.cm_sequential.specs.Compact.{IsReplayOf};
ghost use Rattle.cm_report.specs.ReportForms.{report_in};
ghost use Rattle.canboot_journals.specs.Replay.{FailsToReplay, Refuses, Replays, ReplaysAsJson, ReplaysIn};

use crate::refusing::refuse_read;
use canboot_faults::tell_output;
use cm_journal::{Replayed, journal_replay};
use cm_report::{ReportForm, replay_in};
use std::alloc::Global;
use std::io::{self, Read, Write};

/// The greatest length of a journal's text, in bytes.
pub const LONGEST_JOURNAL: usize = 268_435_456;

/// Writes the report in this form, and all of it.
fn put_report<W: Write>(form: ReportForm, replayed: &Replayed, out: &mut W) -> io::Result<()>
    ensures { (entries : List Entry) → IsReplayOf replayed.now.replay replayed.now.network entries
        → OnOk result (Appends (W.contents out.old) (W.contents out.new)
        (report_in form replayed.now.network entries)) }
{
    replay_in(form, &replayed.network, &replayed.replay, out)?;
    out.flush()
}

/// Replays a journal as [`replay_text`] does, and writes its report or its fault in this form. The answer is the exit status.
fn replay_as<R: Read, W: Write, E: Write>(
    alloc: Global,
    form: ReportForm,
    reader: &mut R,
    out: &mut W,
    err: &mut E,
) -> u8
    ensures done { result ≡ 0
        → ReplaysIn form (R.remaining reader.old) (R.remaining reader.new)
        (W.contents out.old) (W.contents out.new) }
    ensures refused { result ≡ 1
        → Refuses (R.remaining reader.old) (R.remaining reader.new)
        (W.contents out.old) (W.contents out.new) }
    ensures failed { result ≡ 3
        → FailsToReplay (R.remaining reader.old) (R.remaining reader.new)
        (W.contents out.old) (W.contents out.new) }
    ensures statuses { (result ≡ 0) ⊎ ((result ≡ 1) ⊎ (result ≡ 3)) }
{
    match journal_replay(alloc, reader, LONGEST_JOURNAL) {
        Ok(replayed) => tell_output(form, put_report(form, &replayed, out), err),
        Err(fault) => refuse_read(form, fault, err),
    }
}

/// Reads a journal to the end of the input, makes sure that it is a legal history, and
/// writes its status report. The answer is the exit status:
///
/// - 0: the report is written;
/// - 1: the bytes are no journal, or its entries aren't the manager's answers; `err` has one
///   line that names the first line with a fault, and nothing is written to `out`;
/// - 3: a read or a write failed, the input is longer than 268,435,456 bytes, or memory was
///   refused; `err` has one line that says which. Only where the input is a legal journal, and its
///   report couldn't be written, may anything be written to `out`.
pub fn replay_text<R: Read, W: Write, E: Write>(
    alloc: Global,
    reader: &mut R,
    out: &mut W,
    err: &mut E,
) -> u8
    ensures done { result ≡ 0
        → Replays (R.remaining reader.old) (R.remaining reader.new)
        (W.contents out.old) (W.contents out.new) }
    ensures refused { result ≡ 1
        → Refuses (R.remaining reader.old) (R.remaining reader.new)
        (W.contents out.old) (W.contents out.new) }
    ensures failed { result ≡ 3
        → FailsToReplay (R.remaining reader.old) (R.remaining reader.new)
        (W.contents out.old) (W.contents out.new) }
    ensures statuses { (result ≡ 0) ⊎ ((result ≡ 1) ⊎ (result ≡ 3)) }
{
    replay_as(alloc, ReportForm::Text, reader, out, err)
}

/// Reads a journal to the end of the input, makes sure that it is a legal history, and writes its status report as one JSON
/// object on a line. The answer is the exit status, as that of [`replay_text`]; in the place of a line of fault
/// `err` has an object with `status`, `fault`, and `line` where a line of the journal has the fault.
pub fn replay_as_json<R: Read, W: Write, E: Write>(
    alloc: Global,
    reader: &mut R,
    out: &mut W,
    err: &mut E,
) -> u8
    ensures done { result ≡ 0
        → ReplaysAsJson (R.remaining reader.old) (R.remaining reader.new)
        (W.contents out.old) (W.contents out.new) }
    ensures refused { result ≡ 1
        → Refuses (R.remaining reader.old) (R.remaining reader.new)
        (W.contents out.old) (W.contents out.new) }
    ensures failed { result ≡ 3
        → FailsToReplay (R.remaining reader.old) (R.remaining reader.new)
        (W.contents out.old) (W.contents out.new) }
    ensures statuses { (result ≡ 0) ⊎ ((result ≡ 1) ⊎ (result ≡ 3)) }
{
    replay_as(alloc, ReportForm::Json, reader, out, err)
}
