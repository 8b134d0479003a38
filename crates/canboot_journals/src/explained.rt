//! A journal that is kept whole, and `canboot replay --explain`: its report, or what was expected where the journal has its fault.

ghost use Rattle.std.specs.Prelude.{◌≡◌, ◌⊎◌, IfErr, IfOk, OnOk, reverse};
ghost use Rattle.std.specs.Io.KnownBytes.{Appends};
ghost use Rattle.cm_history.specs.Legal.{IsLegal};
ghost use Rattle.cm_netlist.specs.Network.{listing};
ghost use Rattle.cm_format.specs.Report.{report_text};
ghost use Rattle.cm_journal.specs.Inputs.{RefusesInput};
ghost use Rattle.cm_journal.specs.Views.{view};
ghost use Rattle.canboot_journals.specs.Replay.{FailsToReplay, IsLegalInput, IsOfText, Refuses, Replays};

use crate::expected_words::explain_journal;
use crate::refusing::refuse_read;
use crate::replay::LONGEST_JOURNAL;
use canboot_faults::output_status;
use cm_journal::{Journal, ReadFault, journal_read};
use cm_report::{ReportForm, report};
use cm_text::read_input;
use std::alloc::Global;
use std::io::{self, Read, Write};

/// Why an input wasn't read as a journal.
#[derive(Drop)]
pub struct Unread {
    /// What is wrong.
    pub fault: ReadFault,
    /// The bytes of the input, where it was read to its end.
    pub text: Vec<u8>,
}

/// Reads a journal to the end of the input, which has at most [`LONGEST_JOURNAL`] bytes, and makes sure that it is a legal history.
pub fn read_journal<R: Read>(alloc: Global, reader: &mut R) -> Result<Journal, Unread>
    ensures found { IfOk result (λ j. IsLegalInput (R.remaining reader.old)
        (R.remaining reader.new) (view j)) }
    ensures refused { IfErr result (λ u. RefusesInput 268435456 (R.remaining reader.old)
        (R.remaining reader.new) u.fault) }
{
    let text = match read_input(alloc, reader, LONGEST_JOURNAL) {
        Ok(text) => text,
        Err(fault) => {
            return Err(Unread {
                fault: ReadFault::Input(fault),
                text: Vec::new(alloc),
            });
        }
    };
    match journal_read(alloc, text.as_slice()) {
        Ok(journal) => Ok(journal),
        Err(fault) => Err(Unread {
            fault: ReadFault::Journal(fault),
            text,
        }),
    }
}

/// Writes the line of fault of an input that wasn't read as a journal, and where it is to be explained, behind it what was expected there,
/// as far as that is known. The answer is the exit status: 1 for a fault of its text, 3 for any other.
pub fn refuse_unread<E: Write>(
    alloc: Global,
    unread: &Unread,
    is_explained: bool,
    err: &mut E,
) -> u8
    ensures refused { result ≡ 1 → IsOfText unread.now.fault }
    ensures statuses { (result ≡ 1) ⊎ (result ≡ 3) }
{
    let status = refuse_read(ReportForm::Text, unread.fault, err);
    if let ReadFault::Journal(fault) = unread.fault {
        if is_explained {
            explain_journal(alloc, unread.text.as_slice(), fault, err);
        }
    }
    status
}

/// Writes the report, and all of it.
fn put_report<W: Write>(journal: &Journal, out: &mut W) -> io::Result<()>
    requires { IsLegal (listing journal.now.network) (reverse journal.now.entries.items) }
    ensures { OnOk result (Appends (W.contents out.old) (W.contents out.new)
        (report_text journal.now.network journal.now.entries.items)) }
{
    report(&journal.network, journal.entries.as_slice(), out)?;
    out.flush()
}

/// Does what [`replay_text`](crate::replay::replay_text) does, but keeps the journal's bytes: behind the line of a journal's fault `err` has
/// what was expected there, as far as that is known.
pub fn replay_explained<R: Read, W: Write, E: Write>(
    alloc: Global,
    reader: &mut R,
    out: &mut W,
    err: &mut E,
) -> u8
    ensures done { result ≡ 0
        → Replays (R.remaining reader.old) (R.remaining reader.new)
        (W.contents out.old) (W.contents out.new) }
    ensures refused { result ≡ 1
        → Refuses (R.remaining reader.old) (R.remaining reader.new)
        (W.contents out.old) (W.contents out.new) }
    ensures failed { result ≡ 3
        → FailsToReplay (R.remaining reader.old) (R.remaining reader.new)
        (W.contents out.old) (W.contents out.new) }
    ensures statuses { (result ≡ 0) ⊎ ((result ≡ 1) ⊎ (result ≡ 3)) }
{
    match read_journal(alloc, reader) {
        Ok(journal) => output_status(err, put_report(&journal, out)),
        Err(unread) => refuse_unread(alloc, &unread, true, err),
    }
}
