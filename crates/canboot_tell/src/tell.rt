//! `canboot tell`: a journal in words.

ghost use Rattle.std.specs.Prelude.{◌≡◌, ◌⊎◌, OnOk, reverse};
ghost use Rattle.std.specs.Io.KnownBytes.{Appends};
ghost use Rattle.cm_history.specs.Legal.{IsLegal};
ghost use Rattle.cm_netlist.specs.Network.{listing};
ghost use Rattle.canboot_journals.specs.Replay.{FailsToReplay, Refuses};
ghost use Rattle.canboot_tell.specs.ToldHistory.{history_told};
ghost use Rattle.canboot_tell.specs.Tell.{TellsJournal};

use crate::history::tell_history;
use canboot_faults::output_status;
use canboot_journals::{read_journal, refuse_unread};
use cm_journal::Journal;
use cm_nmt::NodeId;
use std::alloc::Global;
use std::io::{self, Read, Write};

/// Writes the history of a journal in words, and all of it.
fn put_told<W: Write>(journal: &Journal, node: Option<NodeId>, out: &mut W) -> io::Result<()>
    requires { IsLegal (listing journal.now.network) (reverse journal.now.entries.items) }
    ensures { OnOk result (Appends (W.contents out.old) (W.contents out.new)
        (history_told journal.now.network node (reverse journal.now.entries.items))) }
{
    tell_history(&journal.network, journal.entries.as_slice(), node, out)?;
    out.flush()
}

/// Reads a journal to the end of the input, makes sure that it is a legal history, and writes it in words, the oldest entry first:
/// each entry but the time as a live run tells it, whose frames were all sent, and what became of the network and of slaves with it.
/// Where a node is given, just the calls that name it are told. The answer is the exit status:
///
/// - 0: the words are written;
/// - 1: the bytes are no journal, or its entries aren't the manager's answers; `err` has one line that names the first line with a
///   fault, behind it, where it is to be explained, what was expected there, and nothing is written to `out`;
/// - 3: a read or a write failed, the input is longer than 268,435,456 bytes, or memory was refused; `err` has one line that says
///   which. Only where the input is a legal journal may anything be written to `out`.
pub fn tell_text<R: Read, W: Write, E: Write>(
    alloc: Global,
    reader: &mut R,
    node: Option<NodeId>,
    is_explained: bool,
    out: &mut W,
    err: &mut E,
) -> u8
    ensures done { result ≡ 0
        → TellsJournal node (R.remaining reader.old) (R.remaining reader.new)
        (W.contents out.old) (W.contents out.new) }
    ensures refused { result ≡ 1
        → Refuses (R.remaining reader.old) (R.remaining reader.new)
        (W.contents out.old) (W.contents out.new) }
    ensures failed { result ≡ 3
        → FailsToReplay (R.remaining reader.old) (R.remaining reader.new)
        (W.contents out.old) (W.contents out.new) }
    ensures statuses { (result ≡ 0) ⊎ ((result ≡ 1) ⊎ (result ≡ 3)) }
{
    match read_journal(alloc, reader) {
        Ok(journal) => output_status(err, put_told(&journal, node, out)),
        Err(unread) => refuse_unread(alloc, &unread, is_explained, err),
    }
}
