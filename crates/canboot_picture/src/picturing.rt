//! `canboot picture`: a picture of a journal.

ghost use Rattle.std.specs.Prelude.{◌≡◌, ◌≤◌, ◌⊎◌, List, OnOk, length, reverse};
ghost use Rattle.cm_history.specs.Legal.{IsLegal, most_entries};
ghost use Rattle.cm_history.specs.declared.call.Entry.{Entry};
ghost use Rattle.cm_netlist.specs.Network.{listing};
ghost use Rattle.canboot_journals.specs.Replay.{FailsToReplay, Refuses};
ghost use Rattle.canboot_picture.specs.Drawn.{IsPictureOf};
ghost use Rattle.canboot_picture.specs.Pictures.{WritesPicture};
ghost use Rattle.canboot_picture.specs.Picture.{PicturesJournal};

use crate::drawn::Picture;
use crate::picture::{picture_of, put_picture};
use canboot_faults::{FAILED, fault_line, output_status};
use canboot_journals::{read_journal, refuse_unread};
use cm_journal::Journal;
use cm_netlist::Network;
use std::alloc::Global;
use std::io::{self, Read, Write};

/// Writes the picture of a history of this network, and all of it.
fn put_drawn<W: Write>(picture: &Picture, network: &Network, out: &mut W) -> io::Result<()>
    ensures { (entries : List Entry) → IsPictureOf picture.now network.now entries
        → OnOk result (WritesPicture network.now entries (W.contents out.old) (W.contents out.new)) }
{
    put_picture(picture, network, out)?;
    out.flush()
}

/// Draws a journal that was read, and gives the exit status.
fn draw<W: Write, E: Write>(alloc: Global, journal: &Journal, out: &mut W, err: &mut E) -> u8
    requires few { length journal.now.entries.items ≤ most_entries }
    requires legal { IsLegal (listing journal.now.network) (reverse journal.now.entries.items) }
    ensures done { result ≡ 0 → WritesPicture journal.now.network journal.now.entries.items
        (W.contents out.old) (W.contents out.new) }
    ensures statuses { (result ≡ 0) ⊎ (result ≡ 3) }
{
    match picture_of(alloc, &journal.network, journal.entries.as_slice()) {
        Ok(picture) => {
            let written = put_drawn(&picture, &journal.network, out);
            output_status(err, written)
        }
        Err(_) => fault_line(err, FAILED, "out of memory"),
    }
}

/// Reads a journal to the end of the input, makes sure that it is a legal history, and writes a picture of it, as an SVG document: a
/// lane for the manager and for each listed slave, with the states that the history shows of it. The answer is the exit status:
///
/// - 0: the picture is written;
/// - 1: the bytes are no journal, or its entries aren't the manager's answers; `err` has one line that names the first line with a
///   fault, and nothing is written to `out`;
/// - 3: a read or a write failed, the input is longer than 268,435,456 bytes, or memory was refused; `err` has one line that says
///   which. Only where the input is a legal journal may anything be written to `out`.
pub fn picture_text<R: Read, W: Write, E: Write>(
    alloc: Global,
    reader: &mut R,
    out: &mut W,
    err: &mut E,
) -> u8
    ensures done { result ≡ 0
        → PicturesJournal (R.remaining reader.old) (R.remaining reader.new)
        (W.contents out.old) (W.contents out.new) }
    ensures refused { result ≡ 1
        → Refuses (R.remaining reader.old) (R.remaining reader.new)
        (W.contents out.old) (W.contents out.new) }
    ensures failed { result ≡ 3
        → FailsToReplay (R.remaining reader.old) (R.remaining reader.new)
        (W.contents out.old) (W.contents out.new) }
    ensures statuses { (result ≡ 0) ⊎ ((result ≡ 1) ⊎ (result ≡ 3)) }
{
    match read_journal(alloc, reader) {
        Ok(journal) => draw(alloc, &journal, out, err),
        Err(unread) => refuse_unread(alloc, &unread, false, err),
    }
}
