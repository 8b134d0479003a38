//! What slaves are warned of, in words, and what is told of a network list before its network is booted.

ghost use Rattle.std.specs.Prelude.{◌≡◌, ◌++◌, OnOk, flat_map};
ghost use Rattle.std.specs.Io.KnownBytes.{Appends};
ghost use Rattle.cm_netlist.specs.Network.{listed_ids};
ghost use Rattle.cm_netlist.specs.StartWarnings.{start_warnings, started_warning, told_warning, told_warnings, told_warnings_of, warning_text, warning_words};

use crate::entry::SlaveEntry;
use crate::network::Network;
use crate::warning::{SlaveWarning, is_started_anyway, slave_is_warned};
use cm_nmt::{NodeId, Startup};
use std::io::{self, Write};

/// What is said with a warning of a slave.
fn warning_words(warning: SlaveWarning) -> &'static str
    ensures { result.now ≡ warning_words warning }
{
    match warning {
        SlaveWarning::Unchecked => {
            "bit 2 of its assignment is clear: any device is taken for it, as nothing is compared or written"
        }
        SlaveWarning::Unwatched => {
            "no heartbeat time, and no guard time with a retry factor: nobody notices that it is gone"
        }
        SlaveWarning::Silent => {
            "no write of 1017h sets a time shorter than its heartbeat time, and most devices send none by themselves"
        }
        SlaveWarning::UnusedBits => "its assignment has bit 1, 6 or 7, which mean nothing",
    }
}

/// Writes a warning of a slave behind these words.
fn put_behind<W: Write>(front: &str, number: u8, words: &str, out: &mut W) -> io::Result<()>
    ensures { OnOk result (Appends (W.contents out.old) (W.contents out.new) (front.now ++ warning_text number words.now)) }
{
    writeln!(out, "{front}warning: slave {number}: {words}")
}

/// Writes the warning of this slave in a line that begins with these words, where it is warned of for this, and nothing else. It fails
/// only where the writer does, and then says nothing of how much was written.
pub fn put_warning<W: Write>(
    front: &str,
    id: NodeId,
    entry: &SlaveEntry,
    warning: SlaveWarning,
    out: &mut W,
) -> io::Result<()>
    ensures { OnOk result (Appends (W.contents out.old) (W.contents out.new)
        (told_warning front.now id entry.now warning)) }
{
    if slave_is_warned(entry, warning) {
        put_behind(front, id.get(), warning_words(warning), out)
    } else {
        Ok(())
    }
}

/// Writes the warning of this slave in a line that begins with these words, where 1F80h has a start of all nodes reach it though its
/// boot failed, and nothing else. It fails only where the writer does, and then says nothing of how much was written.
pub fn put_started_warning<W: Write>(
    front: &str,
    startup: Startup,
    id: NodeId,
    entry: &SlaveEntry,
    out: &mut W,
) -> io::Result<()>
    ensures { OnOk result (Appends (W.contents out.old) (W.contents out.new)
        (started_warning front.now startup.0 id entry.now)) }
{
    if is_started_anyway(startup, entry) {
        let words =
            "all nodes are started at once, and it isn't mandatory: it is started too where its boot fails";
        put_behind(front, id.get(), words, out)
    } else {
        Ok(())
    }
}

/// Writes what is told of a slave.
fn put_told_warnings<W: Write>(
    front: &str,
    startup: Startup,
    id: NodeId,
    entry: &SlaveEntry,
    out: &mut W,
) -> io::Result<()>
    ensures { OnOk result (Appends (W.contents out.old) (W.contents out.new)
        (told_warnings front.now startup.0 id entry.now)) }
{
    put_warning(front, id, entry, SlaveWarning::Unchecked, out)?;
    put_warning(front, id, entry, SlaveWarning::Unwatched, out)?;
    put_warning(front, id, entry, SlaveWarning::Silent, out)?;
    put_started_warning(front, startup, id, entry, out)
}

/// Writes what is told of a node that is listed.
fn put_told_warnings_of<W: Write>(
    front: &str,
    network: &Network,
    id: NodeId,
    out: &mut W,
) -> io::Result<()>
    ensures { OnOk result (Appends (W.contents out.old) (W.contents out.new)
        (told_warnings_of front.now network.now id)) }
{
    match network.entry(id) {
        Some(entry) => put_told_warnings(front, network.startup(), id, entry, out),
        None => Ok(()),
    }
}

/// Writes what is to be told before the network of this list is booted, each warning in a line that begins with these words: that any
/// device is taken for a slave, since nothing that its list gives is compared or written; that nobody watches a slave; that no write
/// makes a slave send its heartbeat in time; that a slave is started though its boot failed. It fails only where the writer does, and
/// then says nothing of how much was written.
pub fn warn<W: Write>(front: &str, network: &Network, out: &mut W) -> io::Result<()>
    ensures { OnOk result (Appends (W.contents out.old) (W.contents out.new) (start_warnings front.now network.now)) }
{
    for id in network.listed_ids().as_slice() {
        put_told_warnings_of(front, network, *id, out)?;
    }
    Ok(())
}

/// Tells what a network list is warned of before its network is booted, each in a line that begins with these words. Of a device that
/// isn't the NMT master nothing is told, since its start is refused.
pub fn tell_warnings<E: Write>(front: &str, network: &Network, err: &mut E) {
    if network.startup().is_master() {
        let _ = warn(front, network, err);
    }
}
