//! A network list in words.

ghost use Rattle.std.specs.Prelude.{◌≡◌, OnOk, flat_map};
ghost use Rattle.std.specs.Io.KnownBytes.{Appends};
ghost use Rattle.cm_netlist.specs.Network.{listed_ids};
ghost use Rattle.cm_nmt.specs.Bits.{has_bit};
ghost use Rattle.cm_netlist.specs.StartWarnings.{ended};
ghost use Rattle.canboot_lists.specs.Explained.{bits_text, explained, first_text, is_list_warned, list_warnings, loss_words, manager_text, master_words, operational_words, slave_text_of, slave_warnings, slave_warnings_of, start_words, time_text};

use crate::slave_lines::put_slave;
use cm_netlist::{Network, SlaveEntry, SlaveWarning, put_started_warning, put_warning};
use cm_nmt::{NodeId, Startup};
use cm_text::hex8;
use std::io::{self, Write};

/// What a list is warned of (own). None is a fault: the list is accepted.
#[derive(Clone, Copy)]
pub(crate) enum ListWarning {
    /// No slave is listed.
    NoSlave,
    /// 1F80h bit 0 is clear: this device isn't the NMT master, and every call is refused.
    NotMaster,
}

/// Whether the list is warned of for this.
fn list_is_warned(network: &Network, warning: ListWarning) -> bool
    ensures { result ≡ is_list_warned network.now warning }
{
    match warning {
        ListWarning::NoSlave => network.listed_ids().is_empty(),
        ListWarning::NotMaster => !network.startup().is_master(),
    }
}

/// Whether the manager is the NMT master.
fn master_words(startup: Startup) -> &'static str
    ensures { result.now ≡ master_words (has_bit startup.0 0) }
{
    if startup.is_master() {
        "  it is the NMT master"
    } else {
        "  it isn't the NMT master, and refuses every call"
    }
}

/// When the manager starts slaves.
fn start_words(startup: Startup) -> &'static str
    ensures { result.now ≡ start_words (has_bit startup.0 3) (has_bit startup.0 1) (has_bit startup.0 2) }
{
    if startup.starts_no_slave() {
        "  it starts no slave by itself"
    } else if !startup.starts_all_at_once() {
        "  it starts each slave once that is booted"
    } else if startup.leaves_operational_to_application() {
        "  it starts a slave that is booted while it is operational itself"
    } else {
        "  it starts all slaves at once when every mandatory slave is booted, and later ones once they are booted"
    }
}

/// When the manager becomes operational.
fn operational_words(startup: Startup) -> &'static str
    ensures { result.now ≡ operational_words (has_bit startup.0 2) }
{
    if startup.leaves_operational_to_application() {
        "  it becomes operational when the application asks for it"
    } else {
        "  it becomes operational when every mandatory slave is booted"
    }
}

/// What the manager does where a mandatory slave is lost.
fn loss_words(startup: Startup) -> &'static str
    ensures { result.now ≡ loss_words (has_bit startup.0 6) (has_bit startup.0 4) }
{
    if startup.stops_all_on_error() {
        "  where a mandatory slave is lost, it stops all nodes"
    } else if startup.resets_all_on_error() {
        "  where a mandatory slave is lost, it resets all nodes"
    } else {
        "  where a mandatory slave is lost, it resets that slave"
    }
}

/// Writes for how long the manager waits for the mandatory slaves.
fn put_time<W: Write>(ms: u32, out: &mut W) -> io::Result<()>
    ensures { OnOk result (Appends (W.contents out.old) (W.contents out.new) (time_text ms)) }
{
    if ms == 0 {
        return writeln!(out, "  it waits for the mandatory slaves without limit");
    }
    writeln!(
        out,
        "  it halts the network where a mandatory slave isn't booted after {ms} ms"
    )
}

/// Writes a text on a line of its own.
fn put_line<W: Write>(text: &str, out: &mut W) -> io::Result<()>
    ensures { OnOk result (Appends (W.contents out.old) (W.contents out.new) (ended text.now)) }
{
    writeln!(out, "{text}")
}

/// Writes the first line of the manager.
fn put_first<W: Write>(own: u8, startup: u32, out: &mut W) -> io::Result<()>
    ensures { OnOk result (Appends (W.contents out.old) (W.contents out.new) (first_text own startup)) }
{
    write!(out, "manager {own}: startup ")?;
    out.write_all(&hex8(startup))?;
    writeln!(out)
}

/// Writes what the bits of 1F80h mean.
fn put_bits<W: Write>(startup: Startup, out: &mut W) -> io::Result<()>
    ensures { OnOk result (Appends (W.contents out.old) (W.contents out.new) (bits_text startup.0)) }
{
    put_line(master_words(startup), out)?;
    put_line(start_words(startup), out)?;
    put_line(operational_words(startup), out)?;
    put_line(loss_words(startup), out)
}

/// Writes what the manager does.
fn put_manager<W: Write>(network: &Network, out: &mut W) -> io::Result<()>
    ensures { OnOk result (Appends (W.contents out.old) (W.contents out.new) (manager_text network.now)) }
{
    put_first(network.own_id().get(), network.startup().0, out)?;
    put_bits(network.startup(), out)?;
    put_time(network.boot_time(), out)
}

/// Writes what is said of a node that is listed.
fn put_slave_of<W: Write>(network: &Network, id: NodeId, out: &mut W) -> io::Result<()>
    ensures { OnOk result (Appends (W.contents out.old) (W.contents out.new) (slave_text_of network.now id)) }
{
    match network.entry(id) {
        Some(entry) => put_slave(id, entry, out),
        None => Ok(()),
    }
}

/// Writes what is said of each slave.
fn put_slaves<W: Write>(network: &Network, out: &mut W) -> io::Result<()>
    ensures { OnOk result (Appends (W.contents out.old) (W.contents out.new)
        (flat_map (slave_text_of network.now) (listed_ids network.now))) }
{
    for id in network.listed_ids().as_slice() {
        put_slave_of(network, *id, out)?;
    }
    Ok(())
}

/// Writes each warning of a slave.
fn put_slave_warnings<W: Write>(
    startup: Startup,
    id: NodeId,
    entry: &SlaveEntry,
    out: &mut W,
) -> io::Result<()>
    ensures { OnOk result (Appends (W.contents out.old) (W.contents out.new) (slave_warnings startup.0 id entry.now)) }
{
    put_warning("", id, entry, SlaveWarning::Unchecked, out)?;
    put_warning("", id, entry, SlaveWarning::Unwatched, out)?;
    put_warning("", id, entry, SlaveWarning::Silent, out)?;
    put_warning("", id, entry, SlaveWarning::UnusedBits, out)?;
    put_started_warning("", startup, id, entry, out)
}

/// Writes each warning of the list.
fn put_list_warnings<W: Write>(network: &Network, out: &mut W) -> io::Result<()>
    ensures { OnOk result (Appends (W.contents out.old) (W.contents out.new) (list_warnings network.now)) }
{
    if list_is_warned(network, ListWarning::NoSlave) {
        writeln!(out, "warning: no slave is listed")?;
    }
    if list_is_warned(network, ListWarning::NotMaster) {
        writeln!(
            out,
            "warning: bit 0 of startup is clear: this device isn't the NMT master, and every call is refused"
        )?;
    }
    Ok(())
}

/// Writes what a node that is listed is warned of.
fn put_warnings_of<W: Write>(network: &Network, id: NodeId, out: &mut W) -> io::Result<()>
    ensures { OnOk result (Appends (W.contents out.old) (W.contents out.new) (slave_warnings_of network.now id)) }
{
    match network.entry(id) {
        Some(entry) => put_slave_warnings(network.startup(), id, entry, out),
        None => Ok(()),
    }
}

/// Writes what each slave is warned of.
fn put_all_warnings<W: Write>(network: &Network, out: &mut W) -> io::Result<()>
    ensures { OnOk result (Appends (W.contents out.old) (W.contents out.new)
        (flat_map (slave_warnings_of network.now) (listed_ids network.now))) }
{
    for id in network.listed_ids().as_slice() {
        put_warnings_of(network, *id, out)?;
    }
    Ok(())
}

/// Writes what the list comes to: what the manager does, what a boot asks each slave in its order and
/// how the slave is watched then, and at the end what the list and each slave are warned of. It fails only
/// where the writer does, and then says nothing of how much was written.
pub fn explain<W: Write>(network: &Network, out: &mut W) -> io::Result<()>
    ensures { OnOk result (Appends (W.contents out.old) (W.contents out.new) (explained network.now)) }
{
    put_manager(network, out)?;
    put_slaves(network, out)?;
    put_list_warnings(network, out)?;
    put_all_warnings(network, out)
}
