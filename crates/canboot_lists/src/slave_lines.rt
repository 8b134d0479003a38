//! A slave of a network list in words.

ghost use Rattle.std.specs.Prelude.{◌≡◌, OnOk, codes, flat_map};
ghost use Rattle.std.specs.Io.KnownBytes.{Appends};
ghost use Rattle.cm_nmt.specs.Bits.{has_bit};
ghost use Rattle.canboot_lists.specs.Explained.{asked_text, boot_text, compared_text, date_text, device_text, end_text, guard_text, heading_text, heartbeat_text, identities_text, identity_text, is_cob_id, is_mapping, kept_words, mandatory_words, slave_text, software_text, state_text, value_text, watch_text, write_text};

use cm_netlist::{SlaveEntry, SlaveWarning, slave_is_warned};
use cm_nmt::{Assignment, NodeId, Write as Configuring};
use cm_text::{hex4, hex8};
use std::io::{self, Write};

/// What stands behind the assignment: whether the slave is mandatory.
fn mandatory_words(assignment: Assignment) -> &'static str
    ensures { result.now ≡ mandatory_words (has_bit assignment.0 3) }
{
    if assignment.is_mandatory() {
        ", mandatory"
    } else {
        ", optional"
    }
}

/// What stands behind that: whether the slave is kept alive.
fn kept_words(assignment: Assignment) -> &'static str
    ensures { result.now ≡ kept_words (has_bit assignment.0 4) }
{
    if assignment.is_kept_alive() {
        ", kept alive"
    } else {
        ""
    }
}

/// Writes an object with the value that is expected of it, and what another comes to.
fn put_compared<W: Write>(object: &str, value: u32, otherwise: &str, out: &mut W) -> io::Result<()>
    ensures { OnOk result (Appends (W.contents out.old) (W.contents out.new)
        (compared_text object.now value otherwise.now)) }
{
    write!(out, "  asks {object}: ")?;
    out.write_all(&hex8(value))?;
    writeln!(out, ", {otherwise}")
}

/// Writes what the device type is compared with.
fn put_device<W: Write>(value: u32, out: &mut W) -> io::Result<()>
    ensures { OnOk result (Appends (W.contents out.old) (W.contents out.new) (device_text value)) }
{
    if value == 0 {
        return writeln!(out, "  asks 1000h, device type: any, no answer is status B");
    }
    put_compared(
        "1000h, device type",
        value,
        "no answer is status B, another C",
        out,
    )
}

/// Writes what an object of the identity is compared with, if it is.
fn put_identity<W: Write>(object: &str, value: u32, otherwise: &str, out: &mut W) -> io::Result<()>
    ensures { OnOk result (Appends (W.contents out.old) (W.contents out.new)
        (identity_text object.now value otherwise.now)) }
{
    if value == 0 {
        return Ok(());
    }
    put_compared(object, value, otherwise, out)
}

/// Writes how a slave that is kept alive is asked for its state.
fn put_state<W: Write>(entry: &SlaveEntry, out: &mut W) -> io::Result<()>
    ensures { OnOk result (Appends (W.contents out.old) (W.contents out.new) (state_text entry.now)) }
{
    if !entry.assignment.is_kept_alive() {
        return Ok(());
    }
    if entry.heartbeat_ms == 0 {
        writeln!(
            out,
            "  asks its state by a guard request, else status F; operational is status L: it stays as it is"
        )
    } else {
        writeln!(
            out,
            "  hears its state by a heartbeat, else status E; operational is status L: it stays as it is"
        )
    }
}

/// Writes that the software version is to be verified.
fn put_software<W: Write>(entry: &SlaveEntry, out: &mut W) -> io::Result<()>
    ensures { OnOk result (Appends (W.contents out.old) (W.contents out.new) (software_text entry.now)) }
{
    if entry.assignment.verifies_software() {
        writeln!(
            out,
            "  has its software version verified, which can't be done: status G"
        )
    } else {
        Ok(())
    }
}

/// Writes the configuration date and time, where both are given.
fn put_date<W: Write>(entry: &SlaveEntry, out: &mut W) -> io::Result<()>
    ensures { OnOk result (Appends (W.contents out.old) (W.contents out.new) (date_text entry.now)) }
{
    if entry.date == 0 || entry.time == 0 {
        return Ok(());
    }
    let date = entry.date;
    let time = entry.time;
    writeln!(
        out,
        "  asks 1020h, configuration date and time: with {date} and {time} it is configured and nothing is written"
    )
}

/// Whether the object is a COB-ID: of SYNC, TIME or EMCY, of an SDO, or of a PDO (CiA 301).
fn is_cob_id(index: u16, sub: u8) -> bool
    ensures { result ≡ is_cob_id index sub }
{
    (sub == 0 && (index == 0x1005 || (index == 0x1012 || index == 0x1014)))
        || ((0x1200 <= index && index <= 0x12FF && (sub == 1 || sub == 2))
            || (sub == 1
                && ((0x1400 <= index && index <= 0x15FF) || (0x1800 <= index && index <= 0x19FF))))
}

/// Whether the object is what a PDO carries (CiA 301).
fn is_mapping(index: u16, sub: u8) -> bool
    ensures { result ≡ is_mapping index sub }
{
    !(sub == 0) && ((0x1600 <= index && index <= 0x17FF) || (0x1A00 <= index && index <= 0x1BFF))
}

/// Writes the value of a write: a COB-ID, and what a PDO carries, in hexadecimal.
fn put_value<W: Write>(write: &Configuring, out: &mut W) -> io::Result<()>
    ensures { OnOk result (Appends (W.contents out.old) (W.contents out.new) (value_text write.now)) }
{
    let value = write.value;
    if is_cob_id(write.index, write.sub) || is_mapping(write.index, write.sub) {
        out.write_all(&hex8(value))?;
        return write!(out, "h");
    }
    write!(out, "{value}")
}

/// Writes a write.
fn put_write<W: Write>(write: &Configuring, out: &mut W) -> io::Result<()>
    ensures { OnOk result (Appends (W.contents out.old) (W.contents out.new) (write_text write.now)) }
{
    write!(out, "  writes ")?;
    out.write_all(&hex4(write.index))?;
    let (sub, size) = (write.sub, write.size);
    write!(out, "h sub {sub}: ")?;
    put_value(write, out)?;
    writeln!(out, ", bytes {size}, else status J")
}

/// Writes each write.
fn put_writes<W: Write>(writes: &[Configuring], out: &mut W) -> io::Result<()>
    ensures { OnOk result (Appends (W.contents out.old) (W.contents out.new) (flat_map write_text writes.now)) }
{
    for write in writes {
        put_write(write, out)?;
    }
    Ok(())
}

/// Writes the identity that is asked for.
fn put_identities<W: Write>(entry: &SlaveEntry, out: &mut W) -> io::Result<()>
    ensures { OnOk result (Appends (W.contents out.old) (W.contents out.new) (identities_text entry.now)) }
{
    put_identity("1018h sub 1, vendor-ID", entry.vendor, "else status D", out)?;
    put_identity(
        "1018h sub 2, product code",
        entry.product,
        "else status M",
        out,
    )?;
    put_identity(
        "1018h sub 3, revision number",
        entry.revision,
        "else status N",
        out,
    )?;
    put_identity(
        "1018h sub 4, serial number",
        entry.serial,
        "else status O",
        out,
    )
}

/// Writes all that a boot asks where the slave is to be booted.
fn put_asked<W: Write>(entry: &SlaveEntry, out: &mut W) -> io::Result<()>
    ensures { OnOk result (Appends (W.contents out.old) (W.contents out.new) (asked_text entry.now)) }
{
    put_device(entry.device_type, out)?;
    put_identities(entry, out)?;
    put_state(entry, out)?;
    put_software(entry, out)?;
    put_date(entry, out)?;
    put_writes(entry.writes.as_slice(), out)
}

/// Writes that a heartbeat is waited for, where one has to come, and what the boot ends with else.
fn put_end<W: Write>(entry: &SlaveEntry, out: &mut W) -> io::Result<()>
    ensures { OnOk result (Appends (W.contents out.old) (W.contents out.new) (end_text entry.now)) }
{
    let ms = entry.heartbeat_ms;
    if ms == 0 {
        return writeln!(out, "  all as expected is status Ok");
    }
    writeln!(
        out,
        "  waits for a heartbeat, {ms} ms, else status K\n  all as expected is status Ok"
    )
}

/// Writes how the slave is guarded.
fn put_guard<W: Write>(ms: u16, times: u8, out: &mut W) -> io::Result<()>
    ensures { OnOk result (Appends (W.contents out.old) (W.contents out.new) (guard_text ms times)) }
{
    writeln!(
        out,
        "  booted, it is asked for its state each {ms} ms, and lost after {times} times without an answer"
    )
}

/// Writes within which time a heartbeat has to come.
fn put_heartbeat<W: Write>(ms: u16, out: &mut W) -> io::Result<()>
    ensures { OnOk result (Appends (W.contents out.old) (W.contents out.new) (heartbeat_text ms)) }
{
    writeln!(
        out,
        "  booted, it is lost after {ms} ms without a heartbeat"
    )
}

/// Writes how the slave is watched.
fn put_watch<W: Write>(entry: &SlaveEntry, out: &mut W) -> io::Result<()>
    ensures { OnOk result (Appends (W.contents out.old) (W.contents out.new) (watch_text entry.now)) }
{
    if slave_is_warned(entry, SlaveWarning::Unwatched) {
        writeln!(out, "  booted, nobody watches it")
    } else if entry.heartbeat_ms == 0 {
        put_guard(
            entry.assignment.guard_time_ms(),
            entry.assignment.retry_factor(),
            out,
        )
    } else {
        put_heartbeat(entry.heartbeat_ms, out)
    }
}

/// Writes what a boot asks of the slave, by its assignment.
fn put_boot<W: Write>(entry: &SlaveEntry, out: &mut W) -> io::Result<()>
    ensures { OnOk result (Appends (W.contents out.old) (W.contents out.new) (boot_text entry.now)) }
{
    if entry.assignment.is_to_be_booted() {
        put_asked(entry, out)
    } else {
        writeln!(
            out,
            "  isn't asked what it is, and nothing is written: bit 2 is clear"
        )
    }
}

/// Writes the first line of a slave.
fn put_heading<W: Write>(number: u8, assignment: Assignment, out: &mut W) -> io::Result<()>
    ensures { OnOk result (Appends (W.contents out.old) (W.contents out.new) (heading_text number assignment.0)) }
{
    write!(out, "slave {number}: assignment ")?;
    out.write_all(&hex8(assignment.0))?;
    writeln!(
        out,
        "{}{}",
        mandatory_words(assignment),
        kept_words(assignment)
    )
}

/// Writes a slave: its assignment, what a boot asks of it in its order, and how it is watched then.
pub(crate) fn put_slave<W: Write>(id: NodeId, entry: &SlaveEntry, out: &mut W) -> io::Result<()>
    ensures { OnOk result (Appends (W.contents out.old) (W.contents out.new) (slave_text id entry.now)) }
{
    put_heading(id.get(), entry.assignment, out)?;
    put_boot(entry, out)?;
    put_end(entry, out)?;
    put_watch(entry, out)
}
