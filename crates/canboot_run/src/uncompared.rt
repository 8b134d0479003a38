//! Wrong values of simulated slaves that no boot compares.

ghost use Rattle.std.specs.Prelude.{◌≡◌};
ghost use Rattle.canboot_run.specs.SlaveFaults.{expected_value, is_compared};

use crate::slave_faults::{SlaveFaults, SlaveValue, WrongValue};
use cm_netlist::{Network, SlaveEntry};
use std::io::{self, Write};

/// What the list expects of a slave there, 0 for nothing.
fn expected_value(entry: &SlaveEntry, value: SlaveValue) -> u32
    ensures { result ≡ expected_value entry.now value }
{
    match value {
        SlaveValue::DeviceType => entry.device_type,
        SlaveValue::Vendor => entry.vendor,
        SlaveValue::Product => entry.product,
        SlaveValue::Revision => entry.revision,
        SlaveValue::Serial => entry.serial,
        SlaveValue::Date | SlaveValue::Time => { if entry.time == 0 { 0 } else { entry.date } }
    }
}

/// Whether a boot of the slave compares this value of it: it asks the slave what it is, and the list expects something there.
fn is_compared(entry: &SlaveEntry, value: SlaveValue) -> bool
    ensures { result ≡ is_compared entry.now value }
{
    entry.assignment.is_to_be_booted() && !(expected_value(entry, value) == 0)
}

/// The key of a value in a network list; date and time are compared together.
fn key_of(value: SlaveValue) -> &'static str {
    match value {
        SlaveValue::DeviceType => "device_type",
        SlaveValue::Vendor => "vendor",
        SlaveValue::Product => "product",
        SlaveValue::Revision => "revision",
        SlaveValue::Serial => "serial",
        SlaveValue::Date | SlaveValue::Time => "date and time",
    }
}

/// Tells that nothing compares a wrong value, where it is so.
fn tell_of<E: Write>(network: &Network, wrong: &WrongValue, err: &mut E) -> io::Result<()> {
    let Some(entry) = network.entry(wrong.id) else {
        return Ok(());
    };
    if is_compared(entry, wrong.object) {
        return Ok(());
    }
    let (number, key) = (wrong.id.get(), key_of(wrong.object));
    if entry.assignment.is_to_be_booted() {
        writeln!(
            err,
            "canboot: warning: slave {number} sets no {key}: nothing compares it"
        )
    } else {
        writeln!(
            err,
            "canboot: warning: slave {number} isn't asked what it is: nothing compares its {key}"
        )
    }
}

/// Tells of each wrong value that no boot compares, in the order in which they were given: the slave agrees with the list in spite of it.
/// Of a device that isn't the NMT master nothing is told, since its start is refused.
pub(crate) fn tell_uncompared<E: Write>(network: &Network, faults: &SlaveFaults, err: &mut E) {
    if !network.startup().is_master() {
        return;
    }
    for wrong in faults.wrong.as_slice() {
        let _ = tell_of(network, wrong, err);
    }
}
