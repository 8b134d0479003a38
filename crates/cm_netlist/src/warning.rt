//! What a slave of a network list without a fault is warned of.

ghost use Rattle.std.specs.Prelude.{◌≡◌};
ghost use Rattle.std.specs.List.{list_any};
ghost use Rattle.cm_netlist.specs.Warnings.{has_beats, has_unused_bits, is_described, is_silent, is_started_anyway, is_unchecked, is_unwatched, is_warned};

use crate::entry::SlaveEntry;
use cm_nmt::{Startup, Write};

/// What a slave of a network list is warned of (own). None is a fault: the list is accepted.
#[derive(Clone, Copy)]
pub enum SlaveWarning {
    /// A device type, an identity or a write is given, but 1F81h bit 2 is clear: a boot neither compares nor writes, and any
    /// device is taken for this slave.
    Unchecked,
    /// It has no heartbeat time, and its guard time or its retry factor is 0: nobody notices that it is gone.
    Unwatched,
    /// It has a heartbeat time, but no write of 1017h sets a shorter time that isn't 0, which it is in most devices.
    Silent,
    /// 1F81h has one of the bits 1, 6, 7, which mean nothing here.
    UnusedBits,
}

/// Whether a device type, an identity or a write is given.
fn is_described(entry: &SlaveEntry) -> bool
    ensures { result ≡ is_described entry.now }
{
    !(entry.device_type == 0)
        || !(entry.vendor == 0)
        || !(entry.product == 0)
        || !(entry.revision == 0)
        || !(entry.serial == 0)
        || !entry.writes.is_empty()
}

/// Whether anything is given that no boot compares or writes.
fn is_unchecked(entry: &SlaveEntry) -> bool
    ensures { result ≡ is_unchecked entry.now }
{
    !entry.assignment.is_to_be_booted() && is_described(entry)
}

/// Whether the slave has neither a heartbeat time nor is guarded.
fn is_unwatched(entry: &SlaveEntry) -> bool
    ensures { result ≡ is_unwatched entry.now }
{
    entry.heartbeat_ms == 0
        && (entry.assignment.guard_time_ms() == 0 || entry.assignment.retry_factor() == 0)
}

/// Whether the write makes the slave send a heartbeat within so many ms.
fn has_beats(most: u16, write: &Write) -> bool
    ensures { result ≡ has_beats most write.now }
{
    write.index == 0x1017 && write.sub == 0 && 0 < write.value && write.value < u32::from(most)
}

/// Whether one of the writes makes the slave send a heartbeat within so many ms.
fn any_beats(most: u16, writes: &[Write]) -> bool
    ensures { result ≡ list_any (has_beats most) writes.now }
{
    writes.iter().any(|write| has_beats(most, write))
}

/// Whether a heartbeat has to come that no write asks for.
fn is_silent(entry: &SlaveEntry) -> bool
    ensures { result ≡ is_silent entry.now }
{
    0 < entry.heartbeat_ms && !any_beats(entry.heartbeat_ms, entry.writes.as_slice())
}

/// Whether 1F81h has a bit that means nothing here.
fn has_unused_bits(entry: &SlaveEntry) -> bool
    ensures { result ≡ has_unused_bits entry.now }
{
    let bits = entry.assignment.0;
    bits & 0x02 == 0x02 || bits & 0x40 == 0x40 || bits & 0x80 == 0x80
}

/// Whether a start of all nodes reaches a slave of this entry though its boot failed, since it isn't mandatory and the manager starts
/// all at once.
pub(crate) fn is_started_anyway(startup: Startup, entry: &SlaveEntry) -> bool
    ensures { result ≡ is_started_anyway startup.0 entry.now }
{
    startup.starts_all_at_once()
        && !startup.leaves_operational_to_application()
        && !startup.starts_no_slave()
        && entry.assignment.is_to_be_booted()
        && !entry.assignment.is_mandatory()
}

/// Whether a slave of this entry is warned of for this.
pub fn slave_is_warned(entry: &SlaveEntry, warning: SlaveWarning) -> bool
    ensures { result ≡ is_warned entry.now warning }
{
    match warning {
        SlaveWarning::Unchecked => is_unchecked(entry),
        SlaveWarning::Unwatched => is_unwatched(entry),
        SlaveWarning::Silent => is_silent(entry),
        SlaveWarning::UnusedBits => has_unused_bits(entry),
    }
}
