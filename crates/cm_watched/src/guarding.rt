//! Node guarding of slaves that have no heartbeat time (CiA 301).

ghost use Rattle.std.specs.Prelude.{◌≡◌};
ghost use Rattle.cm_watched.specs.Guarding.{counts_for, guard_by, guard_of, guard_of_entry, has_toggle};
ghost use Rattle.cm_watched.specs.Guarding.{is_asked_again, most_silence_of, most_silence_of_entry};
ghost use Rattle.cm_watched.specs.Guarding.{toggle_by, toggle_by_cause, turned};

use crate::happening::{Happening, Moment, Step};
use crate::schedule::{Cause, cause_by};
use cm_netlist::{Network, SlaveEntry};
use cm_nmt::NodeId;

/// How often a slave of this entry is asked for its state, in ms; 0 where it isn't.
fn guard_of_entry(entry: &SlaveEntry) -> u16
    ensures { result ≡ guard_of_entry entry.now }
{
    if entry.heartbeat_ms == 0 && 0 < entry.assignment.retry_factor() {
        entry.assignment.guard_time_ms()
    } else {
        0
    }
}

/// How often the slave is asked for its state, in ms; 0 where it isn't: it has a heartbeat time, or its guard time or its retry
/// factor is 0, or the node isn't listed (CiA 302-2, slave assignment).
pub fn guard_of(network: &Network, id: NodeId) -> u16
    ensures { result ≡ guard_of network.now id }
{
    match network.entry(id) {
        Some(entry) => guard_of_entry(entry),
        None => 0,
    }
}

/// In which time an error control message of a slave of this entry has to come, in ms; 0 where it isn't watched.
fn most_silence_of_entry(entry: &SlaveEntry) -> u32
    ensures { result ≡ most_silence_of_entry entry.now }
{
    if entry.heartbeat_ms == 0 {
        u32::from(entry.assignment.guard_time_ms()) * u32::from(entry.assignment.retry_factor())
    } else {
        u32::from(entry.heartbeat_ms)
    }
}

/// In which time an error control message of the node has to come, in ms; 0 where it isn't watched.
pub fn most_silence_of(network: &Network, id: NodeId) -> u32
    ensures { result ≡ most_silence_of network.now id }
{
    match network.entry(id) {
        Some(entry) => most_silence_of_entry(entry),
        None => 0,
    }
}

/// When the slave was asked for its state, where the moment is that.
pub(crate) fn guard_by(now: u64, moment: &Moment, id: NodeId) -> Option<u64>
    ensures { result ≡ guard_by now moment.now id }
{
    match moment {
        Moment::Gave(Step::Guard(node)) if *node == id => Some(now),
        _ => None,
    }
}

/// Whether what is booted since some time, and was asked last at another, is to be asked again.
pub fn is_asked_again(guard_ms: u16, now: u64, last: Option<u64>, booted: Option<u64>) -> bool
    ensures { result ≡ is_asked_again guard_ms now last booted }
{
    match (last, booted) {
        (_, None) => false,
        (None, Some(_)) => 0 < guard_ms,
        (Some(last), Some(since)) => {
            0 < guard_ms && (last < since || u64::from(guard_ms) <= now.saturating_sub(last))
        }
    }
}

/// The toggle bit of the slave's next answer, where a cause for a boot sets it.
fn toggle_by_cause(network: &Network, id: NodeId, cause: Option<Cause>) -> Option<bool>
    ensures { result ≡ toggle_by_cause network.now id cause }
{
    match cause {
        Some(Cause::Started) if !network.kept(id) => Some(false),
        Some(Cause::Reset | Cause::Lost) => Some(false),
        _ => None,
    }
}

/// The toggle bit behind a message with this byte.
fn turned(byte: u8) -> bool
    ensures { result ≡ turned byte }
{
    byte % 128 != 0 && byte < 128
}

/// The toggle bit of the slave's next answer, where the moment sets it.
pub(crate) fn toggle_by(network: &Network, moment: &Moment, id: NodeId) -> Option<bool>
    ensures { result ≡ toggle_by network.now moment.now id }
{
    match moment {
        Moment::Happened(Happening::Heard(node, byte)) => {
            if *node == id {
                Some(turned(*byte))
            } else {
                None
            }
        }
        _ => toggle_by_cause(network, id, cause_by(moment, id)),
    }
}

/// Whether a byte has this toggle bit: bit 7.
fn has_toggle(toggle: bool, byte: u8) -> bool
    ensures { result ≡ has_toggle toggle byte }
{
    if toggle { 128 <= byte } else { byte < 128 }
}

/// Whether a message with this byte counts, of a slave that is asked so often and is booted since some time, or isn't.
pub fn counts_for(guard_ms: u16, booted: Option<u64>, toggle: bool, byte: u8) -> bool
    ensures { result ≡ counts_for guard_ms booted toggle byte }
{
    let is_guarded = 0 < guard_ms && booted.is_some();
    byte % 128 == 0 || !is_guarded || has_toggle(toggle, byte)
}
