//! The network list of the devices that were found on a bus, read back before it is given.

ghost use Rattle.std.specs.Prelude.{◌≡◌, All, IfOk, IsTrue, Some, map};
ghost use Rattle.cm_netlist.specs.Network.{terms};
ghost use Rattle.canboot_scan.specs.Scans.{IsListOfFound, ListsFound, listed_as};

use crate::found::Found;
use crate::list_text::put_found;
use cm_netlist::{CheckFault, Network, list_of};
use cm_nmt::{Assignment, NodeId, Terms};
use std::alloc::Global;

/// Why no list is given.
#[derive(Clone, Copy)]
pub(crate) enum ScanFault {
    /// What was written isn't the list of just these devices, where it is read back.
    NoList,
    /// Memory was refused.
    OutOfMemory,
}

/// What is listed of a device.
fn listed_as(found: &Found) -> Terms
    ensures { result ≡ listed_as found.now }
{
    Terms {
        assignment: Assignment(5),
        device_type: found.device_type,
        vendor: found.vendor,
        product: found.product,
        revision: found.revision,
        serial: found.serial,
        heartbeat_ms: 0,
        date: 0,
        time: 0,
        writes: 0,
    }
}

/// Whether these node-IDs are those of the devices.
fn are_ids(ids: &[NodeId], found: &[Found]) -> bool
    ensures { IsTrue result → ids.now ≡ map (λ f. f.id) found.now }
{
    if ids.len() != found.len() {
        return false;
    }
    for at in 0..ids.len() {
        if ids[at] != found[at].id {
            return false;
        }
    }
    true
}

/// Whether the device is listed as it was found.
fn is_listed(network: &Network, found: &Found) -> bool
    ensures { IsTrue result → terms network.now found.now.id ≡ Some (listed_as found.now) }
{
    match network.terms(found.id) {
        Some(terms) => terms == listed_as(found),
        None => false,
    }
}

/// Whether each device is listed as it was found.
fn are_listed(network: &Network, found: &[Found]) -> bool
    ensures { IsTrue result → All (λ f. terms network.now f.id ≡ Some (listed_as f)) found.now }
{
    for one in found {
        if !is_listed(network, one) {
            return false;
        }
    }
    true
}

/// Whether just these devices are listed, each as it was found.
fn lists(network: &Network, own: NodeId, found: &[Found]) -> bool
    ensures { IsTrue result → ListsFound network.now own found.now }
{
    network.own_id() == own
        && are_ids(network.listed_ids().as_slice(), found)
        && are_listed(network, found)
}

/// Whether the text is a network list of just these devices.
fn is_list_of(alloc: Global, text: &[u8], own: NodeId, found: &[Found]) -> Result<bool, ScanFault>
    ensures { IfOk result (λ is. IsTrue is → IsListOfFound text.now own found.now) }
{
    match list_of(alloc, text) {
        Ok(network) => Ok(lists(&network, own, found)),
        Err(CheckFault::List(_)) => Ok(false),
        Err(CheckFault::Input(_)) => Err(ScanFault::OutOfMemory),
    }
}

/// The network list in TOML of the devices that were found, in rising order of their node-IDs. Comments have each one's name, where it is
/// known, and on demand what its device profile is about. The text is read back before it is given.
pub(crate) fn list_found(
    alloc: Global,
    own: NodeId,
    found: &[Found],
    names: &[Vec<u8>],
    with_profiles: bool,
) -> Result<Vec<u8>, ScanFault>
    ensures { IfOk result (λ text. IsListOfFound text.items own found.now) }
{
    let mut text = Vec::new(alloc);
    if put_found(own, found, names, with_profiles, &mut text).is_err() {
        return Err(ScanFault::OutOfMemory);
    }
    if is_list_of(alloc, text.as_slice(), own, found)? {
        Ok(text)
    } else {
        Err(ScanFault::NoList)
    }
}
