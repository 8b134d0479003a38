//! The devices that were found on a bus, compared with a network list.

ghost use Rattle.std.specs.Prelude.{◌≡◌, ◌≢◌, [], All, Contains, IfOk, IfSome, IsTrue, Some};
ghost use Rattle.cm_netlist.specs.Network.{is_listed, listed_ids, terms};
ghost use Rattle.canboot_scan.specs.Compared.{HasExpected, IsAsListed, IsFoundAsListed};

use crate::difference::Difference;
use crate::found::Found;
use cm_netlist::Network;
use cm_nmt::{NodeId, Terms};
use cm_telling::Compared;
use std::alloc::{AllocError, Global};

/// The device that was found at this node, if there is one.
fn find(found: &[Found], id: NodeId) -> Option<Found>
    ensures { IfSome result (λ f. Contains found.now f × (f.id ≡ id)) }
{
    for one in found {
        if one.id == id {
            return Some(*one);
        }
    }
    None
}

/// Puts down that a value isn't the expected one, where it isn't.
fn compare_value(
    id: NodeId,
    value: Compared,
    expected: u32,
    found: u32,
    differences: &mut Vec<Difference>,
) -> Result<(), AllocError>
    ensures { IfOk result (λ _. differences.new.items ≡ []
        → (differences.old.items ≡ []) × (expected ≢ 0 → found ≡ expected)) }
{
    if expected != 0 && found != expected {
        differences.push(Difference::Other {
            id,
            value,
            expected,
            found,
        })?;
    }
    Ok(())
}

/// Puts down which values of a device aren't the expected ones.
fn compare_device(
    terms: &Terms,
    found: &Found,
    differences: &mut Vec<Difference>,
) -> Result<(), AllocError>
    ensures { IfOk result (λ _. differences.new.items ≡ []
        → (differences.old.items ≡ []) × HasExpected terms.now found.now) }
{
    let id = found.id;
    compare_value(
        id,
        Compared::DeviceType,
        terms.device_type,
        found.device_type,
        differences,
    )?;
    compare_value(
        id,
        Compared::VendorId,
        terms.vendor,
        found.vendor,
        differences,
    )?;
    compare_value(
        id,
        Compared::ProductCode,
        terms.product,
        found.product,
        differences,
    )?;
    compare_value(
        id,
        Compared::RevisionNumber,
        terms.revision,
        found.revision,
        differences,
    )?;
    compare_value(
        id,
        Compared::SerialNumber,
        terms.serial,
        found.serial,
        differences,
    )
}

/// Puts down how what was found at a listed node differs from what is listed.
fn compare_slave(
    network: &Network,
    found: &[Found],
    id: NodeId,
    differences: &mut Vec<Difference>,
) -> Result<(), AllocError>
    ensures { IfOk result (λ _. differences.new.items ≡ []
        → (differences.old.items ≡ []) × IsFoundAsListed network.now found.now id) }
{
    match (network.terms(id), find(found, id)) {
        (Some(terms), Some(device)) => compare_device(&terms, &device, differences),
        _ => {
            differences.push(Difference::Missing(id))?;
            Ok(())
        }
    }
}

/// Puts down how what was found at the listed nodes differs from what is listed.
fn compare_slaves(
    network: &Network,
    found: &[Found],
    ids: &[NodeId],
    differences: &mut Vec<Difference>,
) -> Result<(), AllocError>
    ensures { IfOk result (λ _. differences.new.items ≡ []
        → (differences.old.items ≡ []) × All (IsFoundAsListed network.now found.now) ids.now) }
{
    for id in ids {
        compare_slave(network, found, *id, differences)?;
    }
    Ok(())
}

/// Puts down that a device isn't listed, where it isn't.
fn compare_node(
    network: &Network,
    found: &Found,
    differences: &mut Vec<Difference>,
) -> Result<(), AllocError>
    ensures { IfOk result (λ _. differences.new.items ≡ []
        → (differences.old.items ≡ []) × IsTrue (is_listed network.now found.now.id)) }
{
    if !network.listed(found.id) {
        differences.push(Difference::Unknown(*found))?;
    }
    Ok(())
}

/// Puts down the devices that aren't listed.
fn compare_unlisted(
    network: &Network,
    found: &[Found],
    differences: &mut Vec<Difference>,
) -> Result<(), AllocError>
    ensures { IfOk result (λ _. differences.new.items ≡ []
        → (differences.old.items ≡ []) × All (λ f. IsTrue (is_listed network.now f.id)) found.now) }
{
    for one in found {
        compare_node(network, one, differences)?;
    }
    Ok(())
}

/// How the devices that were found differ from those that are listed: for each listed slave in rising order what it lacks, and then the
/// devices that aren't listed. Nothing, only where each listed slave was found with its expected values, and no other device.
pub fn compare(
    alloc: Global,
    network: &Network,
    found: &[Found],
) -> Result<Vec<Difference>, AllocError>
    ensures { IfOk result (λ ds. ds.items ≡ [] → IsAsListed network.now found.now) }
{
    let mut differences = Vec::new(alloc);
    let ids = network.listed_ids();
    compare_slaves(network, found, ids.as_slice(), &mut differences)?;
    compare_unlisted(network, found, &mut differences)?;
    Ok(differences)
}
