//! Whether the text of a slave is read back as that slave.

ghost use Rattle.std.specs.Prelude.{◌≡◌, [], ◌∷◌, ◌++◌, IfOk, IsTrue};
ghost use Rattle.cm_netlist.specs.ReadBack.{IsListOf, ListsOnly, manager_text};

use crate::entry::SlaveEntry;
use crate::list_reading::{CheckFault, list_of};
use crate::network::Network;
use cm_nmt::NodeId;
use std::alloc::{AllocError, Global};

/// The lines of a manager that isn't the slave itself.
fn manager_lines(slave: NodeId) -> &'static str
    ensures { result.now ≡ manager_text slave }
{
    if slave.get() == 1 {
        "own = 2\nstartup = 1\n"
    } else {
        "own = 1\nstartup = 1\n"
    }
}

/// Whether both entries are the same.
fn is_same_entry(one: &SlaveEntry, other: &SlaveEntry) -> bool
    ensures { IsTrue result → one.now ≡ other.now }
{
    one == other
}

/// Whether this node-ID alone is among them.
fn is_only(ids: &[NodeId], id: NodeId) -> bool
    ensures { IsTrue result → ids.now ≡ id ∷ [] }
{
    ids.len() == 1 && ids[0] == id
}

/// Whether just this slave is listed.
fn lists_only(network: &Network, id: NodeId, entry: &SlaveEntry) -> bool
    ensures { IsTrue result → ListsOnly network.now id entry.now }
{
    if !is_only(network.listed_ids().as_slice(), id) {
        return false;
    }
    match network.entry(id) {
        Some(listed) => is_same_entry(listed, entry),
        None => false,
    }
}

/// Whether the text is a network list of just this slave.
fn is_list_of(
    alloc: Global,
    text: &[u8],
    id: NodeId,
    entry: &SlaveEntry,
) -> Result<bool, AllocError>
    ensures { IfOk result (λ is. IsTrue is → IsListOf text.now id entry.now) }
{
    match list_of(alloc, text) {
        Ok(network) => Ok(lists_only(&network, id, entry)),
        Err(CheckFault::Input(_)) => Err(AllocError),
        Err(CheckFault::List(_)) => Ok(false),
    }
}

/// Whether a text, behind the lines of a manager, is read as a network list of just this slave, with this entry. It fails only where memory
/// is refused.
pub fn is_read_back(
    alloc: Global,
    text: &[u8],
    id: NodeId,
    entry: &SlaveEntry,
) -> Result<bool, AllocError>
    ensures { IfOk result (λ is. IsTrue is → IsListOf (manager_text id ++ text.now) id entry.now) }
{
    let mut list = Vec::from_slice(alloc, manager_lines(id).as_bytes())?;
    list.extend_from_slice(text)?;
    is_list_of(alloc, list.as_slice(), id, entry)
}
