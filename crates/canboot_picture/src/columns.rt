//! The managers of columns.

ghost use Rattle.std.specs.Prelude.{◌≡◌, ◌<◌, ◌≤◌, IfOk, length, reverse};
ghost use Rattle.cm_history.specs.Legal.{IsLegal};
ghost use Rattle.cm_netlist.specs.Network.{listing};
ghost use Rattle.canboot_picture.specs.Columns.{AreColumns};

use cm_history::Entry;
use cm_netlist::Network;
use cm_sequential::{CompactReplay, Manager, push_or};
use std::alloc::{AllocError, Global};

/// A manager for each column, which stands for the history up to the column's end: `width` entries stand in each, and in the last
/// one those that are left. The entries are a legal history, the oldest first.
pub(crate) fn columns_of(
    alloc: Global,
    network: &Network,
    entries: &[Entry],
    width: usize,
) -> Result<Vec<Manager>, AllocError>
    requires wide { 0 < width }
    requires legal { IsLegal (listing network.now) (reverse entries.now) }
    ensures columns { IfOk result (λ m. AreColumns network.now entries.now width m.items) }
{
    let mut managers: Vec<Manager> = Vec::new(alloc);
    let mut replay = CompactReplay::new(alloc, network);
    let mut from = 0;
    while from < entries.len() {
        let to = from + width.min(entries.len() - from);
        if let Err(_) = replay.take_all(&entries[from..to]) {
            return Err(AllocError);
        }
        push_or(&mut managers, *replay.manager(), AllocError)?;
        from = to;
    }
    Ok(managers)
}
