//! The marks of a picture.

use crate::drawing::Drawing;
use crate::mark::Mark;
use crate::scale::Scale;
use cm_history::Entry;
use cm_netlist::Network;
use cm_sequential::Manager;
use std::alloc::{AllocError, Global};

/// The marks of a history, whose entries are given with the oldest first, beside the columns for which these managers stand: boots, frames,
/// holds and losses of the lanes; where the network is ready or halted, across all of them; the numbers of entries along the top, and the
/// legend. In a place in which several of one kind would stand the worst one does. It fails only where memory is refused; nothing is proved
/// of where they stand.
pub(crate) fn marks_of(
    alloc: Global,
    network: &Network,
    entries: &[Entry],
    scale: Scale,
    managers: &[Manager],
) -> Result<Vec<Mark>, AllocError> {
    let mut drawing = Drawing::new(alloc, network, scale);
    drawing.put_places(u32::try_from(managers.len()).unwrap_or(u32::MAX))?;
    drawing.put_entries(network, entries)?;
    drawing.put_phases(managers)?;
    drawing.put_legend()?;
    Ok(drawing.marks)
}
