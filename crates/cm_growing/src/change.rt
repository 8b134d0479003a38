//! What the next entry of a history changes of what is shown.
ghost use Rattle.std.specs.Prelude.{◌≡◌, List, Some, if◌then◌else◌, reverse, IsFalse};
ghost use Rattle.cm_nmt.specs.Listing.{Listing};
ghost use Rattle.cm_history.specs.History.{is_start_by, shown};
ghost use Rattle.cm_history.specs.Machine.{obeyed};
ghost use Rattle.cm_history.specs.Orders.{to_all};
ghost use Rattle.cm_history.specs.declared.call.Entry.{Entry as AnyEntry};
ghost use Rattle.cm_growing.specs.Changes.{IsChange, LeavesState, Stays};

use cm_history::{Call, Entry, UNKNOWN, obeyed};
use cm_nmt::NodeId;

/// The entry that is next after so many, and what is shown then of the manager itself and of one node
/// more; each other node is changed by the orders alone.
#[derive(Drop)]
pub(crate) struct Change<'e> {
    pub entry: &'e Entry,
    pub count: u64,
    pub node: NodeId,
    pub own: NodeId,
    pub value: u8,
    pub own_value: u8,
}

/// A granted start of the network, which forgets each slave's state.
#[inline(always)]
fn is_start(entry: &Entry) -> bool
    ensures { result ≡ is_start_by entry.now.call entry.now.reply }
{
    matches!(entry.call, Call::StartNetwork) && entry.reply.is_granted()
}

/// The state of a node that the entry doesn't set by itself.
fn left(entry: &Entry, state: u8) -> u8
    ensures { result ≡ obeyed (to_all entry.now.orders)
        (if is_start_by entry.now.call entry.now.reply then 0 else state) }
{
    let state = if is_start(entry) { UNKNOWN } else { state };
    obeyed(entry.orders.to_all(), state)
}

impl<'e> Change<'e> {
    /// Whether it may change what is shown of more than two nodes.
    #[inline(always)]
    pub(crate) fn is_of_all(&self) -> bool
        ensures { (net : Listing) (before : List AnyEntry)
            → IsChange net before self.now.entry.now self.now.node self.now.value self.now.own self.now.own_value
            → IsFalse result → Stays net before self.now.entry.now self.now.node self.now.own }
    {
        is_start(self.entry) || self.entry.orders.to_all().is_some()
    }

    /// What is shown of a node after the entry, by what was shown of it before.
    #[inline(always)]
    pub(crate) fn state(&self, id: NodeId, state: u8) -> u8
        ensures { LeavesState self.now.entry.now self.now.node self.now.value self.now.own
            self.now.own_value id state result }
    {
        if id == self.own {
            self.own_value
        } else if id == self.node {
            self.value
        } else {
            left(self.entry, state)
        }
    }
}
