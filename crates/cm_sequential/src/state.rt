ghost use Rattle.std.specs.Prelude.{◌≡◌, ◌==◌, false, if◌then◌else◌, List, length};
ghost use Rattle.cm_nmt.specs.Codes.{state_code};
ghost use Rattle.cm_nmt.specs.Listing.{Listing, is_listed};
ghost use Rattle.cm_history.specs.History.{begun_in, is_booted, is_held, own_of, phase_of, session_of, shown, state_of};
ghost use Rattle.cm_history.specs.Machine.{idle, ListsNodes};
ghost use Rattle.cm_history.specs.declared.call.Entry.{Entry};
ghost use Rattle.cm_history.specs.NodeSets.{members_of};
ghost use Rattle.cm_sequential.specs.States.{kept_listing, kept_slave, Shows};
ghost use Rattle.cm_sequential.specs.Changes.{machine, Fits};

use crate::listing_copy::ListingCopy;
use crate::slaves::SlaveTable;
use cm_history::{NodeSet, Phase};
use cm_nmt::{NmtState, NodeId};

/// All of the manager that changes, in a value of its own, which is copied: the phase, the
/// manager's own state, how many sessions were begun, of each slave its state, whether it is booted,
/// and its session, and which slaves are held.
#[derive(Clone, Copy, Debug, PartialEq, Eq)]
pub(crate) struct NetworkState {
    own_id: NodeId,
    pub(crate) phase: Phase,
    pub(crate) own: NmtState,
    pub(crate) begun: u64,
    pub(crate) slaves: SlaveTable,
    pub(crate) held: NodeSet,
}

impl NetworkState {
    /// The state before any call.
    pub(crate) fn idle(listing: &ListingCopy) -> NetworkState
        requires own { is_listed (kept_listing listing.now) (kept_listing listing.now).own ≡ false }
        requires nodes { ListsNodes (kept_listing listing.now) }
        ensures machine { machine result ≡ idle }
        ensures fits { Fits (kept_listing listing.now) result }
    {
        NetworkState {
            own_id: listing.own_id(),
            phase: Phase::Idle,
            own: NmtState::PreOperational,
            begun: 0,
            slaves: SlaveTable::blank(listing),
            held: NodeSet::empty(),
        }
    }

    /// What a read of the node shows: the state of a slave as [`NetworkState::state`] gives it, and
    /// of the manager itself its own state, in every phase.
    pub(crate) fn shown(&self, id: NodeId) -> u8
        ensures value { result ≡ (if id == self.now.own_id then state_code self.now.own
            else (kept_slave self.now.slaves id).state) }
        ensures shows { (net : Listing) (past : List Entry) → Shows self.now net past
            → result ≡ shown net past id }
    {
        if id == self.own_id {
            self.own.code()
        } else {
            self.slaves.state(id)
        }
    }

    /// The state of a slave as object 1F82h reads it: 0 unknown or not listed, 1 missing,
    /// 4 stopped, 5 operational, 127 pre-operational.
    pub(crate) fn state(&self, id: NodeId) -> u8
        ensures { (net : Listing) (past : List Entry) → Shows self.now net past
            → result ≡ state_of net past id }
    {
        self.slaves.state(id)
    }

    /// The manager's own NMT state.
    pub(crate) fn own(&self) -> NmtState
        ensures { (net : Listing) (past : List Entry) → Shows self.now net past
            → result ≡ own_of net past }
    {
        self.own
    }

    /// How far the manager has come with its network.
    pub(crate) fn phase(&self) -> Phase
        ensures { (net : Listing) (past : List Entry) → Shows self.now net past
            → result ≡ phase_of net past }
    {
        self.phase
    }

    /// How many mandatory slaves aren't booted.
    pub(crate) fn open_mandatory(&self) -> u8
        ensures { result ≡ length (members_of self.now.slaves.unbooted) }
    {
        self.slaves.count_open()
    }

    /// Whether the slave is booted.
    pub(crate) fn booted(&self, id: NodeId) -> bool
        ensures { (net : Listing) (past : List Entry) → Shows self.now net past
            → result ≡ is_booted past id }
    {
        self.slaves.booted(id)
    }

    /// The number of the slave's session, if one is open.
    pub(crate) fn session(&self, id: NodeId) -> Option<u64>
        ensures { (net : Listing) (past : List Entry) → Shows self.now net past
            → result ≡ session_of past id }
    {
        self.slaves.session(id)
    }

    /// Whether an operator holds the slave.
    pub(crate) fn held(&self, id: NodeId) -> bool
        ensures { (net : Listing) (past : List Entry) → Shows self.now net past
            → result ≡ is_held past id }
    {
        self.held.contains(id)
    }

    /// How many sessions were begun.
    pub(crate) fn begun(&self) -> u64
        ensures value { result ≡ self.now.begun }
        ensures shows { (net : Listing) (past : List Entry) → Shows self.now net past
            → result ≡ begun_in past }
    {
        self.begun
    }
}
