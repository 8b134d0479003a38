ghost use Rattle.std.specs.Prelude.{◌≡◌, ◌≤◌, ◌<◌, ◌==◌, not, ℕ, Some, length, filter, if◌then◌else◌};
ghost use Rattle.std.specs.List.{slice_index_or};
ghost use Rattle.cm_nmt.specs.Codes.{state_left};
ghost use Rattle.cm_nmt.specs.Listing.{Listing};
ghost use Rattle.cm_history.specs.Answering.{blank_slave};
ghost use Rattle.cm_history.specs.Machine.{obeyed};
ghost use Rattle.cm_history.specs.History.{is_empty};
ghost use Rattle.cm_history.specs.Orders.{is_reset};
ghost use Rattle.cm_history.specs.NodeSets.{members_of};
ghost use Rattle.cm_sequential.specs.States.{kept_listing, kept_slave, session_numbered};
ghost use Rattle.cm_sequential.specs.Changes.{at_node, boot_ended, cleared, in_session, in_state, obeying, obeying_alone, IsCounted};

use crate::listing_copy::ListingCopy;
use cm_history::{NodeSet, UNKNOWN, obeyed};
use cm_nmt::{Command, NodeId};

/// What the manager keeps of each node, that of node i at place i.
#[derive(Clone, Copy, Debug, PartialEq, Eq)]
pub struct SlaveTable {
    /// As object 1F82h reads them.
    states: [u8; 128],
    /// The numbers of the sessions that are open, 0 where none is.
    sessions: [u64; 128],
    booted: NodeSet,
    /// The mandatory slaves that aren't booted.
    unbooted: NodeSet,
}

/// Every node's state after a command to all nodes.
fn obey_all(states: &mut [u8; 128], command: Command)
    ensures { (i : ℕ) → i < 128
        → slice_index_or states.new i 0 ≡ obeyed (Some command) (slice_index_or states.old i 0) }
{
    for state in states.iter_mut() {
        *state = obeyed(Some(command), *state);
    }
}

/// Whether the command is one of the two resets.
#[inline(always)]
pub(crate) fn is_reset(command: Command) -> bool
    ensures { result ≡ is_reset command }
{
    matches!(command, Command::ResetNode | Command::ResetComm)
}

impl SlaveTable {
    /// The table before any call.
    pub fn blank(listing: &ListingCopy) -> SlaveTable
        ensures slaves { (i : ℕ) → i < 128 → kept_slave result i ≡ blank_slave }
        ensures counted { IsCounted (kept_listing listing.now) result }
    {
        SlaveTable {
            states: [UNKNOWN; 128],
            sessions: [0; 128],
            booted: NodeSet::empty(),
            unbooted: listing.mandatory(),
        }
    }

    /// The last known NMT state of the node, as it is on the wire (CiA 301), or `UNKNOWN` or `MISSING`.
    #[inline(always)]
    pub fn state(&self, id: NodeId) -> u8
        ensures { result ≡ (kept_slave self.now id).state }
    {
        self.states[id.get() as usize]
    }

    /// Whether the node is booted: a report with status Ok or L made it so, and nothing cleared it since.
    #[inline(always)]
    pub fn booted(&self, id: NodeId) -> bool
        ensures { result ≡ (kept_slave self.now id).booted }
    {
        self.booted.contains(id)
    }

    /// The number of the node's boot that isn't reported yet, from 1; `None` where there is none.
    #[inline(always)]
    pub fn session(&self, id: NodeId) -> Option<u64>
        ensures { result ≡ (kept_slave self.now id).session }
    {
        match self.sessions[id.get() as usize] {
            0 => None,
            number => Some(number),
        }
    }

    /// How many mandatory slaves aren't booted.
    pub fn count_open(&self) -> u8
        ensures { result ≡ length (members_of self.now.unbooted) }
    {
        self.unbooted.len()
    }

    /// Whether every mandatory slave is booted.
    #[inline(always)]
    pub fn none_open(&self) -> bool
        ensures { result ≡ is_empty (members_of self.now.unbooted) }
    {
        self.unbooted.is_empty()
    }

    /// Whether every mandatory slave but this one is booted.
    #[inline(always)]
    pub fn none_open_but(&self, id: NodeId) -> bool
        ensures { result
            ≡ is_empty (filter (λ j. not (id == j)) (members_of self.now.unbooted)) }
    {
        self.unbooted.is_empty_without(id)
    }

    /// The slave is in this state.
    #[inline(always)]
    pub fn set_state(&mut self, id: NodeId, state: u8)
        ensures slaves { (i : ℕ) → i < 128 → kept_slave self.new i
            ≡ at_node id (in_state state) (kept_slave self.old) i }
        ensures counted { (net : Listing) → IsCounted net self.old → IsCounted net self.new }
    {
        self.states[id.get() as usize] = state;
    }

    /// The boot of the slave begins.
    #[inline(always)]
    pub fn begin(&mut self, id: NodeId, number: u64)
        requires { 1 ≤ number }
        ensures slaves { (i : ℕ) → i < 128 → kept_slave self.new i
            ≡ at_node id (in_session number) (kept_slave self.old) i }
        ensures counted { (net : Listing) → IsCounted net self.old → IsCounted net self.new }
    {
        self.sessions[id.get() as usize] = number;
    }

    /// The boot of the slave ended; it leaves the slave booted, where it was good, and in this state.
    #[inline(always)]
    pub fn end_boot(&mut self, id: NodeId, good: bool, state: u8)
        ensures slaves { (i : ℕ) → i < 128 → kept_slave self.new i
            ≡ at_node id (boot_ended good state) (kept_slave self.old) i }
        ensures counted { (net : Listing) → IsCounted net self.old → IsCounted net self.new }
    {
        let place = id.get() as usize;
        self.states[place] = state;
        self.sessions[place] = 0;
        if good {
            self.booted.insert(id);
            self.unbooted.remove(id);
        }
    }

    /// The slave isn't booted, has no session, and is in this state.
    #[inline(always)]
    pub fn clear(&mut self, listing: &ListingCopy, id: NodeId, state: u8)
        ensures slaves { (i : ℕ) → i < 128 → kept_slave self.new i
            ≡ at_node id (λ slave. in_state state (cleared slave)) (kept_slave self.old) i }
        ensures counted { IsCounted (kept_listing listing.now) self.old
            → IsCounted (kept_listing listing.now) self.new }
    {
        let place = id.get() as usize;
        self.states[place] = state;
        self.sessions[place] = 0;
        self.booted.remove(id);
        if listing.is_mandatory(id) {
            self.unbooted.insert(id);
        }
    }

    /// No slave is booted, and none has a session, where `all` says so.
    pub fn clear_all(&mut self, listing: &ListingCopy, all: bool)
        ensures slaves { (i : ℕ) → i < 128 → kept_slave self.new i
            ≡ (if all then cleared (kept_slave self.old i) else kept_slave self.old i) }
        ensures counted { IsCounted (kept_listing listing.now) self.old
            → IsCounted (kept_listing listing.now) self.new }
    {
        if all {
            self.sessions = [0; 128];
            self.booted = NodeSet::empty();
            self.unbooted = listing.mandatory();
        }
    }

    /// The slave does what a command to it alone makes it do.
    #[inline(always)]
    pub fn obey_alone(&mut self, listing: &ListingCopy, id: NodeId, command: Command)
        ensures slaves { (i : ℕ) → i < 128 → kept_slave self.new i
            ≡ at_node id (obeying_alone command) (kept_slave self.old) i }
        ensures counted { IsCounted (kept_listing listing.now) self.old
            → IsCounted (kept_listing listing.now) self.new }
    {
        if is_reset(command) {
            self.clear(listing, id, command.state_left());
        } else {
            self.set_state(id, command.state_left());
        }
    }

    /// Every slave does what a command to all makes it do, where there is one.
    #[inline(always)]
    pub fn obey(&mut self, command: Option<Command>)
        ensures slaves { (i : ℕ) → i < 128 → kept_slave self.new i
            ≡ obeying command (kept_slave self.old i) }
        ensures counted { (net : Listing) → IsCounted net self.old → IsCounted net self.new }
    {
        if let Some(command) = command {
            obey_all(&mut self.states, command);
        }
    }
}
