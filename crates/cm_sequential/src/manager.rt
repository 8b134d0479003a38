ghost use Rattle.std.specs.Prelude.{◌≡◌, ℕ, List, [], ◌∷◌, ◌^◌, ◌<◌, ◌≤◌, ◌-◌, ◌+◌, length};
ghost use Rattle.cm_netlist.specs.Network.{Network as AnyNetwork, listing};
ghost use Rattle.cm_history.specs.History.{begun_in, state_of, own_of, phase_of, is_booted, is_held, session_of, open_of, shown};
ghost use Rattle.cm_history.specs.Answering.{answer_of};
ghost use Rattle.cm_history.specs.declared.call.Entry.{Entry};
ghost use Rattle.cm_sequential.specs.States.{kept_listing};
ghost use Rattle.cm_sequential.specs.Changes.{Fits};

use crate::listing_copy::ListingCopy;
use crate::state::NetworkState;
use cm_history::{Call, Orders, Phase, Reply};
use cm_netlist::Network;
use cm_nmt::{NmtState, NodeId};

/// The manager of one network: its copy of the network list, which never changes, and its state.
#[derive(Clone, Copy, Debug, PartialEq, Eq)]
pub struct Manager {
    pub(crate) listing: ListingCopy,
    pub(crate) state: NetworkState,
    ghost fits: { Fits (kept_listing listing) state },
}

impl Manager {
    ghost use Rattle.cm_sequential.specs.Standing.{IsAnswer, Stands, sessions_begun};

    /// The manager of this network before any call: phase idle, own state pre-operational, every
    /// state unknown, nothing booted, no session, nothing held.
    pub fn new(net: &Network) -> Manager
        ensures stands { Stands result net.now [] }
        ensures begun { sessions_begun result ≡ 0 }
    {
        let listing = ListingCopy::of(net);
        Manager {
            listing,
            state: NetworkState::idle(&listing),
        }
    }

    /// What [`Manager::apply`] would answer to the call; nothing changes.
    #[inline(always)]
    pub fn answer(&self, call: &Call) -> (Reply, Orders)
        requires { sessions_begun self.now < 2 ^ 64 - 1 }
        ensures own { IsAnswer self.now call.now result.0 result.1 }
        ensures answer { (net : AnyNetwork) (past : List Entry) → Stands self.now net past
            → (result.0, result.1) ≡ answer_of (listing net) past call.now }
    {
        self.answer_by_tables(call)
    }

    /// Carries out a call whose answer, by [`Manager::answer`], is this one; nothing is judged
    /// again. A refused call changes nothing.
    #[inline(always)]
    pub fn carry_out(&mut self, call: &Call, reply: Reply, orders: &Orders)
        requires few { sessions_begun self.old < 2 ^ 64 - 1 }
        requires answered { IsAnswer self.old call.now reply orders.now }
        ensures stands { (net : AnyNetwork) (past : List Entry) (seat : ℕ) → Stands self.old net past
            → Stands self.new net
            (record { seat = seat; call = call.now; reply = reply; orders = orders.now } ∷ past) }
        ensures refused { (number : ℕ) → reply ≡ Reply.Refused number → self.new ≡ self.old }
        ensures begun { sessions_begun self.new ≤ sessions_begun self.old + 1 }
    {
        if reply.is_granted() {
            self.state.carry_out(&self.listing, call, reply, orders);
        }
    }

    /// Answers a call. Where the manager stands for a history, the answer is that of the
    /// definitions over the history, and the manager then stands for the history with this call.
    /// A refused call changes nothing.
    #[inline(always)]
    pub fn apply(&mut self, call: Call) -> (Reply, Orders)
        requires { sessions_begun self.old < 2 ^ 64 - 1 }
        ensures answer { (net : AnyNetwork) (past : List Entry) → Stands self.old net past
            → (result.0, result.1) ≡ answer_of (listing net) past call }
        ensures stands { (net : AnyNetwork) (past : List Entry) (seat : ℕ) → Stands self.old net past
            → Stands self.new net
            (record { seat = seat; call = call; reply = result.0; orders = result.1 } ∷ past) }
        ensures refused { (number : ℕ) → result.0 ≡ Reply.Refused number → self.new ≡ self.old }
        ensures begun { sessions_begun self.new ≤ sessions_begun self.old + 1 }
    {
        let (reply, orders) = self.answer(&call);
        self.carry_out(&call, reply, &orders);
        (reply, orders)
    }

    /// What a read of the node shows, in every phase: the state of a slave as [`Manager::state`]
    /// gives it, and of the manager itself its own state.
    pub fn shown(&self, id: NodeId) -> u8
        ensures { (net : AnyNetwork) (past : List Entry) → Stands self.now net past
            → result ≡ shown (listing net) past id }
    {
        self.state.shown(id)
    }

    /// The state of a slave as object 1F82h reads it: 0 unknown or not listed, 1 missing,
    /// 4 stopped, 5 operational, 127 pre-operational.
    pub fn state(&self, id: NodeId) -> u8
        ensures { (net : AnyNetwork) (past : List Entry) → Stands self.now net past
            → result ≡ state_of (listing net) past id }
    {
        self.state.state(id)
    }

    /// The manager's own NMT state.
    pub fn own(&self) -> NmtState
        ensures { (net : AnyNetwork) (past : List Entry) → Stands self.now net past
            → result ≡ own_of (listing net) past }
    {
        self.state.own()
    }

    /// How far the manager has come with its network.
    pub fn phase(&self) -> Phase
        ensures { (net : AnyNetwork) (past : List Entry) → Stands self.now net past
            → result ≡ phase_of (listing net) past }
    {
        self.state.phase()
    }

    /// How many mandatory slaves aren't booted.
    #[tactic(auto, using(crate::proofs::Standing::open_shown))]
    pub fn open_mandatory(&self) -> u8
        ensures { (net : AnyNetwork) (past : List Entry) → Stands self.now net past
            → result ≡ length (open_of (listing net) past) }
    {
        self.state.open_mandatory()
    }

    /// Whether the slave is booted.
    pub fn booted(&self, id: NodeId) -> bool
        ensures { (net : AnyNetwork) (past : List Entry) → Stands self.now net past
            → result ≡ is_booted past id }
    {
        self.state.booted(id)
    }

    /// The number of the slave's session, if one is open.
    pub fn session(&self, id: NodeId) -> Option<u64>
        ensures { (net : AnyNetwork) (past : List Entry) → Stands self.now net past
            → result ≡ session_of past id }
    {
        self.state.session(id)
    }

    /// Whether an operator holds the slave, so that its boot can't begin. A hold lasts until a release,
    /// over starts of the network, signals, losses and resets.
    pub fn held(&self, id: NodeId) -> bool
        ensures { (net : AnyNetwork) (past : List Entry) → Stands self.now net past
            → result ≡ is_held past id }
    {
        self.state.held(id)
    }

    /// How many sessions were begun.
    pub fn begun(&self) -> u64
        ensures value { result ≡ sessions_begun self.now }
        ensures stands { (net : AnyNetwork) (past : List Entry) → Stands self.now net past
            → result ≡ begun_in past }
    {
        self.state.begun()
    }
}
