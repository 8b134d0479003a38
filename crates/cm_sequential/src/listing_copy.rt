#![tactic(auto, unfolding(crate::specs::States::kept_listing))]

ghost use Rattle.std.specs.Prelude.{◌≡◌, ◌<◌, ℕ, None, IsSome, IsTrue, length};
ghost use Rattle.cm_history.specs.NodeSets.{has};
ghost use Rattle.cm_sequential.specs.Listed.{listed_mandatory};
ghost use Rattle.std.specs.List.{slice_index_or};
ghost use Rattle.std.specs.Option.{option_copied};
ghost use Rattle.cm_netlist.specs.Network.{listing};
ghost use Rattle.cm_nmt.specs.Listing.{is_listed, is_mandatory, is_to_be_booted};
ghost use Rattle.cm_netlist.specs.Network as network;

use cm_history::NodeSet;
use cm_netlist::Network;
use cm_nmt::{NodeId, Startup, Terms};

/// The manager's own copy of its network list, which never changes. The terms of node i stand at
/// place i.
#[derive(Clone, Copy, Debug, PartialEq, Eq)]
pub struct ListingCopy {
    own: NodeId,
    startup: Startup,
    boot_time: u32,
    terms: [Option<Terms>; 128],
    mandatory: NodeSet,
    ghost mandatory_ones: { (i : ℕ) → i < 128 → has mandatory i ≡ listed_mandatory terms i },
}

/// What is listed of the node, nothing for a number that is no node-ID.
fn terms_of_node(net: &Network, node: u8) -> Option<Terms>
    ensures { result ≡ network.terms net.now node }
{
    let _own = net.own_id();
    match NodeId::new(node) {
        Some(id) => net.terms(id),
        None => None,
    }
}

/// The terms of every node, that of node i at place i.
fn terms_by_node(net: &Network) -> [Option<Terms>; 128]
    ensures each { (i : ℕ) → i < 128 → slice_index_or result i None ≡ network.terms net.now i }
    ensures sized { length result ≡ 128 }
{
    let mut terms = [None; 128];
    for node in 0..128u8 {
        terms[node as usize] = terms_of_node(net, node);
    }
    terms
}

/// The mandatory slaves.
fn mandatory_slaves(net: &Network) -> NodeSet
    ensures { (i : ℕ) → i < 128 → has result i ≡ is_mandatory (listing net.now) i }
{
    let _own = net.own_id();
    let mut slaves = NodeSet::empty();
    for node in 1..128u8 {
        if let Some(id) = NodeId::new(node)
            && net.mandatory(id)
        {
            slaves.insert(id);
        }
    }
    slaves
}

impl ListingCopy {
    ghost use Rattle.cm_sequential.specs.States.{kept_listing};

    /// The copy of a network list.
    pub fn of(net: &Network) -> ListingCopy
        ensures value { kept_listing result ≡ listing net.now }
        ensures kept { network.IsNetwork net.now }
    {
        ListingCopy {
            own: net.own_id(),
            startup: net.startup(),
            boot_time: net.boot_time(),
            terms: terms_by_node(net),
            mandatory: mandatory_slaves(net),
        }
    }

    /// The mandatory slaves.
    pub fn mandatory(&self) -> NodeSet
        ensures { (i : ℕ) → i < 128 → has result i ≡ is_mandatory (kept_listing self.now) i }
    {
        self.mandatory
    }

    /// The manager's own node-ID.
    pub fn own_id(&self) -> NodeId
        ensures { result ≡ (kept_listing self.now).own }
    {
        self.own
    }

    /// 1F80h.
    #[inline(always)]
    pub fn startup(&self) -> Startup
        ensures { result.0 ≡ (kept_listing self.now).startup }
    {
        self.startup
    }

    /// 1F89h, in ms.
    pub fn boot_time(&self) -> u32
        ensures { result ≡ (kept_listing self.now).boot_time }
    {
        self.boot_time
    }

    /// What is listed of the node.
    #[inline(always)]
    pub fn terms(&self, id: NodeId) -> Option<&Terms>
        ensures { option_copied result ≡ (kept_listing self.now).terms id }
    {
        self.terms[id.get() as usize].as_ref()
    }

    /// Whether the node is listed; false for a number that is no node-ID.
    #[inline(always)]
    pub fn is_listed(&self, node: u8) -> bool
        ensures value { result ≡ is_listed (kept_listing self.now) node }
        ensures small { IsTrue result → node < 128 }
    {
        node < 128 && self.terms[node as usize].is_some()
    }

    /// Whether the node is listed and mandatory: without it the network doesn't become ready (CiA 302-2, 1F81h bit 3).
    pub fn is_mandatory(&self, id: NodeId) -> bool
        ensures { result ≡ is_mandatory (kept_listing self.now) id }
    {
        self.mandatory.contains(id)
    }

    /// Whether the node is listed, and its boot configures and starts it (CiA 302-2, 1F81h bit 2).
    pub fn is_to_be_booted(&self, id: NodeId) -> bool
        ensures { result ≡ is_to_be_booted (kept_listing self.now) id }
    {
        match self.terms(id) {
            Some(terms) => terms.assignment.is_to_be_booted(),
            None => false,
        }
    }
}
