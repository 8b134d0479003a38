ghost use Rattle.std.specs.Prelude.{◌≡◌, ◌==◌, false, not, ◌&&◌, ◌||◌, ℕ, filter, length};
ghost use Rattle.std.specs.Int.{bit_at};
ghost use Rattle.cm_nmt.specs.Listing.{node_ids};

use cm_nmt::NodeId;

/// A set of node-IDs: bit i for node i, and how many there are.
#[derive(Clone, Copy, Debug, PartialEq, Eq)]
pub struct NodeSet {
    members: u128,
    number: u8,
    ghost counted: { number ≡ length (filter (λ i. bit_at members i == 1) node_ids) },
}

impl NodeSet {
    ghost use Rattle.cm_history.specs.History.{is_empty};
    ghost use Rattle.cm_history.specs.NodeSets.{has, members_of};

    /// The set of no node.
    pub const fn empty() -> NodeSet
        ensures { (i : ℕ) → has result i ≡ false }
    {
        NodeSet {
            members: 0,
            number: 0,
        }
    }

    /// Whether the node is in the set.
    #[inline(always)]
    pub fn contains(&self, id: NodeId) -> bool
        ensures { result ≡ has self.now id }
    {
        (self.members >> id.get()) & 1 == 1
    }

    /// Puts the node into the set.
    #[inline(always)]
    pub fn insert(&mut self, id: NodeId)
        ensures { (i : ℕ) → has self.new i ≡ (id == i || has self.old i) }
    {
        if !self.contains(id) {
            self.members |= 1 << id.get();
            self.number += 1;
        }
    }

    /// Takes the node out of the set.
    #[inline(always)]
    pub fn remove(&mut self, id: NodeId)
        ensures { (i : ℕ) → has self.new i ≡ (not (id == i) && has self.old i) }
    {
        let _members = self.members;
        if self.contains(id) {
            self.members &= !(1 << id.get());
            self.number -= 1;
        }
    }

    /// How many nodes there are in the set.
    #[inline(always)]
    pub fn len(&self) -> u8
        ensures { result ≡ length (members_of self.now) }
    {
        self.number
    }

    /// Whether no node is in the set.
    #[inline(always)]
    pub fn is_empty(&self) -> bool
        ensures { result ≡ is_empty (members_of self.now) }
    {
        self.number == 0
    }

    /// Whether no other node than this one is in the set.
    #[inline(always)]
    pub fn is_empty_without(&self, id: NodeId) -> bool
        ensures { result ≡ is_empty (filter (λ j. not (id == j)) (members_of self.now)) }
    {
        let _number = id.get();
        self.number == u8::from(self.contains(id))
    }
}
