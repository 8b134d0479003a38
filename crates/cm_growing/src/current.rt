//! Of which node the first word of a row has the state.
ghost use Rattle.std.specs.Prelude.{◌≡◌, ◌<◌, ◌+◌, ◌↔◌, None, IsTrue};
ghost use Rattle.cm_history.specs.Legal.{most_entries};
ghost use Rattle.cm_growing.specs.Items.{number_of};
ghost use Rattle.cm_growing.specs.Row.{status_at};

use crate::status::Status;
use cm_nmt::NodeId;

/// The node whose state the first word has, and what its own word has to say before another takes its place.
#[derive(Clone, Copy)]
pub(crate) struct Current {
    /// With so many entries the state was shown first.
    pub since: u64,
    /// `None` where the first word has no node's state.
    pub node: Option<NodeId>,
    pub state: u8,
    /// What was shown with one entry less than that.
    pub before: u8,
}

impl Current {
    /// Of no node.
    pub(crate) fn none() -> Current
        ensures { (result.node ≡ None) × (result.since ≡ 0) }
    {
        Current {
            since: 0,
            node: None,
            state: 0,
            before: 0,
        }
    }

    /// The number of the node, 0 for none.
    #[inline(always)]
    fn number(&self) -> u8
        ensures value { result ≡ number_of self.now.node }
        ensures range { result < 128 }
    {
        match self.node {
            Some(id) => id.get(),
            None => 0,
        }
    }

    /// What the first word says where there are so many entries, with which the words of all others are right.
    #[inline(always)]
    pub(crate) fn status(&self, count: u64) -> Status
        ensures value { result ≡ status_at count self.now }
        ensures range { number_of self.now.node < 128 }
    {
        Status {
            count,
            done: count,
            node: self.number(),
            state: self.state,
        }
    }

    /// Whether it is this node's state.
    #[inline(always)]
    pub(crate) fn is_of(&self, id: NodeId) -> bool
        ensures { IsTrue result ↔ (id ≡ number_of self.now.node) }
    {
        match self.node {
            Some(node) => node == id,
            None => false,
        }
    }

    /// The same node's, where this state is shown of it with one entry more than so many.
    #[inline(always)]
    pub(crate) fn with(&self, count: u64, state: u8) -> Current
        requires { count < most_entries }
        ensures node { result.node ≡ self.now.node }
        ensures state { result.state ≡ state }
        ensures since { (result.since ≡ count + 1) × (result.before ≡ self.now.state) }
    {
        Current {
            since: count + 1,
            node: self.node,
            state,
            before: self.state,
        }
    }
}
