ghost use Rattle.std.specs.Prelude.{◌≡◌, ◌↔◌, IsSome, IfSome};

use std::marker::Model;

/// A node-ID, 1 to 127 (CiA 301). Contracts see its number.
#[derive(Clone, Copy, Debug, PartialEq, Eq)]
pub struct NodeId {
    number: u8,
}

impl Model for NodeId {
    ghost use Rattle.std.specs.Prelude.{ℕ};
    ghost use Rattle.cm_nmt.specs.NodeId.{IsNodeId};

    ghost Value = { ℕ };

    ghost view = { λ n. n.number };

    ghost invariant = { λ n. IsNodeId n.number };

    ghost inverse = { λ n. record { number = n } };
}

impl NodeId {
    ghost use Rattle.cm_nmt.specs.NodeId.{IsNodeId};

    /// The node-ID of this number; `None` exactly where the number isn't 1 to 127.
    pub fn new(number: u8) -> Option<NodeId>
        ensures valid { IsSome result ↔ IsNodeId number }
        ensures value { IfSome result (λ id. id ≡ number) }
    {
        if 1 <= number && number <= 127 {
            Some(NodeId { number })
        } else {
            None
        }
    }

    /// The number, 1 to 127.
    pub fn get(&self) -> u8
        ensures value { result ≡ self.now }
        ensures range { IsNodeId result }
    {
        self.number
    }
}

/// Node 1, which stands in the unused places of lists of fixed size.
impl Default for NodeId {
    ghost is_default = { λ id. id ≡ 1 };

    fn default() -> NodeId {
        NodeId { number: 1 }
    }
}
