ghost use Rattle.std.specs.Prelude.{◌≡◌, filter, map};
ghost use Rattle.cm_nmt.specs.Listing.{node_ids, is_kept};
ghost use Rattle.cm_netlist.specs.Network.{listing};
ghost use Rattle.cm_history.specs.History.{is_empty};
ghost use Rattle.cm_history.specs.OrderFrames.{frames_of, is_unkept, reset_of};

use arrayvec::ArrayVec;
use cm_history::Orders;
use cm_netlist::Network;
use cm_nmt::{Command, Frame, NodeId, Target};

/// Whether no slave is kept alive.
fn none_kept(net: &Network) -> bool
    ensures { result ≡ is_empty (filter (is_kept (listing net.now)) node_ids) }
{
    let mut ids = net.listed_ids();
    ids.retain(|id| net.kept(*id));
    ids.is_empty()
}

/// The slaves that aren't kept alive, in rising node-ID.
fn unkept_ids(net: &Network) -> ArrayVec<NodeId, 127>
    ensures { result.items ≡ filter (is_unkept (listing net.now)) node_ids }
{
    let mut ids = net.listed_ids();
    ids.retain(|id| !net.kept(*id));
    ids
}

/// A reset to each slave that isn't kept alive.
fn single_resets(net: &Network) -> ArrayVec<Frame, 127>
    ensures { result.items ≡ map reset_of (filter (is_unkept (listing net.now)) node_ids) }
{
    let command = Command::ResetComm;
    let mut sent: ArrayVec<Frame, 127> = ArrayVec::new();
    for id in unkept_ids(net).as_slice() {
        let target = Target::Node(*id);
        sent.push(Frame { command, target });
    }
    sent
}

/// The frames that orders send, in their order. A reset of the slaves that aren't kept alive is
/// one frame to all nodes where none is kept alive, else one to each in rising node-ID (own).
pub fn frames(net: &Network, orders: Orders) -> ArrayVec<Frame, 127>
    ensures { result.items ≡ frames_of (listing net.now) orders }
{
    let mut sent: ArrayVec<Frame, 127> = ArrayVec::new();
    match &orders {
        Orders::None => {}
        Orders::One(frame) => sent.push(*frame),
        Orders::ResetUnkept if none_kept(net) => sent.push(Frame {
            command: Command::ResetComm,
            target: Target::All,
        }),
        Orders::ResetUnkept => sent = single_resets(net),
    }
    sent
}
