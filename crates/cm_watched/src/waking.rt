//! Which slaves stand stopped.

ghost use Rattle.std.specs.Prelude.{◌≡◌, ◌||◌};
ghost use Rattle.cm_history.specs.Orders.{is_all, is_node};
ghost use Rattle.cm_watched.specs.Waking.{command_to, is_boot_up_of, stands_by, stands_by_entry};

use crate::happening::{Happening, Moment, Step};
use cm_history::{Call, Entry, Orders, Reply};
use cm_netlist::Network;
use cm_nmt::{Command, NodeId, Target};

/// Whether a command for this target reaches the node.
fn reaches(target: &Target, id: NodeId) -> bool
    ensures { result ≡ (is_all target.now || is_node target.now id) }
{
    match target {
        Target::All => true,
        Target::Node(node) => *node == id,
    }
}

/// The command by which the orders reach the node.
fn command_to(network: &Network, orders: &Orders, id: NodeId) -> Option<Command>
    ensures { result ≡ command_to network.now orders.now id }
{
    match orders {
        Orders::One(frame) if reaches(&frame.target, id) => Some(frame.command),
        Orders::ResetUnkept if !network.kept(id) => Some(Command::ResetComm),
        _ => None,
    }
}

/// Whether the call is a boot-up message of the node.
fn is_boot_up_of(call: &Call, reply: Reply, id: NodeId) -> bool
    ensures { result ≡ is_boot_up_of call.now reply id }
{
    match call {
        Call::Signal(node, _) => reply == Reply::BootAgain && *node == id,
        _ => false,
    }
}

/// Whether the node stands stopped after the entry, where that decides it.
fn stands_by_entry(network: &Network, entry: &Entry, id: NodeId) -> Option<bool>
    ensures { result ≡ stands_by_entry network.now entry.now id }
{
    if is_boot_up_of(&entry.call, entry.reply, id) {
        return Some(false);
    }
    match command_to(network, &entry.orders, id) {
        Some(Command::Stop) => Some(true),
        Some(_) => Some(false),
        None => None,
    }
}

/// Whether the node stands stopped after the moment, where that decides it.
pub(crate) fn stands_by(network: &Network, moment: &Moment, id: NodeId) -> Option<bool>
    ensures { result ≡ stands_by network.now moment.now id }
{
    match moment {
        Moment::Happened(Happening::Called(entry)) => stands_by_entry(network, entry, id),
        Moment::Gave(Step::Wake(node)) if *node == id => Some(false),
        _ => None,
    }
}
