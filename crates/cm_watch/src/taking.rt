//! What a moment makes of what is kept of the slaves: where it is about one node, that slave alone is touched.

ghost use Rattle.std.specs.Prelude.{◌≡◌, ◌<◌, ◌^◌, ◌∷◌, Some};
ghost use Rattle.cm_history.specs.Orders.{is_node};
ghost use Rattle.cm_watch.specs.Kept.{about, about_call, about_happening, about_step, if_only, reaches_only};
ghost use Rattle.cm_watched.specs.Pasts.{Past};
ghost use Rattle.cm_watch.specs.Watches.{AreSlaves};

use cm_history::{Call, Orders};
use cm_netlist::Network;
use cm_nmt::{NodeId, Target};
use cm_watched::{Happening, Moment, Settings, Slave, Step};

/// Whether this node is the target.
fn is_node(target: &Target, id: NodeId) -> bool
    ensures { result ≡ is_node target.now id }
{
    match target {
        Target::All => false,
        Target::Node(node) => *node == id,
    }
}

/// Whether the orders reach no other node than this one.
fn reaches_only(orders: &Orders, id: NodeId) -> bool
    ensures { result ≡ reaches_only orders.now id }
{
    match orders {
        Orders::None => true,
        Orders::One(frame) => is_node(&frame.target, id),
        Orders::ResetUnkept => false,
    }
}

/// The node that a call with these orders is about.
fn about_call(call: &Call, orders: &Orders) -> Option<NodeId>
    ensures { result ≡ about_call call.now orders.now }
{
    match call.node() {
        Some(id) if reaches_only(orders, id) => Some(id),
        _ => None,
    }
}

/// The node that a happening is about.
fn about_happening(happening: &Happening) -> Option<NodeId>
    ensures { result ≡ about_happening happening.now }
{
    match happening {
        Happening::Heard(id, _) | Happening::Ended(id) | Happening::Asked(id) => Some(*id),
        Happening::Called(entry) => about_call(&entry.call, &entry.orders),
        Happening::Ends(_) => None,
    }
}

/// The node that a step is about.
fn about_step(step: &Step) -> Option<NodeId>
    ensures { result ≡ about_step step.now }
{
    match step {
        Step::Lost(id)
        | Step::Boot(id)
        | Step::Wake(id)
        | Step::Signal(id, _)
        | Step::LeftOut(id, _)
        | Step::Guard(id) => Some(*id),
        Step::TimeOver(_) | Step::AllTried(_) | Step::Beat(_) | Step::End => None,
    }
}

/// The node that the moment is about; `None` where it may be about all, or is about none.
fn about(moment: &Moment) -> Option<NodeId>
    ensures { result ≡ about moment.now }
{
    match moment {
        Moment::Happened(happening) => about_happening(happening),
        Moment::Gave(step) => about_step(step),
    }
}

/// What is kept of all slaves after a moment that is about this node: the others stay as they are.
fn take_one(
    slaves: &mut [Slave; 128],
    network: &Network,
    settings: Settings,
    now: u64,
    moment: &Moment,
    id: NodeId,
)
    requires time { now < 2 ^ 63 }
    requires node { about moment.now ≡ Some id }
    ensures { (past : Past) → AreSlaves slaves.old network.now settings past
        → AreSlaves slaves.new network.now settings ((now, moment.now) ∷ past) }
{
    let place = usize::from(id.get());
    slaves[place] = slaves[place].after(network, settings, now, moment, id);
}

/// What is kept of all slaves after the moment, one after another.
fn take_each(
    slaves: &mut [Slave; 128],
    network: &Network,
    settings: Settings,
    now: u64,
    moment: &Moment,
)
    requires { now < 2 ^ 63 }
    ensures { (past : Past) → AreSlaves slaves.old network.now settings past
        → AreSlaves slaves.new network.now settings ((now, moment.now) ∷ past) }
{
    for number in 1..128u8 {
        if let Some(id) = NodeId::new(number) {
            let place = usize::from(number);
            slaves[place] = slaves[place].after(network, settings, now, moment, id);
        }
    }
}

/// What is kept of all slaves after the moment.
pub(crate) fn take_all(
    slaves: &mut [Slave; 128],
    network: &Network,
    settings: Settings,
    now: u64,
    moment: &Moment,
)
    requires { now < 2 ^ 63 }
    ensures { (past : Past) → AreSlaves slaves.old network.now settings past
        → AreSlaves slaves.new network.now settings ((now, moment.now) ∷ past) }
{
    match about(moment) {
        Some(id) => take_one(slaves, network, settings, now, moment, id),
        None => take_each(slaves, network, settings, now, moment),
    }
}
