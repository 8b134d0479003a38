ghost use Rattle.std.specs.Prelude.{◌≡◌};
ghost use Rattle.cm_watch.specs.Telling.{back_by, back_while, becomes, unwatched_by};

use cm_history::{Call, Reply};
use cm_netlist::Network;
use cm_nmt::NodeId;
use cm_watched::{Happening, most_silence_of};

/// What an operator is told behind a happening, beside what it is.
#[derive(Clone, Copy)]
pub struct Told {
    /// The network has become ready.
    pub is_ready: bool,
    /// The boot of the network was given up.
    pub is_halted: bool,
    /// All nodes were stopped.
    pub is_stopped: bool,
    /// This slave is back, while all are stopped.
    pub back: Option<NodeId>,
    /// This slave is booted, and isn't watched, since it has neither a heartbeat time nor a node life time.
    pub unwatched: Option<NodeId>,
    /// This slave isn't booted, and is to be booted at no time: a worker's attempts at it have ended.
    pub given_up: Option<NodeId>,
}

/// What holds now, and didn't before.
pub(crate) fn becomes(before: bool, now: bool) -> bool
    ensures { result ≡ becomes before now }
{
    !before && now
}

/// The slave whose boot-up message was answered.
fn back_by(happening: &Happening) -> Option<NodeId>
    ensures { result ≡ back_by happening.now }
{
    match happening {
        Happening::Called(entry) => match (&entry.call, entry.reply) {
            (Call::Signal(id, _), Reply::BootAgain) => Some(*id),
            _ => None,
        },
        _ => None,
    }
}

/// The same, while all are stopped.
pub(crate) fn back_while(is_stopped: bool, happening: &Happening) -> Option<NodeId>
    ensures { result ≡ back_while is_stopped happening.now }
{
    if is_stopped { back_by(happening) } else { None }
}

/// The slave that is booted with it, and that isn't watched.
pub(crate) fn unwatched_by(network: &Network, happening: &Happening) -> Option<NodeId>
    ensures { result ≡ unwatched_by network.now happening.now }
{
    match happening {
        Happening::Called(entry) => match (&entry.call, entry.reply) {
            (Call::Report(id, _, _), Reply::Reported(status))
                if status.is_good() && most_silence_of(network, *id) == 0 => { Some(*id) }
            _ => None,
        },
        _ => None,
    }
}
