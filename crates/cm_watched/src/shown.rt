//! What the manager shows of a node, and what it did with it.

ghost use Rattle.std.specs.Prelude.{◌≡◌, Some, if◌then◌else◌, option_map};
ghost use Rattle.cm_history.specs.History.{only_if, reported, sets_by, signalled, state_reported, state_requested};
ghost use Rattle.cm_history.specs.Orders.{is_start_of};
ghost use Rattle.cm_watched.specs.Signals.{commands_by, entered, gives_by, is_sent, shown_by, since_call};

use crate::happening::{Happening, Moment, Step};
use crate::schedule::is_reset;
use cm_history::{Call, Entry, MISSING, Orders, Reply, UNKNOWN, obeyed, state_reported};
use cm_nmt::{Answers, NodeId};

/// The state pre-operational (CiA 301, heartbeat).
pub(crate) const PRE_OPERATIONAL: u8 = 127;

/// The state stopped.
const STOPPED: u8 = 4;

/// The state operational.
const OPERATIONAL: u8 = 5;

/// What the manager did with a node since it was heard last.
#[derive(Clone, Copy)]
pub enum Since {
    /// Nothing.
    Nothing,
    /// It gave the node a state: what was heard is from before that.
    Set,
    /// It commanded the node: the first message with the same state was on its way, and is from before that too.
    Commanded,
}

/// The state in which a node is that sends this one: pre-operational behind a boot-up message (CiA 301).
pub(crate) fn entered(state: u8) -> u8
    ensures { result ≡ entered state }
{
    if state == 0 { PRE_OPERATIONAL } else { state }
}

/// The state, where the condition holds.
fn only_if(state: Option<u8>, condition: bool) -> Option<u8>
    ensures { result ≡ only_if state condition }
{
    match state {
        Some(state) if condition => Some(state),
        _ => None,
    }
}

/// The state to which a report of the node sets it.
fn report_sets(reply: Reply, answers: &Answers, orders: &Orders, id: NodeId) -> Option<u8>
    ensures { result ≡ option_map (λ s. if is_start_of orders.now id then 5
        else state_reported s answers.now) (reported reply) }
{
    let Reply::Reported(status) = reply else {
        return None;
    };
    if orders.is_start_of(id) {
        Some(OPERATIONAL)
    } else {
        Some(state_reported(status, answers))
    }
}

/// The state that an error control message with this byte tells, where it was answered so.
fn signal_sets(reply: Reply, byte: u8) -> Option<u8>
    ensures { result ≡ signalled reply byte }
{
    match reply {
        Reply::BootAgain => Some(PRE_OPERATIONAL),
        Reply::Noted => Some(byte % 128),
        _ => None,
    }
}

/// The state that a value of a request asks for.
fn state_requested(value: u8) -> u8
    ensures { result ≡ state_requested value }
{
    if is_reset(value) { UNKNOWN } else { value }
}

/// The state to which the entry sets the node by itself.
fn sets_by(entry: &Entry, id: NodeId) -> Option<u8>
    ensures { result ≡ sets_by entry.now.call entry.now.reply entry.now.orders id }
{
    let reply = entry.reply;
    let is_granted = reply.is_granted();
    match &entry.call {
        Call::StartNetwork => only_if(Some(UNKNOWN), is_granted),
        Call::Report(node, _, answers) => {
            let set = report_sets(reply, answers, &entry.orders, id);
            only_if(set, *node == id)
        }
        Call::Signal(node, byte) => only_if(signal_sets(reply, *byte), *node == id),
        Call::Lost(node) => {
            let is_lost = reply == Reply::Noted || reply == Reply::Handled;
            only_if(Some(MISSING), is_lost && *node == id)
        }
        Call::Request(target, value) => {
            let is_target = *target == id.get();
            only_if(Some(state_requested(*value)), is_granted && is_target)
        }
        Call::Hold(node) => only_if(Some(STOPPED), is_granted && *node == id),
        _ => None,
    }
}

/// The state of the node that the manager shows behind the moment, with that before it.
pub(crate) fn shown_by(moment: &Moment, id: NodeId, shown: u8) -> u8
    ensures { result ≡ shown_by moment.now id shown }
{
    match moment {
        Moment::Happened(Happening::Called(entry)) => {
            let set = sets_by(entry, id).unwrap_or(shown);
            obeyed(entry.orders.to_all(), set)
        }
        Moment::Gave(Step::Signal(node, byte)) if *node == id => entered(*byte % 128),
        _ => shown,
    }
}

/// Whether something is sent.
fn is_sent(orders: &Orders) -> bool
    ensures { result ≡ is_sent orders.now }
{
    !matches!(orders, Orders::None)
}

/// Whether the entry commands the node.
fn is_commanded(entry: &Entry, id: NodeId) -> bool
    ensures { result ≡ commands_by entry.now.call entry.now.reply entry.now.orders id }
{
    entry.orders.to_all().is_some() || (is_sent(&entry.orders) && sets_by(entry, id).is_some())
}

/// Whether the entry gives the node a state, other than the one that it told.
fn is_given(entry: &Entry, id: NodeId) -> bool
    ensures { result ≡ gives_by entry.now.call entry.now.reply entry.now.orders id }
{
    match &entry.call {
        Call::Signal(_, _) => false,
        _ => sets_by(entry, id).is_some(),
    }
}

/// What the manager did with the node since it was heard last, behind the entry.
pub(crate) fn since_entry(entry: &Entry, id: NodeId, since: Since) -> Since
    ensures { result ≡ since_call entry.now.call entry.now.reply entry.now.orders id since }
{
    if is_commanded(entry, id) {
        Since::Commanded
    } else if is_given(entry, id) {
        Since::Set
    } else {
        since
    }
}
