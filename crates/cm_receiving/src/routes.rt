//! Whom each frame is given to that is received.
ghost use Rattle.std.specs.Prelude.{◌≡◌, ◌/◌, ◌-◌, ◌^◌, ℕ, IfSome, Some, min, vec_len};
ghost use Rattle.std.specs.Duration.{as_nanos};
ghost use Rattle.cm_nmt.specs.NodeId.{IsNodeId};
ghost use Rattle.cm_boot.specs.declared.question.Answer.{Answer};
ghost use Rattle.cm_boot.specs.declared.question.Question.{Question};
ghost use Rattle.cm_can.specs.Questions.{IsAnswer};
ghost use Rattle.cm_receiving.specs.Routing.{IsToldOf, worker_for};
ghost use Rattle.cm_netlist.specs.Workers.{worker_of};

use crate::bus_name::BusName;
use crate::control_message::ControlMessage;
use crate::heard_remark::HeardRemark;
use crate::listening::{Listening, sender_of};
use crate::notification::Notification;
use crate::received::Received;
use cm_can::CanFrame;
use cm_netlist::{place_of, worker_of};
use cm_nmt::NodeId;
use crossbeam_channel::Sender;
use std::sync::{Arc, Wait};
use std::time::{Clock, Duration};

/// Whom each frame is given to that is received.
#[derive(Drop)]
pub struct Routes<B: BusName> {
    /// The listed nodes, in rising order; the k-th, counted from 0, is booted by worker k modulo their number.
    pub listed: Vec<NodeId>,
    pub listening: Arc<Listening>,
    /// What each worker hears.
    pub workers: Vec<Sender<Received<B>>>,
    /// Who is told of error control messages.
    pub heard: Sender<ControlMessage<B>>,
    /// Who is told of what else is said on the bus.
    pub said: Sender<HeardRemark<B>>,
    /// Who is told that nothing is received any more, or no frame.
    pub notifications: Sender<Notification>,
}

/// Of so many workers, the one that a frame may be given to: a frame that answers a question is for the one that boots
/// the node that was asked.
fn worker_for(listed: &[NodeId], workers: usize, frame: &CanFrame) -> Option<usize>
    ensures value { result ≡ worker_for listed.now workers frame.now }
    ensures each { (n : ℕ) (q : Question) (a : Answer) → IsNodeId n → IsAnswer n q frame.now a
        → result ≡ worker_of listed.now workers n }
{
    worker_of(listed, workers, sender_of(frame)?)
}

/// How many ms this time has.
pub fn ms_in(time: Duration) -> u64
    ensures { result ≡ min (as_nanos time / 1_000_000) (2 ^ 64 - 1) }
{
    u64::try_from(time.as_millis()).unwrap_or(u64::MAX)
}

impl<B: BusName> Routes<B> {
    /// The worker that the frame is given to: the one that boots its node, if it listens to it.
    fn worker_that_hears(&self, frame: &CanFrame) -> Option<usize>
        ensures { IfSome result (λ k. worker_for self.now.listed.items (vec_len self.now.workers) frame.now ≡ Some k) }
    {
        let worker = worker_for(self.listed.as_slice(), self.workers.len(), frame)?;
        if self.listening.is_wanted(worker, frame) {
            Some(worker)
        } else {
            None
        }
    }

    /// The error control message of a listed node that a frame is, if it is one. Where a node has booted up is noted.
    fn message_in(&self, received: &Received<B>) -> Option<ControlMessage<B>>
        ensures { IfSome result (IsToldOf self.now.listed.items received.now.frame) }
    {
        let message = ControlMessage::of(received)?;
        let _listed = place_of(self.listed.as_slice(), message.node())?;
        if message.byte() % 128 == 0 {
            self.listening.note_boot_up(message.node(), message.place());
        }
        Some(message)
    }

    /// Tells what is said on the bus, if something is.
    pub(crate) fn say<R: Wait + Clock>(&self, rt: &R, remark: Option<HeardRemark<B>>) {
        if let Some(remark) = remark {
            let _ = self.said.send(rt, remark);
        }
    }

    /// Gives a frame to all that it is for.
    pub(crate) fn take<R: Wait + Clock>(&self, rt: &R, received: Received<B>) {
        let message = self.message_in(&received);
        let remark = HeardRemark::of(&received);
        let doubled = HeardRemark::doubled(&received, self.listed.as_slice());
        if let Some(worker) = self.worker_that_hears(&received.frame()) {
            if let Some(hears) = self.workers.get(worker) {
                let _ = hears.send(rt, received);
            }
        }
        if let Some(message) = message {
            let _ = self.heard.send(rt, message);
        }
        self.say(rt, remark);
        self.say(rt, doubled);
    }
}
