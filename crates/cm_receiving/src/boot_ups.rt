//! The boot-up messages among the bytes that are received, and the answers that contradict each other.
ghost use Rattle.std.specs.Prelude.{◌≡◌, ◌≢◌, ◌+◌, ◌<◌, ◌^◌, ℕ, Some};
ghost use Rattle.cm_receiving.specs.BootUps.{EndsNoBootUp, IsBootUp, IsLastBootUp};
ghost use Rattle.cm_receiving.specs.Identifiers.{IsOfNode};

use crate::bus_name::BusName;
use crate::doubling::Answers;
use crate::listening::sender_of;
use cm_can::{CanFrame, error_control};
use cm_nmt::NodeId;
use std::marker::{Model, PhantomData};

/// How many bytes were received, and of each node-ID, and one that is unused, the last place among them from which on another
/// device may have it, 0 where none is: that of a boot-up message, or of an answer that contradicts the one before. Behind it they
/// end no boot-up message of the node. Contracts see how many bytes.
#[derive(Drop)]
pub(crate) struct BootUps<B: BusName> {
    taken: u64,
    last: [u64; 128],
    answers: Answers,
    of: PhantomData<B>,
}

impl<B: BusName> Model for BootUps<B> {
    ghost use Rattle.std.specs.Prelude.{◌<◌, ℕ, slice_index};
    ghost use Rattle.cm_receiving.specs.BootUps.{IsLastBootUp};

    ghost Value = { ℕ };

    ghost view = { λ b. b.taken };

    ghost invariant = { λ b. (node : ℕ) → node < 128
        → IsLastBootUp B.format B.text node (slice_index b.last node) b.taken };
}

/// The node whose boot-up message the frame is.
fn booted_up(frame: &CanFrame) -> Option<NodeId>
    ensures { (n : ℕ) → IsBootUp n frame.now → result ≡ Some n }
{
    let message = error_control(frame)?;
    if message.byte % 128 == 0 {
        Some(message.node)
    } else {
        None
    }
}

impl<B: BusName> BootUps<B> {
    /// Nothing was received yet.
    pub(crate) fn new() -> BootUps<B>
        ensures { result ≡ 0 }
    {
        BootUps {
            taken: 0,
            last: [0; 128],
            answers: Answers::new(),
            of: PhantomData,
        }
    }

    /// Takes the next byte, which ends no boot-up message.
    pub(crate) fn pass(&mut self)
        requires room { self.old < 2 ^ 63 }
        requires none { (n : ℕ) → EndsNoBootUp B.format B.text n self.old }
        ensures { self.new ≡ self.old + 1 }
    {
        self.taken += 1;
    }

    /// Takes the next byte, from which on another device may be this node. It ends a boot-up message of no other.
    fn note(&mut self, node: NodeId)
        requires room { self.old < 2 ^ 63 }
        requires others { (n : ℕ) → n ≢ node → EndsNoBootUp B.format B.text n self.old }
        ensures { self.new ≡ self.old + 1 }
    {
        self.last[usize::from(node.get())] = self.taken;
        self.taken += 1;
    }

    /// Takes the next byte, which ends the line of this frame: a boot-up message is noted, and so is an answer that contradicts the one
    /// before.
    pub(crate) fn hear(&mut self, frame: &CanFrame)
        requires room { self.old < 2 ^ 63 }
        requires only { (n : ℕ) → (IsBootUp n frame.now → ⊥) → EndsNoBootUp B.format B.text n self.old }
        ensures { self.new ≡ self.old + 1 }
    {
        let doubled = self.answers.hear(frame);
        match booted_up(frame) {
            Some(node) => self.note(node),
            None => match doubled {
                Some(node) => self.note(node),
                None => self.pass(),
            },
        }
    }

    /// The last place from which on another device may be the node of which the frame may answer a question; 0 where none is, and
    /// of a frame of no node.
    pub(crate) fn since(&self, frame: &CanFrame) -> u64
        ensures { (n : ℕ) → IsOfNode n frame.now → IsLastBootUp B.format B.text n result self.now }
    {
        match sender_of(frame) {
            Some(node) => self.last[usize::from(node.get())],
            None => 0,
        }
    }
}
