ghost use Rattle.std.specs.Prelude.{◌≡◌, ℕ, IfNone, IfSome};
ghost use Rattle.cm_can.specs.Control.{IsErrorControl};
ghost use Rattle.cm_receiving.specs.Places.{IsControlAt};

use crate::bus_name::BusName;
use crate::received::Received;
use cm_can::error_control;
use cm_nmt::NodeId;
use std::marker::{Model, PhantomData};

/// An error control message that was received (CiA 301): its frame stands, as a line, in what the reader of received frames holds, at
/// its place. It is made of a frame that was received, and of nothing else. Contracts see the place, the node and the byte.
#[derive(Drop)]
pub struct ControlMessage<B: BusName> {
    place: u64,
    node: NodeId,
    byte: u8,
    of: PhantomData<B>,
}

impl<B: BusName> Model for ControlMessage<B> {
    ghost use Rattle.cm_receiving.specs.Places.{IsControlAt, PlacedControl};

    ghost Value = { PlacedControl };

    ghost view = { λ m. record { place = m.place; node = m.node; byte = m.byte } };

    ghost invariant = { λ m. IsControlAt B.format B.text m.place m.node m.byte };
}

impl<B: BusName> ControlMessage<B> {
    /// The error control message that the frame is, if it is one.
    pub fn of(received: &Received<B>) -> Option<ControlMessage<B>>
        ensures some { IfSome result (λ m. (m.place ≡ received.now.place) × IsErrorControl m.node m.byte received.now.frame) }
        ensures none { IfNone result ((node byte : ℕ) → IsErrorControl node byte received.now.frame → ⊥) }
    {
        let message = error_control(&received.frame())?;
        Some(ControlMessage {
            place: received.place(),
            node: message.node,
            byte: message.byte,
            of: PhantomData,
        })
    }

    /// The place of the byte that ends its line.
    pub fn place(&self) -> u64
        ensures place { result ≡ self.now.place }
        ensures stands { IsControlAt B.format B.text self.now.place self.now.node self.now.byte }
    {
        self.place
    }

    /// The node whose message it is.
    pub fn node(&self) -> NodeId
        ensures { result ≡ self.now.node }
    {
        self.node
    }

    /// Its byte: the state of the node, 0 where it has booted up, and in bit 7 the toggle bit of node guarding.
    pub fn byte(&self) -> u8
        ensures { result ≡ self.now.byte }
    {
        self.byte
    }
}
