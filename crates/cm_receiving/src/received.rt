ghost use Rattle.std.specs.Prelude.{◌≡◌, ℕ};
ghost use Rattle.cm_receiving.specs.Identifiers.{IsOfNode};
ghost use Rattle.cm_receiving.specs.Places.{NoBootUp, StandsIn};

use crate::bus_name::BusName;
use cm_can::CanFrame;
use std::marker::{Model, PhantomData};

/// A frame that was received: it stands, as a line, in what the reader of received frames holds, at its place. Only who
/// has read that line can make one. It knows the last place from which on another device may be the node of which the frame
/// may answer a question: that of a boot-up message, or of an answer that contradicts the one before it. Behind that, and up to
/// its own place, no boot-up message of this node stands. Contracts see the frame and both places.
#[derive(Drop)]
pub struct Received<B: BusName> {
    frame: CanFrame,
    place: u64,
    since: u64,
    of: PhantomData<B>,
}

impl<B: BusName> Model for Received<B> {
    ghost use Rattle.std.specs.Prelude.{ℕ};
    ghost use Rattle.cm_receiving.specs.Identifiers.{IsOfNode};
    ghost use Rattle.cm_receiving.specs.Places.{NoBootUp, Placed, StandsIn};

    ghost Value = { Placed };

    ghost view = { λ r. record { place = r.place; frame = r.frame; since = r.since } };

    ghost invariant = { λ r. StandsIn B.format B.text r.place r.frame
        × ((n : ℕ) → IsOfNode n r.frame → NoBootUp B.format B.text n r.since r.place) };
}

impl<B: BusName> Received<B> {
    /// The frame at this place, with the last from which on another device may be its node.
    pub(crate) fn new(place: u64, frame: CanFrame, since: u64) -> Received<B>
        requires stands { StandsIn B.format B.text place frame }
        requires same { (n : ℕ) → IsOfNode n frame → NoBootUp B.format B.text n since place }
        ensures { result ≡ record { place = place; frame = frame; since = since } }
    {
        Received {
            frame,
            place,
            since,
            of: PhantomData,
        }
    }

    /// The frame.
    pub fn frame(&self) -> CanFrame
        ensures frame { result ≡ self.now.frame }
        ensures stands { StandsIn B.format B.text self.now.place self.now.frame }
    {
        self.frame
    }

    /// The place of the byte that ends its line.
    pub fn place(&self) -> u64
        ensures { result ≡ self.now.place }
    {
        self.place
    }

    /// The last place from which on another device may be the node of which the frame may answer a question, by a boot-up
    /// message, or an answer that contradicts the one before: its own, where it is that message or answer; 0 where none is, and
    /// where it is a frame of no node.
    pub fn since(&self) -> u64
        ensures since { result ≡ self.now.since }
        ensures same { (n : ℕ) → IsOfNode n self.now.frame
            → NoBootUp B.format B.text n self.now.since self.now.place }
    {
        self.since
    }
}
