//! The wire of a register, by which frames leave behind their entry alone.
ghost use Rattle.std.specs.Prelude.{◌≡◌, ◌≤◌, ◌++◌, ◌∷◌, [], ◌↔◌, List, IsTrue, length};
ghost use Rattle.cm_netlist.specs.Network.{listing};
ghost use Rattle.cm_history.specs.OrderFrames.{frames_of, resets_of};
ghost use Rattle.cm_history.specs.declared.call.Entry.{Entry as AnEntry};

use cm_history::{Entry, Orders, Recorder};
use cm_netlist::Network;
use cm_nmt::{Frame, Wire};
use cm_sequential::frames;
use std::marker::Model;

/// A wire by which nothing is sent but the frames of an entry that its recorder has recorded last: nobody else reaches the wire before
/// the register is taken apart. Contracts see the wire.
#[derive(Drop)]
pub(crate) struct RecordedWire<W: Wire> {
    wire: W,
}

impl<W: Wire> Model for RecordedWire<W> {
    ghost Value = { W };

    ghost view = { λ w. w.wire };
}

/// Sends the frames in order.
fn send_all<W: Wire>(wire: &mut W, frames: &[Frame])
    requires { length frames.now ≤ W.room_of wire.old }
    ensures { W.sent wire.new ≡ W.sent wire.old ++ frames.now }
{
    for frame in frames {
        wire.send(*frame);
    }
}

/// Whether the wire has room for the frames of a reset of the slaves that aren't kept alive. It stands apart
/// for the same cause as [`send_resets`].
#[inline(never)]
fn has_room_for_resets<W: Wire>(wire: &W, net: &Network) -> bool
    ensures { IsTrue result
        ↔ (length (resets_of (listing net.now)) ≤ W.room_of wire.now) }
{
    wire.room() as usize >= frames(net, Orders::ResetUnkept).len()
}

/// Sends a reset to the slaves that aren't kept alive. It stands apart, since the room for its frames is
/// cleared first, and few calls have them.
#[inline(never)]
fn send_resets<W: Wire>(wire: &mut W, net: &Network)
    requires { length (resets_of (listing net.now)) ≤ W.room_of wire.old }
    ensures { W.sent wire.new ≡ W.sent wire.old ++ resets_of (listing net.now) }
{
    send_all(wire, frames(net, Orders::ResetUnkept).as_slice());
}

impl<W: Wire> RecordedWire<W> {
    /// The wire of a register that is opened.
    pub(crate) fn around(wire: W) -> RecordedWire<W>
        ensures { result ≡ wire }
    {
        RecordedWire { wire }
    }

    /// Whether the wire has room for the frames of the orders.
    #[inline(always)]
    pub(crate) fn has_room(&self, net: &Network, orders: &Orders) -> bool
        ensures { IsTrue result
            ↔ (length (frames_of (listing net.now) orders.now) ≤ W.room_of self.now) }
    {
        match orders {
            Orders::None => true,
            Orders::One(_) => self.wire.room() >= 1,
            Orders::ResetUnkept => has_room_for_resets(&self.wire, net),
        }
    }

    /// Sends the frames of an entry's orders in order. The entry was recorded before, as the last one.
    #[inline(always)]
    pub(crate) fn send_orders<J: Recorder>(
        &mut self,
        recorder: &J,
        net: &Network,
        entry: &Entry,
        orders: &Orders,
    )
        requires recorded { (before : List AnEntry) × J.has_recorded recorder.now (before ++ entry.now ∷ []) }
        requires orders { orders.now ≡ entry.now.orders }
        requires room { length (frames_of (listing net.now) orders.now) ≤ W.room_of self.old }
        ensures { W.sent self.new ≡ W.sent self.old ++ frames_of (listing net.now) orders.now }
    {
        match orders {
            Orders::None => {}
            Orders::One(frame) => self.wire.send(*frame),
            Orders::ResetUnkept => send_resets(&mut self.wire, net),
        }
    }

    /// The wire, to look at.
    pub(crate) fn wire(&self) -> &W
        ensures { result.now ≡ self.now }
    {
        &self.wire
    }

    /// The wire, once nothing is recorded any more.
    pub(crate) fn into_wire(self) -> W
        ensures { result ≡ self }
    {
        self.wire
    }
}
