ghost use Rattle.std.specs.Prelude.{◌≡◌, ◌+◌, ◌<◌, ◌≤◌, ◌++◌, ◌∷◌, ◌↔◌, [], IsFalse, false, true};
ghost use Rattle.cm_nmt.specs.Frames.{frame_bytes};
ghost use Rattle.cm_can.specs.Frames.{IsData};
ghost use Rattle.cm_bus.specs.Outlets.{WritesMessage, WritesMessageFront, WritesMessages};

use crate::outlet::Outlet;
use cm_can::{CanFrame, nmt_frame};
use cm_nmt::{Frame, KeptFrames, Wire};
use cm_receiving::BusName;
use std::io::Write;
use std::marker::{Model, PhantomData};
use std::sync::Arc;
use std::sync::atomic::{AtomicBool, AtomicU64, Ordering};

/// A wire to a CAN bus: each NMT frame is written as the message with identifier 000h. The frames sent are
/// kept, in memory that is taken before. Once a write has failed nothing more is written, and frames are kept
/// alone: the first bytes of the line of the frame that failed are the last. Contracts see the frames sent, the room
/// for more, and the outlet; where no write has failed, its writer got just the lines of the frames sent since the
/// wire was made.
#[derive(Drop)]
pub struct LiveWire<W: Write + Drop, B: BusName> {
    kept: KeptFrames,
    outlet: Outlet<W>,
    broken: Arc<AtomicBool>,
    handed: Arc<AtomicU64>,
    of: PhantomData<B>,
}

impl<W: Write + Drop, B: BusName> Model for LiveWire<W, B> {
    ghost use Rattle.std.specs.Prelude.{◌≡◌, false};
    ghost use Rattle.cm_bus.specs.Outlets.{LiveWireView, WritesMessages};

    ghost Value = { LiveWireView };

    ghost view = { λ w. record {
      sent = w.kept.sent;
      room = w.kept.room;
      failed = w.outlet.failed;
      contents = W.contents w.outlet.writer;
    } };

    ghost invariant = { λ w. (w.outlet.format ≡ B.message_format) × (w.outlet.failed ≡ false
        → WritesMessages B.message_format w.kept.sent B.before (W.contents w.outlet.writer)) };
}

impl<W: Write + Drop, B: BusName> LiveWire<W, B> {
    /// A wire over these kept frames, of which there are none yet. `broken` is set once a write has failed,
    /// and `handed` counts the frames that were written. The conditions say that `B` knows in what lines frames are written,
    /// and what the writer has.
    pub fn new(
        kept: KeptFrames,
        outlet: Outlet<W>,
        broken: Arc<AtomicBool>,
        handed: Arc<AtomicU64>,
    ) -> LiveWire<W, B>
        requires unused { kept.sent ≡ [] }
        requires format { outlet.format ≡ B.message_format }
        requires before { W.contents outlet.writer ≡ B.before }
        ensures { (result.sent ≡ []) × (result.room ≡ kept.room) }
    {
        LiveWire {
            kept,
            outlet,
            broken,
            handed,
            of: PhantomData,
        }
    }

    /// Whether a write has failed.
    pub fn has_failed(&self) -> bool
        ensures { result ≡ self.now.failed }
    {
        self.outlet.has_failed()
    }

    /// The outlet: where no write has failed, its writer got just the lines of the frames sent.
    pub fn into_outlet(self) -> Outlet<W>
        ensures format { result.format ≡ B.message_format }
        ensures written { result.failed ≡ false
            → WritesMessages B.message_format self.sent B.before (W.contents result.writer) }
    {
        self.outlet
    }
}

/// The message that is an NMT frame.
fn message_of(frame: &Frame) -> CanFrame
    ensures { IsData result 0 (frame_bytes frame.now) }
{
    nmt_frame(*frame)
}

impl<W: Write + Drop, B: BusName> Wire for LiveWire<W, B> {
    ghost sent = { λ w. w.sent };

    ghost room_of = { λ w. w.room };

    fn room(&self) -> u32
        ensures { result ≡ self.now.room }
    {
        self.kept.room()
    }

    fn used(&self) -> bool
        ensures { IsFalse result ↔ (self.now.sent ≡ []) }
    {
        self.kept.used()
    }

    fn send(&mut self, frame: Frame)
        requires { 0 < self.old.room }
        ensures sent { self.new.sent ≡ self.old.sent ++ frame ∷ [] }
        ensures room { self.old.room ≤ self.new.room + 1 }
        ensures written { self.new.failed ≡ false
            → WritesMessage B.message_format frame self.old.contents self.new.contents }
        ensures front { self.old.failed ≡ false
            → WritesMessageFront B.message_format frame self.old.contents self.new.contents }
        ensures stopped { self.old.failed ≡ true
            → (self.new.failed ≡ true) × (self.new.contents ≡ self.old.contents) }
    {
        self.outlet.send(&message_of(&frame));
        // Taken apart and put together, since the check refuses the frame as it is.
        let Frame { command, target } = frame;
        self.kept.send(Frame { command, target });
        if self.outlet.has_failed() {
            self.broken.store(true, Ordering::SeqCst);
        } else {
            self.handed.fetch_add(1, Ordering::SeqCst);
        }
    }
}
