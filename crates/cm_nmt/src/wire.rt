ghost use Rattle.std.specs.Prelude.{◌≡◌, ℕ, ◌+◌, ◌<◌, ◌≤◌, ◌++◌, ◌∷◌, [], List, ◌↔◌, IsFalse};
ghost use Rattle.cm_nmt.specs.declared.frame.Frame.{Frame as AFrame};

use crate::frame::Frame;

/// What NMT frames are handed to, seen as the list of the frames sent.
pub trait Wire: Drop {
    /// The frames sent, the first one first.
    ghost sent: { Self → List AFrame };

    /// How many more it takes for certain.
    ghost room_of: { Self → ℕ };

    /// How many more frames it takes for certain.
    fn room(&self) -> u32
        ensures { result ≡ room_of self.now };

    /// Whether a frame was sent on it.
    fn used(&self) -> bool
        ensures { IsFalse result ↔ (sent self.now ≡ []) };

    /// Sends a frame, which lowers the room by one at most.
    fn send(&mut self, frame: Frame)
        requires { 0 < room_of self.old }
        ensures sent { sent self.new ≡ sent self.old ++ frame ∷ [] }
        ensures room { room_of self.old ≤ room_of self.new + 1 };
}
