ghost use Rattle.std.specs.Prelude.{◌≡◌, [], IfOk};

use crate::frame::Frame;
use crate::wire::Wire;
use std::alloc::{AllocError, Global};
use std::marker::Model;

/// The frames sent, in memory that is taken when it is made: a wire on which they are kept and go nowhere. Contracts see the
/// frames and the room for more.
#[derive(Drop)]
pub struct KeptFrames {
    sent: Vec<Frame>,
    room: u32,
}

impl Model for KeptFrames {
    ghost use Rattle.std.specs.Prelude.{◌+◌, ◌≤◌, vec_capacity, vec_len};
    ghost use Rattle.cm_nmt.specs.Kept.{KeptView};

    ghost Value = { KeptView };

    ghost view = { λ w. record { sent = w.sent.items; room = w.room } };

    ghost invariant = { λ w. vec_len w.sent + w.room ≤ vec_capacity w.sent };
}

impl KeptFrames {
    /// None was sent, and there is room for this many.
    pub fn new(alloc: Global, room: u32) -> Result<KeptFrames, AllocError>
        ensures unused { IfOk result (λ w. w.sent ≡ []) }
        ensures room { IfOk result (λ w. w.room ≡ room) }
    {
        let sent = Vec::with_capacity(alloc, room as usize)?;
        Ok(KeptFrames { sent, room })
    }

    /// The frames sent, the first one first.
    pub fn sent(&self) -> &[Frame]
        ensures { result.now ≡ self.now.sent }
    {
        self.sent.as_slice()
    }
}

impl Wire for KeptFrames {
    ghost sent = { λ w. w.sent };

    ghost room_of = { λ w. w.room };

    fn room(&self) -> u32 {
        self.room
    }

    fn used(&self) -> bool {
        !self.sent.is_empty()
    }

    fn send(&mut self, frame: Frame) {
        self.room -= 1;
        // Taken apart and put together, since the check refuses the frame as it is.
        let Frame { command, target } = frame;
        self.sent.push_reserved(Frame { command, target });
    }
}
