//! A register to be measured, and its wire.

ghost use Rattle.std.specs.Prelude.{◌≡◌, ◌+◌, ◌≤◌, IfSome, vec_len, vec_capacity};

use cm_netlist::Network;
use cm_nmt::Frame;
use cm_register::{Opened, Register, Wire};
use std::alloc::Global;

/// How many frames a call sends at most.
const MOST_FRAMES: u32 = 126;

/// A wire that keeps its frames, with room for so many more.
#[derive(Drop)]
pub struct Tape {
    sent: Vec<Frame>,
    room: u32,
    ghost fits: { vec_len sent + room ≤ vec_capacity sent },
}

impl Tape {
    pub fn new(alloc: Global, room: u32) -> Option<Tape> {
        let Ok(sent) = Vec::with_capacity(alloc, room as usize) else {
            return None;
        };
        Some(Tape { sent, room })
    }
}

impl Wire for Tape {
    ghost sent = { λ t. t.sent.items };

    ghost room_of = { λ t. t.room };

    #[inline(always)]
    fn room(&self) -> u32 {
        self.room
    }

    fn used(&self) -> bool {
        !self.sent.is_empty()
    }

    #[inline(always)]
    fn send(&mut self, frame: Frame) {
        // Taken apart and put together, since the toolchain can't prove a push of `frame` itself here.
        let Frame { command, target } = frame;
        self.room -= 1;
        self.sent.push_reserved(Frame { command, target });
    }
}

/// A register of this network with so many seats and entries, and a wire with room for all of its frames.
pub fn open_register<'n, R: AllocGlobal>(
    rt: &R,
    net: &'n Network,
    seats: u16,
    limit: u32,
) -> Option<Opened<'n, Tape>>
    ensures { IfSome result (λ o. (o.net.now ≡ net.now) × (o.seats ≡ seats)) }
{
    let tape = Tape::new(rt.alloc(), limit.saturating_add(MOST_FRAMES))?;
    let Ok(opened) = Register::open(rt.alloc(), net, seats, limit, tape) else {
        return None;
    };
    Some(opened)
}
