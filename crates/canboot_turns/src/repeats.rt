//! Which error control messages repeat what was told just before.

ghost use Rattle.std.specs.Prelude.{◌≡◌, ◌%◌, false};

use cm_nmt::NodeId;

/// For how long a message that has the byte of the one before isn't told again, in ms: a turn's time.
const REPEAT_MS: u64 = 5;

/// Of each node-ID, and one that is unused, when a message of it was told last, in ms, and with which byte.
#[derive(Drop)]
pub(crate) struct Repeats {
    times: [u64; 128],
    bytes: [u8; 128],
}

impl Repeats {
    /// Nothing was told yet.
    pub(crate) fn new() -> Repeats {
        Repeats {
            times: [0; 128],
            bytes: [0; 128],
        }
    }

    /// Whether a message with this byte repeats what was told just before of the node; else it counts as told now. A boot-up message
    /// never does, nor an answer of a guarded node whose toggle bit is turned.
    pub(crate) fn is_repeated(&mut self, node: NodeId, byte: u8, now: u64) -> bool
        ensures boot_up { byte % 128 ≡ 0 → result ≡ false }
    {
        let place = usize::from(node.get());
        if byte % 128 != 0
            && self.bytes[place] == byte
            && now.saturating_sub(self.times[place]) < REPEAT_MS
        {
            return true;
        }
        self.times[place] = now;
        self.bytes[place] = byte;
        false
    }
}
