ghost use Rattle.std.specs.Prelude.{◌≡◌};
ghost use Rattle.cm_nmt.specs.Frames.{frame_bytes, IsFrameRead};

use crate::{Command, NodeId};

/// Whom a command is for.
#[derive(Clone, Copy, Debug, Default, PartialEq, Eq)]
pub enum Target {
    /// One node.
    Node(NodeId),
    /// Every node, written as node-ID 0.
    #[default]
    All,
}

/// An NMT message: CAN identifier 000h and two bytes (CiA 301, NMT node control).
#[derive(Clone, Copy, Debug, Default, PartialEq, Eq)]
pub struct Frame {
    pub command: Command,
    pub target: Target,
}

impl Frame {
    /// The two bytes: command specifier, node-ID.
    pub fn bytes(self) -> [u8; 2]
        ensures bytes { result ≡ frame_bytes self }
    {
        let node = match &self.target {
            Target::Node(id) => id.get(),
            Target::All => 0,
        };
        [self.command.specifier(), node]
    }

    /// The frame whose two bytes these are; `None` exactly where they are those of no frame:
    /// another length, an unknown specifier, or a node-ID above 127.
    pub fn read(bytes: &[u8]) -> Option<Frame>
        ensures exact { IsFrameRead bytes.now result }
    {
        let [specifier, node] = bytes else {
            return None;
        };
        let command = Command::from_specifier(*specifier)?;
        let target = if *node == 0 {
            Target::All
        } else {
            Target::Node(NodeId::new(*node)?)
        };
        Some(Frame { command, target })
    }
}
