ghost use Rattle.std.specs.Prelude.{◌≡◌, ◌<◌, ◌≤◌, ◌↔◌, IsSome, IfSome, length};

/// The identifier of a CAN frame, of 11 bits.
#[derive(Clone, Copy, Debug, PartialEq, Eq)]
pub struct CanId {
    pub number: u16,
    pub ghost in_range: { number < 2048 },
}

impl CanId {
    /// The identifier of this number; `None` exactly where it has more than 11 bits.
    pub fn new(number: u16) -> Option<CanId>
        ensures range { IsSome result ↔ (number < 2048) }
        ensures value { IfSome result (λ id. id.number ≡ number) }
    {
        if number < 2048 {
            Some(CanId { number })
        } else {
            None
        }
    }
}

/// What a frame is.
#[derive(Clone, Copy, Debug, PartialEq, Eq)]
pub enum Kind {
    /// It carries bytes.
    Data,
    /// It asks for a frame of its identifier.
    Remote,
}

/// A CAN frame: the first `len` of its bytes, up to 8, are those that it carries.
#[derive(Clone, Copy, Debug, PartialEq, Eq)]
pub struct CanFrame {
    pub id: CanId,
    pub kind: Kind,
    pub len: u8,
    pub bytes: [u8; 8],
    pub ghost fits: { len ≤ 8 },
}

impl CanFrame {
    ghost use Rattle.cm_can.specs.Frames.{IsData, IsRemote, data_of};

    /// A data frame with eight bytes.
    pub fn full(id: CanId, bytes: [u8; 8]) -> CanFrame
        ensures { IsData result id.number bytes }
    {
        CanFrame {
            id,
            kind: Kind::Data,
            len: 8,
            bytes,
        }
    }

    /// A data frame with these bytes.
    pub fn with(id: CanId, carried: &[u8]) -> CanFrame
        requires { length carried.now ≤ 8 }
        ensures { IsData result id.number carried.now }
    {
        let mut bytes = [0; 8];
        bytes[..carried.len()].copy_from_slice(carried);
        CanFrame {
            id,
            kind: Kind::Data,
            len: carried.len() as u8,
            bytes,
        }
    }

    /// A remote frame.
    pub fn remote(id: CanId) -> CanFrame
        ensures { IsRemote result id.number }
    {
        CanFrame {
            id,
            kind: Kind::Remote,
            len: 0,
            bytes: [0; 8],
        }
    }

    /// The bytes that it carries.
    pub fn data(&self) -> &[u8]
        ensures value { result.now ≡ data_of self.now }
        ensures few { length result.now ≤ 8 }
    {
        &self.bytes[..usize::from(self.len)]
    }
}
