ghost use Rattle.std.specs.Prelude.{◌≡◌, IsTrue};
ghost use Rattle.cm_nmt.specs.Size.{is_size};

/// One write to the slave's object dictionary, of 1, 2 or 4 bytes.
#[derive(Clone, Copy, Debug, PartialEq, Eq)]
pub struct Write {
    pub index: u16,
    pub sub: u8,
    pub size: u8,
    pub value: u32,
    ghost sized: { IsTrue (is_size size) },
}

impl Write {
    ghost use Rattle.cm_nmt.specs.Write.{fits, write_with};

    /// The write of a value of this size, 1, 2 or 4 bytes.
    pub fn new(index: u16, sub: u8, size: u8, value: u32) -> Write
        requires { IsTrue (is_size size) }
        ensures { result ≡ write_with index sub size value }
    {
        Write {
            index,
            sub,
            size,
            value,
        }
    }

    /// Whether a write may have this size.
    pub fn is_size(size: u8) -> bool
        ensures { result ≡ is_size size }
    {
        size == 1 || size == 2 || size == 4
    }

    /// Whether the value fits into the write's bytes.
    pub fn fits(&self) -> bool
        ensures { result ≡ fits self.now }
    {
        let value = self.value;
        match self.size {
            1 => value < 256,
            2 => value < 65_536,
            _ => true,
        }
    }
}

/// A write of one byte 0 to object 0, which stands in the unused places of lists of fixed size.
impl Default for Write {
    ghost use Rattle.cm_nmt.specs.Write.{write_with};

    ghost is_default = { λ w. w ≡ write_with 0 0 1 0 };

    fn default() -> Write {
        Write {
            index: 0,
            sub: 0,
            size: 1,
            value: 0,
        }
    }
}
