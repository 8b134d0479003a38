//! Where a CAN bus is.

/// Where the frames of a CAN bus come from, and where frames are sent to.
#[derive(Clone, Copy)]
pub enum BusPaths<'a> {
    /// Lines of can-utils: they are read from one path, and written to another.
    CanUtils { receive: &'a str, send: &'a str },
    /// A serial adapter (SLCAN), read and written at one path.
    Adapter { device: &'a str },
}
