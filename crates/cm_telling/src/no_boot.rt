//! Why a boot that an operator asks for isn't made.

/// Why a slave isn't booted though its operator asks for it.
#[derive(Clone, Copy)]
pub enum NoBoot {
    /// It isn't listed.
    NotListed,
    /// The network is halted.
    Halted,
    /// An operator holds it.
    Held,
    /// It is booted already.
    Booted,
}
