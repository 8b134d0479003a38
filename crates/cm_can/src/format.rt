/// In what lines frames are written.
#[derive(Clone, Copy, Debug, PartialEq, Eq)]
pub enum Format {
    /// Those that `canplayer` reads, of the interface `can0`.
    CanUtils,
    /// Those of a serial adapter (SLCAN).
    Adapter,
}
