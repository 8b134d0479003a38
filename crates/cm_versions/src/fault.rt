use thiserror::Error;

/// Why a publisher wasn't told an entry.
#[derive(Clone, Copy, Debug, PartialEq, Eq, Error)]
pub enum TellFault {
    /// It isn't the entry that follows what the publisher was told.
    #[error("not the next entry")]
    NotNext = 1,
    /// Memory was refused.
    #[error("out of memory")]
    OutOfMemory,
}
