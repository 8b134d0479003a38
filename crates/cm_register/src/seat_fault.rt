use thiserror::Error;

/// Why a read shows nothing. What the seat saw, and was told, stays as it was.
#[derive(Clone, Copy, Debug, PartialEq, Eq, Error)]
pub enum ReadFault {
    /// The target isn't 1 to 127.
    #[error("not a node-ID")]
    BadTarget = 1,
    /// Nothing is shown: the register is gone, closed or dropped. This never comes while the register
    /// is there, though no clause says so.
    #[error("no version to read")]
    NoVersion,
}
