use thiserror::Error;

/// Why a call isn't made. Nothing has changed, and the call is in no history. They are tested in
/// this order: OutOfMemory of the seat's list, SeatStale, JournalFull, WireFull, and OutOfMemory where
/// readers can't be shown the call, which never comes, though no clause says so.
#[derive(Clone, Copy, Debug, PartialEq, Eq, Error)]
pub enum CallFault {
    /// Memory for the seat's list was refused; the call may be made again.
    #[error("out of memory")]
    OutOfMemory = 1,
    /// The history has as many entries as are allowed: no call is made any more.
    #[error("the journal is full")]
    JournalFull,
    /// The wire has no room for the frames of the call.
    #[error("the wire is full")]
    WireFull,
    /// The seat's list has another length than its entries in the history.
    #[error("the seat is stale")]
    SeatStale,
}
