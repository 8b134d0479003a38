//! The exit statuses of canboot.

/// The exit status of a run that did all that it was asked.
pub const DONE: u8 = 0;
/// The exit status of an input that is refused.
pub const REFUSED: u8 = 1;
/// The exit status of a wrong command line.
pub const MISUSED: u8 = 2;
/// The exit status of a failed read or write, or of want of memory.
pub const FAILED: u8 = 3;
