use cm_nmt::{NmtState, Status, Write};

/// What a boot asks of its slave.
#[derive(Clone, Copy, Debug, PartialEq, Eq)]
pub enum Question {
    /// Read this index and sub-index of the object dictionary, by SDO upload.
    Read(u16, u8),
    /// Write this value, by SDO download.
    Write(Write),
    /// Which state does the slave's next heartbeat give?
    StateByBeat,
    /// Which state does the slave give to a guard request?
    StateByGuard,
    /// Which state does the first heartbeat give, with which error control starts?
    Beat,
}

/// What a bus gives to a question.
#[derive(Clone, Copy, Debug, PartialEq, Eq)]
pub enum Answer {
    /// The value that was read.
    Value(u32),
    /// The write was acknowledged.
    Acked,
    /// The transfer was aborted with this SDO abort code (CiA 301).
    Abort(u32),
    /// No answer came in time. What that time is, the bus knows.
    Silent,
    /// The state that the slave gave.
    State(NmtState),
}

/// What a boot does next.
#[derive(Clone, Copy, Debug, PartialEq, Eq)]
pub enum Step {
    /// It asks this question.
    Ask(Question),
    /// It has ended with this status.
    Done(Status),
}
