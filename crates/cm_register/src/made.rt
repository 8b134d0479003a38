use cm_history::{Call, Reply};

/// A call that a seat made: its place in the history, counted from 1, and its reply.
#[derive(Clone, Copy, Debug, PartialEq, Eq)]
pub struct Made {
    pub position: u32,
    pub call: Call,
    pub reply: Reply,
}

/// What a call is answered with: its place in the history, counted from 1, and its reply.
#[derive(Clone, Copy, Debug, PartialEq, Eq)]
pub struct Receipt {
    pub position: u32,
    pub reply: Reply,
}

/// What a read shows: of how many entries the history was that it saw, and the state of the node
/// after them, as object 1F82h reads it.
#[derive(Clone, Copy, Debug, PartialEq, Eq)]
pub struct Seen {
    pub count: u32,
    pub state: u8,
}

/// The calls of one seat, in order, once its register is closed.
#[derive(Drop)]
pub struct SeatList {
    pub number: u16,
    pub made: Vec<Made>,
}
