//! One NMT manager that threads share under one lock: its seats, its calls, one history.
//!
//! Threads hold the seats of one register, each call goes through the lock, gets one reply and stands once in one history, and where
//! the register closes, its history is one thread's. [`Register::open`] takes the network list, how many seats and entries there are
//! to be, and a [`Wire`] for the frames; [`Opened::named`] gives the register and its seats; each thread makes its calls by
//! [`Register::call`] with a seat of its own, and reads states by [`Seat::read`], without the lock and without waiting;
//! [`Register::close`] takes all seats back and gives the history, the seats' lists, the wire and the manager. [`Book`] is the same for
//! one thread.
//!
//! A [`Seat`] is of one register, which its type names ([`RunName`]). It has a number there, the list of its calls, what it saw of the
//! histories and was told, and a share of the ledger that counts the calls of all seats. What a seat needs of the others is one who
//! makes the calls ([`SharedManager`]) and one who sees the history ([`HistoryReader`]): workers and operators stand on these.
#![tactic(auto)]

mod book;
mod carrying;
mod closing;
mod compare;
mod fault;
mod made;
mod opened;
mod recorded_wire;
mod register;
mod run_name;
mod seat;
mod seat_fault;
mod shared;
mod taking;

pub use book::Book;
pub use closing::{Abandoned, BookFault, CloseKind, Closed};
pub use cm_growing::HistoryReader;
pub use cm_history::{CallFault, Recorder, Unrecorded};
pub use cm_nmt::Wire;
pub use compare::{are_apart, are_known, is_known};
pub use fault::OpenFault;
pub use made::{Made, Receipt, SeatList, Seen};
pub use opened::{NotOpened, Opened};
pub use register::{CloseFault, Register};
pub use run_name::RunName;
pub use seat::Seat;
pub use seat_fault::ReadFault;
pub use shared::SharedManager;
