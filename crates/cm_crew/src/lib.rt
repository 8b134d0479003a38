//! Who makes calls in a live run: its operator, and the workers that boot slaves over a CAN bus.
//!
//! An [`OperatorSeat`] starts the network, and makes the calls that are typed and those of the watch. A [`Worker`] boots the slaves that
//! it is handed, in rounds of attempts ([`live_round`]), until the run is over ([`UntilOver`]); [`make_workers`], [`start_workers`] and
//! [`join_workers`] make them and their threads. [`close_heard`] closes the register with the seats of the whole [`Crew`]: in its history
//! each report's answers, but silence, were received on the bus, and each request was typed or wakes a slave.
//!
//! It stands on the bus (`cm_bus`), on what is typed (`cm_operator`), and on rounds and runs over a register (`cm_run`).
#![tactic(auto)]

mod booth;
mod closing;
mod heard_seat;
mod lookout;
mod operator_seat;
mod rounds;
mod workers;

pub use closing::{Crew, close_heard};
pub use heard_seat::HeardSeat;
pub use lookout::UntilOver;
pub use operator_seat::{OperatorSeat, TypedFault};
pub use rounds::live_round;
pub use workers::{Left, Worker, Workers, join_workers, make_workers, start_workers};
