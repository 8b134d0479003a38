//! What a live run tells of what has happened: what of it, when, in which order, and how it is spelled (own).
//!
//! In the order of the history it comes by [`InOrder`]. What waits until its frames were handed to the wire is [`Waiting`], and what came
//! of the boots so far [`Tried`]. Which of the remarks of a bus are told, emergency messages, other masters, errors of the bus, nodes that
//! aren't listed and node-IDs that two devices have, decide [`Notices`]; of each kind at most ten lines are in any second, which is a
//! law: [`ten_a_second`].
//!
//! What is told of an entry of the history has one definition for words and events: [`BootFault`], what a boot's status says is
//! wrong, with the value that was expected and the one found; [`Starts`], what a report starts; [`NoBoot`], why a boot that was asked for
//! isn't made; and [`SpelledCall`] and [`SpelledReply`], calls and replies as a journal spells them. It stands on the watch (cm_watch,
//! cm_watched), on what a bus says (cm_can), and on the lines of a journal (cm_format).
#![tactic(auto)]

mod boot_fault;
mod bus_told;
mod hexadecimal;
mod in_order;
mod limit;
mod no_boot;
mod notices;
mod sent;
mod spelling;
mod starts;
mod told_laws;
mod tried;
mod waiting;

pub use boot_fault::{BootFault, Compared};
pub use bus_told::{BusTold, ErrorNotice};
pub use hexadecimal::{HexEight, HexFour, HexTwo};
pub use in_order::{InOrder, Placed};
pub use limit::Limit;
pub use no_boot::NoBoot;
pub use notices::{Notice, Notices};
pub use sent::Sent;
pub use spelling::{SpelledCall, SpelledReply};
pub use starts::Starts;
pub use told_laws::ten_a_second;
pub use tried::Tried;
pub use waiting::{Untold, Waiting};
