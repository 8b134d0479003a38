//! What is decided of one slave of a network that runs, told from what has happened so far (own).
//!
//! What has happened ([`Happening`]) and what was to be done ([`Step`]), each a [`Moment`] with its time, are a past; specs/ tells of each
//! past what is so. A [`Slave`] is what is kept of one: when it was heard, since when it is booted, who has it, what it sent that the
//! manager is to be told ([`News`]), how often it may still cause a step by itself ([`Budget`]), and when it is booted again
//! ([`Schedule`], [`Again`]). [`is_overdue`] says that it wasn't heard in time; [`guard_of`], [`is_asked_again`] and [`counts_for`] decide
//! node guarding, and [`is_beat_due`] the heartbeat of the manager itself (CiA 301).
//!
//! It is values alone, with no clock, and stands on the history of calls (cm_history), the network list (cm_netlist) and cm_nmt. What is
//! decided of the whole network stands above, in cm_watch.
#![tactic(auto)]

mod beats;
mod guarding;
mod happening;
mod schedule;
mod settings;
mod shown;
mod signals;
mod slave;
mod waking;

pub use beats::{beat_by, beat_byte, is_beat_due};
pub use guarding::{counts_for, guard_of, is_asked_again, most_silence_of};
pub use happening::{Happening, Moment, Step};
pub use schedule::{Again, Cause, Due, Schedule};
pub use settings::Settings;
pub use shown::Since;
pub use signals::{Budget, MOST_AT_ONCE, News};
pub use slave::{Slave, is_overdue, is_start};
