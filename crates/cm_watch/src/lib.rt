//! What a live run does next, told from what has happened: a value with no runtime, clock, channel, writer or register in it (own).
//!
//! A [`Watch`] is told each happening with its time, and gives the steps that are to be made: that a slave is lost, is to be
//! booted, has sent something, that time has gone by, or that the run ends; and what is to be sent for error control: the heartbeat
//! of the manager itself, and the requests of node guarding. What it gives is told by specs/ of the list of what has happened and
//! was given so far, its past. That each slave is given as lost once, that none is forgotten, and that one
//! which babbles causes at most one step in 10 s, are laws of every past. What an operator is told behind a happening is
//! [`Told`]; and when the time may be looked at, [`Pace`] says.
//!
//! What is decided of one slave stands in cm_watched, below it; how what has happened is told, in cm_telling, above it.
#![tactic(auto)]

mod course;
mod ends;
mod error_control;
mod laws;
mod looking;
mod pace;
mod pending;
mod taking;
mod telling;
mod watch;

pub use course::Course;
pub use laws::{
    beats_at_multiples, ended_once, lost_once, none_forgotten, one_in_ten_seconds, told_at_once,
    told_in_time,
};
pub use pace::Pace;
pub use telling::Told;
pub use watch::Watch;
