//! The turns of a live run: what happens is told to the watch, and the steps that it gives are made.
//!
//! A [`Watcher`] takes what has happened, shows readers a version of the history ([`open_versions`]), tells it, obeys what is typed,
//! sends what is to be sent for error control, and makes the steps of the watch as calls at the operator's seat or as boots that it hands
//! to workers, until the run is to end ([`Ending`]). The register that it asks is a [`LiveRegister`], and what
//! the threads share a [`LiveSetting`].
//!
//! What is decided is `cm_watch`'s, who makes calls `cm_crew`'s, and what is said `canboot_saying`'s.
#![tactic(auto)]

mod console;
mod ending;
mod error_control;
mod making;
mod progress;
mod publishing;
mod register;
mod repeats;
mod saying;
mod setting;
mod steps;
mod typing;
mod versions;
mod watching;

pub use ending::Ending;
pub use publishing::open_versions;
pub use register::LiveRegister;
pub use setting::LiveSetting;
pub use watching::{Inputs, Watcher};
