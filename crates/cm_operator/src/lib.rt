//! What an operator types while a network runs: lines, and what each of them asks for (own).
//!
//! A [`TypedSource`] reads what is typed, and cuts it into lines; each is a [`TypedLine`] with its place in what was typed, and a
//! [`TypedRoute`] says whom it is sent. [`read_command`] gives the [`Command`] that a line spells, or what is wrong with it
//! ([`BadLine`]). Numbers and node-IDs are those of cm_typed, calls those of cm_history; whom lines are told, and how bytes are cut into
//! lines, cm_receiving says.
#![tactic(auto)]

mod console;
mod typed_line;
mod typing;
mod verb;

pub use console::{BadLine, Command, read_command};
pub use typed_line::TypedLine;
pub use typing::{TypedCutter, TypedRoute, TypedSource};
