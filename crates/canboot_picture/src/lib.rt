//! `canboot picture`: a picture of a journal's history.
//!
//! A picture is an SVG document in which each node has a lane, and a lane has a span for each run of columns in which the node is shown
//! in one state. Beside the spans stand marks: boots, holds, losses, frames, and where the network is ready or halted. Proved of it is
//! that it is a well-formed document, that its columns are just as many as the history takes and lie in it, and that its spans are those of
//! the states that the history shows. Where marks stand isn't.
//!
//! [`picture_text`] is over a reader and two writers. It stands on the replay of journals.
#![tactic(auto)]

mod columns;
mod drawing;
mod drawn;
mod mark;
mod marks;
mod picture;
mod picturing;
mod scale;
mod spans;
mod xml;

pub use picturing::picture_text;
