//! The options of several commands that say more than a line, or the same for other programs.

use crate::command_line::argument;
use clap::{Arg, ArgAction};
use std::alloc::{AllocError, Global};

fn explain<'a>(alloc: Global, help: &'a str) -> Arg<'a> {
    argument(alloc, "explain", help)
        .long("explain")
        .action(ArgAction::SetTrue)
}

/// What the list of `check` comes to.
pub(crate) fn explain_argument<'a>(alloc: Global) -> Result<Arg<'a>, AllocError> {
    let help = "Says what the list comes to and is warned of, or where its fault is";
    explain(alloc, help).conflicts_with("json")
}

/// Where a network list has its fault, of any other command.
pub(crate) fn explain_fault_argument<'a>(alloc: Global) -> Result<Arg<'a>, AllocError> {
    let help = "Says behind the line of a fault where it is, and what is allowed there";
    explain(alloc, help).conflicts_with("json")
}

/// What a line of a journal that has a fault was expected to be.
pub(crate) fn explain_line_argument<'a>(alloc: Global) -> Arg<'a> {
    let help = "Says behind the line of a fault what was expected there";
    explain(alloc, help)
}

pub(crate) fn json_argument<'a>(alloc: Global) -> Arg<'a> {
    let help = "Prints a JSON object, and a fault as one too";
    argument(alloc, "json", help)
        .long("json")
        .action(ArgAction::SetTrue)
}
