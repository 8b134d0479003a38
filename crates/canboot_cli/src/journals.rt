//! The commands that take a journal on standard input.

use crate::command_line::{described, option};
use crate::explain_words::{explain_line_argument, json_argument};
use crate::help_mend::{ABOUT_MEND, HELP_MEND};
use crate::help_picture::{ABOUT_PICTURE, HELP_PICTURE};
use crate::help_replay::{ABOUT_REPLAY, HELP_REPLAY};
use crate::help_tell::{ABOUT_TELL, HELP_TELL};
use clap::{Arg, Command, value_parser};
use std::alloc::{AllocError, Global};

pub(crate) fn replay_command<'a>(alloc: Global) -> Result<Command<'a>, AllocError> {
    let explain = explain_line_argument(alloc).conflicts_with("json")?;
    let arguments = vec![in alloc; explain, json_argument(alloc)]?;
    described(alloc, "replay", ABOUT_REPLAY, HELP_REPLAY).args(arguments)
}

pub(crate) fn mend_command<'a>(alloc: Global) -> Command<'a> {
    described(alloc, "mend", ABOUT_MEND, HELP_MEND)
}

fn node_argument<'a>(alloc: Global) -> Arg<'a> {
    let help = "The node-ID whose calls are told, 1 to 127";
    option(alloc, "node", "ID", help).value_parser(value_parser!(u8).range(1..128))
}

pub(crate) fn tell_command<'a>(alloc: Global) -> Result<Command<'a>, AllocError> {
    let arguments = vec![in alloc; node_argument(alloc), explain_line_argument(alloc)]?;
    described(alloc, "tell", ABOUT_TELL, HELP_TELL).args(arguments)
}

pub(crate) fn picture_command<'a>(alloc: Global) -> Command<'a> {
    described(alloc, "picture", ABOUT_PICTURE, HELP_PICTURE)
}
