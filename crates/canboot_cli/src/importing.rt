//! The words of `import`.

ghost use Rattle.canboot_cli.specs.CommandLine.{IsInRange};

use crate::command_line::{Action, argument, described, node_of, option, text_of};
use crate::help_import::{ABOUT_IMPORT, HELP_IMPORT};
use clap::{Arg, ArgAction, ArgMatches, Command, value_parser};
use std::alloc::{AllocError, Global};

/// The device file's path.
fn file_argument<'a>(alloc: Global) -> Arg<'a> {
    argument(alloc, "file", "The path of the EDS or DCF")
        .value_name("FILE")
        .required(true)
}

fn id_argument<'a>(alloc: Global) -> Arg<'a> {
    let help = "The slave's node-ID, 1 to 127; a DCF has one";
    option(alloc, "id", "N", help).value_parser(value_parser!(u8).range(1..128))
}

fn mandatory_argument<'a>(alloc: Global) -> Arg<'a> {
    let help = "Lists it as a mandatory slave";
    argument(alloc, "mandatory", help)
        .long("mandatory")
        .action(ArgAction::SetTrue)
}

fn heartbeat_argument<'a>(alloc: Global) -> Arg<'a> {
    let help = "The time in which its heartbeat has to come, 0 to 65535; 0: none";
    option(alloc, "heartbeat", "MS", help)
        .value_parser(value_parser!(u16).range(0..65_536))
        .default_value("0")
}

fn first_argument<'a>(alloc: Global) -> Arg<'a> {
    let help = "Prints the first writes, of whole PDOs, 1 to 32, where there are more";
    option(alloc, "first", "N", help).value_parser(value_parser!(u8).range(1..33))
}

fn partly_argument<'a>(alloc: Global) -> Arg<'a> {
    let help = "Prints the slave also where a value can't be written";
    argument(alloc, "partly", help)
        .long("partly")
        .action(ArgAction::SetTrue)
}

pub(crate) fn import_command<'a>(alloc: Global) -> Result<Command<'a>, AllocError> {
    let arguments = vec![in alloc;
        file_argument(alloc),
        id_argument(alloc),
        mandatory_argument(alloc),
        heartbeat_argument(alloc),
        first_argument(alloc),
        partly_argument(alloc),
    ]?;
    described(alloc, "import", ABOUT_IMPORT, HELP_IMPORT).args(arguments)
}

pub(crate) fn import_action<'a>(given: &ArgMatches<'a>) -> Action<'a>
    ensures { IsInRange result }
{
    Action::Import {
        file: text_of(given, "file"),
        id: node_of(given, "id"),
        mandatory: given.get_flag("mandatory"),
        heartbeat_ms: given.get_one::<u16>("heartbeat").unwrap_or(0),
        first: given.get_one::<u8>("first"),
        is_partly: given.get_flag("partly"),
    }
}
