//! The words of `scan`.

ghost use Rattle.std.specs.Prelude.{◌≤◌, IfOk};
ghost use Rattle.canboot_cli.specs.CommandLine.{IsInRange};

use crate::command_line::{
    Action, NoAction, argument, described, listed, node_of, number_of, option, report_form,
    text_of, workers_argument,
};
use crate::explain_words::json_argument;
use crate::help_scan::{ABOUT_SCAN, HELP_SCAN, USAGE_SCAN};
use crate::live::{
    adapter_argument, answer_argument, bus_group, bus_paths, milliseconds_of, receive_argument,
    send_argument,
};
use clap::{Arg, ArgAction, ArgMatches, Command, value_parser};
use cm_bus::BusPaths;
use cm_nmt::NodeId;
use cm_report::ReportForm;
use std::alloc::{AllocError, Global};

/// What a scan of a bus is asked for.
#[derive(Clone, Copy)]
pub struct ScanWords<'a> {
    pub bus: BusPaths<'a>,
    /// The node-IDs that are asked, as they are spelled.
    pub nodes: &'a str,
    /// How many workers ask, 1 to 16.
    pub workers: u8,
    /// How long an answer is waited for, in ms, 1 to 60,000.
    pub answer_ms: u32,
    pub output: ScanOutput<'a>,
}

/// What is printed of the devices that are found.
#[derive(Clone, Copy)]
pub enum ScanOutput<'a> {
    /// A network list of them.
    List {
        /// The manager's own node-ID in it.
        own: NodeId,
        /// Whether a comment says what each one's device profile is about.
        with_profiles: bool,
    },
    /// How they differ from the network list of this path.
    Differences {
        network: &'a str,
        form: ReportForm,
    },
}

impl ScanOutput<'_> {
    /// In which form it is printed.
    pub fn form(&self) -> ReportForm {
        match self {
            ScanOutput::List { .. } => ReportForm::Text,
            ScanOutput::Differences { form, .. } => *form,
        }
    }
}

fn nodes_argument<'a>(alloc: Global) -> Arg<'a> {
    let help = "The node-IDs that are asked, as 5 or 2,5-9";
    option(alloc, "nodes", "LIST", help).default_value("1-127")
}

fn own_argument<'a>(alloc: Global) -> Arg<'a> {
    let help = "The manager's own node-ID in the list, which isn't asked, 1 to 127";
    option(alloc, "own", "ID", help)
        .value_parser(value_parser!(u8).range(1..128))
        .default_value("127")
}

fn profiles_argument<'a>(alloc: Global) -> Arg<'a> {
    let help = "Says behind each device type in a comment what its profile is about";
    argument(alloc, "device-types", help)
        .long("device-types")
        .action(ArgAction::SetTrue)
}

fn check_argument<'a>(alloc: Global) -> Result<Arg<'a>, AllocError> {
    let help = "The path of a network list: says how the devices differ from it";
    option(alloc, "check", "NET", help).conflicts_with("device-types")
}

/// The difference as JSON, where there is one.
fn form_argument<'a>(alloc: Global) -> Result<Arg<'a>, AllocError> {
    json_argument(alloc).requires_arg("check")
}

const ANSWER: &str = "How long an answer is waited for, 1 to 60000";

const WORKERS: &str = "How many workers ask, 1 to 16";

fn arguments<'a>(alloc: Global) -> Result<Vec<Arg<'a>>, AllocError> {
    listed(
        alloc,
        [
            receive_argument(alloc),
            send_argument(alloc),
            adapter_argument(alloc),
            Ok(nodes_argument(alloc)),
            Ok(own_argument(alloc)),
            Ok(profiles_argument(alloc)),
            check_argument(alloc),
            form_argument(alloc),
            Ok(answer_argument(alloc, ANSWER)),
            Ok(workers_argument(alloc, WORKERS, "8")),
        ],
    )
}

/// The words of `canboot scan`.
pub(crate) fn scan_command<'a>(alloc: Global) -> Result<Command<'a>, AllocError> {
    let arguments = arguments(alloc)?;
    let group = bus_group(alloc)?;
    described(alloc, "scan", ABOUT_SCAN, HELP_SCAN)
        .override_usage(USAGE_SCAN)
        .group(group)?
        .args(arguments)
}

/// What is printed.
fn output_of<'a>(given: &ArgMatches<'a>) -> Option<ScanOutput<'a>> {
    match given.get_str("check") {
        Some(network) => Some(ScanOutput::Differences {
            network,
            form: report_form(given),
        }),
        None => Some(ScanOutput::List {
            own: node_of(given, "own")?,
            with_profiles: given.get_flag("device-types"),
        }),
    }
}

/// What these words of `canboot scan` ask for.
pub(crate) fn scan_action<'a>(given: &ArgMatches<'a>) -> Result<Action<'a>, NoAction>
    ensures { IfOk result IsInRange }
{
    // clap gives the own node-ID's default where none is given
    let Some(output) = output_of(given) else {
        return Err(NoAction::OutOfMemory);
    };
    Ok(Action::Scan(ScanWords {
        bus: bus_paths(given),
        nodes: text_of(given, "nodes"),
        workers: number_of(given, "workers", 16),
        answer_ms: milliseconds_of(given, "answer", 1, 60_000),
        output,
    }))
}
