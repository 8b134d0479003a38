ghost use Rattle.std.specs.Prelude.{◌≤◌, IfOk};
ghost use Rattle.canboot_cli.specs.CommandLine.{IsInRange};

use crate::explain_words::{explain_argument, json_argument};
use crate::help::{ABOUT, AFTER};
use crate::help_check::{ABOUT_CHECK, HELP_CHECK};
use crate::importing::{import_action, import_command};
use crate::journals::{mend_command, picture_command, replay_command, tell_command};
use crate::live::{live_action, live_command};
use crate::running::{RunWords, run_action, run_command};
use crate::scanning::{ScanWords, scan_action, scan_command};
use clap::error::ErrorKind;
use clap::{Arg, ArgMatches, Command, Error, value_parser};
use cm_bus::BusPaths;
use cm_nmt::NodeId;
use cm_report::ReportForm;
use std::alloc::{AllocError, Global};

/// What a live run writes its journal to, and how.
#[derive(Clone, Copy)]
pub struct JournalPath<'a> {
    /// The path of its file, if it is written.
    pub path: Option<&'a str>,
    /// Whether each line is put on the disk before its frames are sent.
    pub is_synced: bool,
}

/// The files of a live run, besides those of the bus.
#[derive(Clone, Copy)]
pub struct LivePaths<'a> {
    /// The network list.
    pub network: &'a str,
    /// The TOML file with names of nodes, if there is one.
    pub names: Option<&'a str>,
    /// The FIFO in which the operator's lines come; none: standard input.
    pub operator: Option<&'a str>,
    pub journal: JournalPath<'a>,
    /// To what each thing that is told is written as a JSON object, if it is.
    pub events: Option<&'a str>,
    /// The file that has the report so far as a JSON object, if there is one.
    pub status: Option<&'a str>,
}

/// What a live run is asked for.
#[derive(Clone, Copy)]
pub struct LiveWords<'a> {
    pub bus: BusPaths<'a>,
    pub paths: LivePaths<'a>,
    /// How many workers boot slaves, 1 to 16.
    pub workers: u8,
    /// How often a slave is tried at most, 1 to 10.
    pub attempts: u8,
    /// How long an SDO answer or a guard answer is waited for, in ms, 1 to 60,000.
    pub answer_ms: u32,
    /// How long boot-up messages are waited for behind a reset, in ms, 0 to 600,000.
    pub settle_ms: u32,
    /// How often the manager sends its own heartbeat, in ms, 10 to 65,535; 0: it sends none.
    pub heartbeat_ms: u16,
    /// How long the run goes on behind the end of the operator's input, in seconds, up to 31,536,000; none: until it ends otherwise.
    pub seconds: Option<u32>,
    /// In which form the report is printed at the end.
    pub report: ReportForm,
}

/// What is printed of a network list that has no fault.
#[derive(Clone, Copy)]
pub enum CheckOutput {
    /// The line that says how many slaves it lists.
    Line,
    /// That line, and in words what the list comes to and what it is warned of.
    Words,
    /// What the line says, as a JSON object.
    Json,
}

/// What is printed of a journal.
#[derive(Clone, Copy)]
pub enum ReplayOutput {
    /// Its report as lines.
    Text,
    /// That, and where it has a fault, what the line was expected to be.
    Words,
    /// Its report as a JSON object.
    Json,
}

/// What the command line asks for.
#[derive(Drop)]
pub enum Action<'a> {
    /// Read the network list of this path, and print how many slaves it lists.
    Check {
        network: &'a str,
        output: CheckOutput,
    },
    /// Ask the devices on a CAN bus what they are, and print a network list of them, or how they differ from one.
    Scan(ScanWords<'a>),
    /// Read the device file of this path, and print the slave of a network list that it gives.
    Import {
        file: &'a str,
        /// Its node-ID, in the place of the one that the file has.
        id: Option<NodeId>,
        /// Whether it is mandatory.
        mandatory: bool,
        /// The time in ms in which its heartbeat has to come, 0 for none.
        heartbeat_ms: u16,
        /// How many of its first writes are printed at most, where there may be more.
        first: Option<u8>,
        /// Whether it is printed where a value of the file is no write.
        is_partly: bool,
    },
    /// Boot the network of a list with simulated slaves, print the report, and write the journal, if there is a path for it.
    Run(RunWords<'a>),
    /// Boot a network on a CAN bus and watch it, print the report, and write the journal, if there is a path for it.
    Live(LiveWords<'a>),
    /// Read a journal, and print its report.
    Replay(ReplayOutput),
    /// Read a journal that a crash may have torn, and print it whole.
    Mend,
    /// Read a journal, and print its history in words.
    Tell {
        /// The node whose calls are told; none: all.
        node: Option<NodeId>,
        /// Whether it is said what a line with a fault was expected to be.
        is_explained: bool,
    },
    /// Read a journal, and print a picture of its history.
    Picture,
}

/// Why a command line asks for no run.
#[derive(Drop)]
pub enum NoAction {
    /// It asks for this text: help, or the version.
    Shown(String),
    /// It is wrong, as this text says.
    Wrong(String),
    /// Memory was refused.
    OutOfMemory,
}

/// The name in help, usage and version, whatever file the program lies in.
const NAME: &str = "canboot";

const VERSION: &str = "0.1.0";

/// A list of these items, if there was memory for each.
pub(crate) fn listed<T: Drop, const N: usize>(
    alloc: Global,
    items: [Result<T, AllocError>; N],
) -> Result<Vec<T>, AllocError> {
    Vec::from_array(alloc, items)?
        .into_iter()
        .try_collect(alloc)
}

/// An argument of this name.
pub(crate) fn argument<'a>(alloc: Global, name: &'a str, help: &'a str) -> Arg<'a> {
    Arg::new(alloc, name).help(help)
}

/// An option of this name, with a value.
pub(crate) fn option<'a>(alloc: Global, name: &'a str, value: &'a str, help: &'a str) -> Arg<'a> {
    argument(alloc, name, help).long(name).value_name(value)
}

/// The network list's path.
pub(crate) fn network_argument<'a>(alloc: Global) -> Arg<'a> {
    argument(alloc, "network", "The path of the network list")
        .value_name("NET")
        .required(true)
}

/// What the number of workers is, where they boot slaves.
pub(crate) const WORKERS: &str = "How many workers boot slaves, 1 to 16";

/// How many workers there are; so many, unless it is given.
pub(crate) fn workers_argument<'a>(alloc: Global, help: &'a str, unless_given: &'a str) -> Arg<'a> {
    option(alloc, "workers", "N", help)
        .value_parser(value_parser!(u8).range(1..17))
        .default_value(unless_given)
}

/// How many attempts a slave has at most; so many, unless it is given.
pub(crate) fn attempts_argument<'a>(alloc: Global, unless_given: &'a str) -> Arg<'a> {
    let help = "How often a slave is tried at most, 1 to 10";
    option(alloc, "attempts", "N", help)
        .value_parser(value_parser!(u8).range(1..11))
        .default_value(unless_given)
}

/// The journal's path.
pub(crate) fn journal_argument<'a>(alloc: Global) -> Arg<'a> {
    let help = "The path to which the journal is written";
    option(alloc, "journal", "FILE", help)
}

/// A command of this name, with its short and its long help.
pub fn described<'a>(alloc: Global, name: &'a str, about: &'a str, help: &'a str) -> Command<'a> {
    Command::new(alloc, name).about(about).long_about(help)
}

fn check_command<'a>(alloc: Global) -> Result<Command<'a>, AllocError> {
    let arguments = vec![in alloc;
        network_argument(alloc),
        explain_argument(alloc)?,
        json_argument(alloc),
    ]?;
    described(alloc, "check", ABOUT_CHECK, HELP_CHECK).args(arguments)
}

fn subcommands<'a>(alloc: Global) -> Result<Vec<Command<'a>>, AllocError> {
    listed(
        alloc,
        [
            check_command(alloc),
            scan_command(alloc),
            import_command(alloc),
            run_command(alloc),
            live_command(alloc),
            replay_command(alloc),
            Ok(mend_command(alloc)),
            tell_command(alloc),
            Ok(picture_command(alloc)),
        ],
    )
}

/// The command with no subcommands yet.
fn bare_command<'a>(alloc: Global) -> Result<Command<'a>, AllocError> {
    Command::new(alloc, NAME)
        .version(VERSION)
        .about(ABOUT)
        .after_help(AFTER)
        .subcommand_required(true)
        .bin_name(NAME)
}

fn command<'a>(alloc: Global) -> Result<Command<'a>, AllocError> {
    let subcommands = subcommands(alloc)?;
    bare_command(alloc)?.subcommands(subcommands)
}

/// The text of this name, which clap found.
pub(crate) fn text_of<'a>(given: &ArgMatches<'a>, name: &str) -> &'a str {
    given.get_str(name).unwrap_or("")
}

/// A number of this name, which clap took only where it is 1 to `most`.
pub(crate) fn number_of(given: &ArgMatches<'_>, name: &str, most: u8) -> u8
    requires { 1 ≤ most }
    ensures { (1 ≤ result) × (result ≤ most) }
{
    match given.get_one::<u8>(name) {
        Some(number) => number.clamp(1, most),
        None => 1,
    }
}

/// The node of this name, if one is given.
pub(crate) fn node_of(given: &ArgMatches<'_>, name: &str) -> Option<NodeId> {
    given.get_one::<u8>(name).and_then(NodeId::new)
}

fn check_output(given: &ArgMatches<'_>) -> CheckOutput {
    if given.get_flag("explain") {
        CheckOutput::Words
    } else if given.get_flag("json") {
        CheckOutput::Json
    } else {
        CheckOutput::Line
    }
}

fn replay_output(given: &ArgMatches<'_>) -> ReplayOutput {
    if given.get_flag("explain") {
        ReplayOutput::Words
    } else if given.get_flag("json") {
        ReplayOutput::Json
    } else {
        ReplayOutput::Text
    }
}

pub(crate) fn report_form(given: &ArgMatches<'_>) -> ReportForm {
    if given.get_flag("json") {
        ReportForm::Json
    } else {
        ReportForm::Text
    }
}

fn action_of<'a>(alloc: Global, matches: &ArgMatches<'a>) -> Result<Action<'a>, NoAction>
    ensures { IfOk result IsInRange }
{
    let Some((name, given)) = matches.subcommand() else {
        return Ok(Action::Replay(ReplayOutput::Text));
    };
    match name {
        "check" => Ok(Action::Check {
            network: text_of(given, "network"),
            output: check_output(given),
        }),
        "scan" => scan_action(given),
        "import" => Ok(import_action(given)),
        "run" => run_action(alloc, given),
        "live" => live_action(alloc, given),
        "mend" => Ok(Action::Mend),
        "tell" => Ok(Action::Tell {
            node: node_of(given, "node"),
            is_explained: given.get_flag("explain"),
        }),
        "picture" => Ok(Action::Picture),
        _ => Ok(Action::Replay(replay_output(given))),
    }
}

/// A command that takes a journal on standard input, where a path is typed behind it, and that path.
fn typed_path(words: &[String]) -> Option<(&str, &str)> {
    let [_, command, rest @ ..] = words else {
        return None;
    };
    let command = command.as_str();
    if !matches!(command, "replay" | "mend" | "tell" | "picture") {
        return None;
    }
    let mut is_value = false;
    for word in rest {
        let word = word.as_str();
        if !is_value && !word.starts_with('-') {
            return Some((command, word));
        }
        is_value = word == "--node";
    }
    None
}

/// What `clap` says, and behind it how a journal is read, where its path is typed for a word that the command doesn't take.
fn text_of_error(alloc: Global, error: &Error, words: &[String]) -> Result<String, AllocError> {
    match typed_path(words) {
        Some((command, path)) if error.kind() == ErrorKind::UnknownArgument => {
            format!(in alloc;
                "{error}A journal is read on standard input: canboot {command} < {path}\n"
            )
        }
        _ => format!(in alloc; "{error}"),
    }
}

/// What `clap` says of these words where it gives no matches.
fn no_action_of(alloc: Global, error: &Error, words: &[String]) -> NoAction {
    if error.kind() == ErrorKind::OutOfMemory {
        return NoAction::OutOfMemory;
    }
    match text_of_error(alloc, error, words) {
        Ok(text) => {
            if error.use_stderr() {
                NoAction::Wrong(text)
            } else {
                NoAction::Shown(text)
            }
        }
        Err(_) => NoAction::OutOfMemory,
    }
}

/// Reads the words of a command line; the first is the program's name. The numbers of a run are those
/// that were given, or those that its help names; where they aren't in range, the command line is
/// wrong. So it is where a live run's words don't say one of the two ways to reach a bus.
pub fn read_words<'a>(alloc: Global, words: &'a [String]) -> Result<Action<'a>, NoAction>
    ensures range { IfOk result IsInRange }
{
    let parsed = match command(alloc) {
        Ok(command) => command.try_get_matches_from(words),
        Err(_) => return Err(NoAction::OutOfMemory),
    };
    match parsed {
        Ok(matches) => action_of(alloc, &matches),
        Err(error) => Err(no_action_of(alloc, &error, words)),
    }
}
