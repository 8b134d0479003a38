ghost use Rattle.std.specs.Prelude.{◌≡◌, ◌≤◌, ◌⊎◌, IfOk};
ghost use Rattle.canboot_cli.specs.CommandLine.{IsInRange};

use crate::command_line::{
    Action, JournalPath, LivePaths, LiveWords, NoAction, WORKERS, argument, attempts_argument,
    described, journal_argument, listed, network_argument, number_of, option, report_form, text_of,
    workers_argument,
};
use crate::help_live::{ABOUT_LIVE, HELP_LIVE, USAGE_LIVE};
use clap::{Arg, ArgAction, ArgGroup, ArgMatches, Command, value_parser};
use cm_bus::BusPaths;
use std::alloc::{AllocError, Global};

pub(crate) fn receive_argument<'a>(alloc: Global) -> Result<Arg<'a>, AllocError> {
    let help = "The path from which lines of candump are read";
    option(alloc, "receive", "FILE", help).requires_arg("send")
}

pub(crate) fn send_argument<'a>(alloc: Global) -> Result<Arg<'a>, AllocError> {
    let help = "The path to which lines for canplayer are written";
    option(alloc, "send", "FILE", help).requires_arg("receive")
}

pub(crate) fn adapter_argument<'a>(alloc: Global) -> Result<Arg<'a>, AllocError> {
    let help = "The device of a serial adapter, which is read and written";
    option(alloc, "slcan", "DEVICE", help)
        .conflicts_with("receive")?
        .conflicts_with("send")
}

/// One of the two ways to reach the bus is needed.
pub(crate) fn bus_group<'a>(alloc: Global) -> Result<ArgGroup<'a>, AllocError> {
    ArgGroup::new(alloc, "bus")
        .multiple(true)
        .required(true)
        .arg("receive")?
        .arg("send")?
        .arg("slcan")
}

/// How long an answer is waited for.
pub(crate) fn answer_argument<'a>(alloc: Global, help: &'a str) -> Arg<'a> {
    option(alloc, "answer", "MS", help)
        .value_parser(value_parser!(u32).range(1..60_001))
        .default_value("300")
}

/// What the time of an answer is, in a live run.
const ANSWER: &str = "How long an SDO answer or a guard answer is waited for, 1 to 60000";

fn settle_argument<'a>(alloc: Global) -> Arg<'a> {
    let help = "How long boot-up messages are waited for behind a reset, 0 to 600000";
    option(alloc, "settle", "MS", help)
        .value_parser(value_parser!(u32).range(0..600_001))
        .default_value("1000")
}

fn heartbeat_argument<'a>(alloc: Global) -> Arg<'a> {
    let help = "How often the manager sends its heartbeat, 10 to 65535; 0: never";
    option(alloc, "heartbeat", "MS", help)
        .value_parser(value_parser!(u16).range(0..65_536))
        .default_value("0")
}

fn seconds_argument<'a>(alloc: Global) -> Arg<'a> {
    let help = "How long it runs on behind the end of the input, 0 to 31536000";
    option(alloc, "for", "SECONDS", help).value_parser(value_parser!(u32).range(0..31_536_001))
}

fn operator_argument<'a>(alloc: Global) -> Arg<'a> {
    let help = "A FIFO in which the operator's lines come, in place of standard input";
    option(alloc, "operator", "FILE", help)
}

fn sync_argument<'a>(alloc: Global) -> Result<Arg<'a>, AllocError> {
    let help = "Puts each line of the journal on the disk before its frames are sent";
    argument(alloc, "journal-sync", help)
        .long("journal-sync")
        .action(ArgAction::SetTrue)
        .requires_arg("journal")
}

fn names_argument<'a>(alloc: Global) -> Arg<'a> {
    let help = "The path of a TOML file with names of nodes, as 3 = \"hoist\"";
    option(alloc, "names", "FILE", help)
}

fn events_argument<'a>(alloc: Global) -> Arg<'a> {
    let help = "The path to which each event is written, as a JSON object a line";
    option(alloc, "events", "FILE", help)
}

fn status_argument<'a>(alloc: Global) -> Arg<'a> {
    let help = "The path of a file that has the report so far as a JSON object";
    option(alloc, "status", "FILE", help)
}

fn report_argument<'a>(alloc: Global) -> Arg<'a> {
    let help = "Prints the report as a JSON object";
    argument(alloc, "json", help)
        .long("json")
        .action(ArgAction::SetTrue)
}

fn arguments<'a>(alloc: Global) -> Result<Vec<Arg<'a>>, AllocError> {
    listed(
        alloc,
        [
            Ok(network_argument(alloc)),
            receive_argument(alloc),
            send_argument(alloc),
            adapter_argument(alloc),
            Ok(workers_argument(alloc, WORKERS, "4")),
            Ok(attempts_argument(alloc, "3")),
            Ok(answer_argument(alloc, ANSWER)),
            Ok(settle_argument(alloc)),
            Ok(heartbeat_argument(alloc)),
            Ok(seconds_argument(alloc)),
            Ok(operator_argument(alloc)),
            Ok(journal_argument(alloc)),
            sync_argument(alloc),
            Ok(names_argument(alloc)),
            Ok(events_argument(alloc)),
            Ok(status_argument(alloc)),
            Ok(report_argument(alloc)),
        ],
    )
}

/// The command with no arguments yet.
fn grouped_command<'a>(alloc: Global) -> Result<Command<'a>, AllocError> {
    let group = bus_group(alloc)?;
    described(alloc, "live", ABOUT_LIVE, HELP_LIVE)
        .override_usage(USAGE_LIVE)
        .group(group)
}

/// The words of `canboot live`.
pub(crate) fn live_command<'a>(alloc: Global) -> Result<Command<'a>, AllocError> {
    let arguments = arguments(alloc)?;
    grouped_command(alloc)?.args(arguments)
}

/// A time of this name in ms, which clap took only where it is `least` to `most`.
pub(crate) fn milliseconds_of(given: &ArgMatches<'_>, name: &str, least: u32, most: u32) -> u32
    requires { least ≤ most }
    ensures { (least ≤ result) × (result ≤ most) }
{
    match given.get_one::<u32>(name) {
        Some(number) => number.clamp(least, most),
        None => least,
    }
}

/// The least time of the manager's heartbeat, in ms.
const LEAST_HEARTBEAT_MS: u16 = 10;

/// The time of the manager's heartbeat, in ms, which is 0 or not less than that.
fn heartbeat_of(alloc: Global, given: &ArgMatches<'_>) -> Result<u16, NoAction>
    ensures { IfOk result (λ ms. (ms ≡ 0) ⊎ (10 ≤ ms)) }
{
    let ms = given.get_one::<u16>("heartbeat").unwrap_or(0);
    if ms == 0 || LEAST_HEARTBEAT_MS <= ms {
        return Ok(ms);
    }
    let text = format!(in alloc;
        "error: invalid value '{ms}' for '--heartbeat <MS>': it is 0, or 10 to 65535

For more information, try '--help'.
"
    );
    match text {
        Ok(text) => Err(NoAction::Wrong(text)),
        Err(_) => Err(NoAction::OutOfMemory),
    }
}

/// Where the bus is; clap took only one of the two ways, and all of it.
pub(crate) fn bus_paths<'a>(given: &ArgMatches<'a>) -> BusPaths<'a> {
    match given.get_str("slcan") {
        Some(device) => BusPaths::Adapter { device },
        None => BusPaths::CanUtils {
            receive: text_of(given, "receive"),
            send: text_of(given, "send"),
        },
    }
}

/// The files that these words name.
fn live_paths<'a>(given: &ArgMatches<'a>) -> LivePaths<'a> {
    LivePaths {
        network: text_of(given, "network"),
        names: given.get_str("names"),
        operator: given.get_str("operator"),
        journal: JournalPath {
            path: given.get_str("journal"),
            is_synced: given.get_flag("journal-sync"),
        },
        events: given.get_str("events"),
        status: given.get_str("status"),
    }
}

/// What these words of `canboot live` ask for.
pub(crate) fn live_action<'a>(alloc: Global, given: &ArgMatches<'a>) -> Result<Action<'a>, NoAction>
    ensures { IfOk result IsInRange }
{
    let heartbeat_ms = heartbeat_of(alloc, given)?;
    Ok(Action::Live(LiveWords {
        bus: bus_paths(given),
        paths: live_paths(given),
        workers: number_of(given, "workers", 16),
        attempts: number_of(given, "attempts", 10),
        answer_ms: milliseconds_of(given, "answer", 1, 60_000),
        settle_ms: milliseconds_of(given, "settle", 0, 600_000),
        heartbeat_ms,
        seconds: given.get_one::<u32>("for"),
        report: report_form(given),
    }))
}
