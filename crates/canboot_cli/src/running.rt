//! The words of `run`.

ghost use Rattle.std.specs.Prelude.{◌≤◌, IfOk};
ghost use Rattle.canboot_cli.specs.CommandLine.{IsInRange};

use crate::command_line::{
    Action, NoAction, WORKERS, attempts_argument, described, journal_argument, network_argument,
    number_of, option, report_form, text_of, workers_argument,
};
use crate::explain_words::{explain_fault_argument, json_argument};
use crate::help_run::{ABOUT_RUN, HELP_RUN};
use clap::{Arg, ArgAction, ArgMatches, Command};
use cm_report::ReportForm;
use std::alloc::{AllocError, Global};

/// What slaves of a run do, as it was typed; none of these texts is read here.
#[derive(Drop)]
pub struct SlaveWords<'a> {
    /// Lists of nodes that give no answer.
    pub silent: Vec<&'a str>,
    /// Values that slaves give in the place of those that are expected.
    pub wrong: Vec<&'a str>,
    /// Objects of which slaves abort each read and write.
    pub aborts: Vec<&'a str>,
    /// Lists of nodes that are lost once they are booted.
    pub dies: Vec<&'a str>,
}

/// What a run with simulated slaves is asked for.
#[derive(Drop)]
pub struct RunWords<'a> {
    /// The path of the network list.
    pub network: &'a str,
    /// How many workers boot slaves, 1 to 16.
    pub workers: u8,
    /// How often a slave is tried at most, 1 to 10.
    pub attempts: u8,
    pub slaves: SlaveWords<'a>,
    /// The path that the journal is written to, if it is.
    pub journal: Option<&'a str>,
    /// Whether it is said where the list has its fault.
    pub is_explained: bool,
    /// In which form the report is printed.
    pub report: ReportForm,
}

fn silent_argument<'a>(alloc: Global) -> Arg<'a> {
    let help = "Nodes that give no answer, as 3 or 2,5-9";
    option(alloc, "silent", "LIST", help).action(ArgAction::Append)
}

fn wrong_argument<'a>(alloc: Global) -> Arg<'a> {
    let help = "A value that a slave gives, as 3=product:999";
    option(alloc, "wrong", "ID=OBJECT:VALUE", help).action(ArgAction::Append)
}

fn aborts_argument<'a>(alloc: Global) -> Arg<'a> {
    let help = "An object of which a slave aborts each read and write, as 3=1018";
    option(alloc, "aborts", "ID=INDEX", help).action(ArgAction::Append)
}

fn dies_argument<'a>(alloc: Global) -> Arg<'a> {
    let help = "Nodes that are lost once they are booted, as 3 or 2,5-9";
    option(alloc, "dies", "LIST", help).action(ArgAction::Append)
}

pub(crate) fn run_command<'a>(alloc: Global) -> Result<Command<'a>, AllocError> {
    let arguments = vec![in alloc;
        network_argument(alloc),
        workers_argument(alloc, WORKERS, "1"),
        attempts_argument(alloc, "1"),
        silent_argument(alloc),
        wrong_argument(alloc),
        aborts_argument(alloc),
        dies_argument(alloc),
        journal_argument(alloc),
        explain_fault_argument(alloc)?,
        json_argument(alloc),
    ]?;
    described(alloc, "run", ABOUT_RUN, HELP_RUN).args(arguments)
}

/// The texts of this name, in their order.
fn texts_of<'a>(
    alloc: Global,
    given: &ArgMatches<'a>,
    name: &str,
) -> Result<Vec<&'a str>, AllocError> {
    let mut texts = Vec::new(alloc);
    if let Some(values) = given.get_strs(name) {
        for text in values {
            texts.push(*text)?;
        }
    }
    Ok(texts)
}

fn slave_words<'a>(alloc: Global, given: &ArgMatches<'a>) -> Result<SlaveWords<'a>, AllocError> {
    Ok(SlaveWords {
        silent: texts_of(alloc, given, "silent")?,
        wrong: texts_of(alloc, given, "wrong")?,
        aborts: texts_of(alloc, given, "aborts")?,
        dies: texts_of(alloc, given, "dies")?,
    })
}

pub(crate) fn run_action<'a>(alloc: Global, given: &ArgMatches<'a>) -> Result<Action<'a>, NoAction>
    ensures { IfOk result IsInRange }
{
    let Ok(slaves) = slave_words(alloc, given) else {
        return Err(NoAction::OutOfMemory);
    };
    Ok(Action::Run(RunWords {
        network: text_of(given, "network"),
        workers: number_of(given, "workers", 16),
        attempts: number_of(given, "attempts", 10),
        slaves,
        journal: given.get_str("journal"),
        is_explained: given.get_flag("explain"),
        report: report_form(given),
    }))
}
