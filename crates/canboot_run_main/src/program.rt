//! `canboot run` as a program of its own.

ghost use Rattle.std.specs.Prelude.{◌≡◌, ◌≤◌, IfErr};
ghost use Rattle.canboot_run_main.specs.Words.{AreInRange};

use canboot_faults::{FAILED, MISUSED, fault_line, read_fault};
use canboot_run::{
    Asked, Options, SlaveFaults, SlaveOption, network_of_file, refuse_run, run_network, set_fault,
};
use cm_report::ReportForm;
use std::env;
use std::io::{self, BufWriter, Write};
use std::rt::{Env, Files};
use std::sync::Wait;
use std::thread::Threads;

/// What says the option of this name of slaves.
fn slave_option(name: &str) -> Option<SlaveOption> {
    match name {
        "--silent" => Some(SlaveOption::Silent),
        "--wrong" => Some(SlaveOption::Wrong),
        "--aborts" => Some(SlaveOption::Aborts),
        "--dies" => Some(SlaveOption::Dies),
        _ => None,
    }
}

/// Sets a number of 1 to `most`, in decimal as `canboot run` takes it.
fn set_number<E: Write>(number: &mut u8, value: &str, most: u8, err: &mut E) -> Result<(), u8>
    requires { (1 ≤ number.old) × (number.old ≤ most) }
    ensures range { (1 ≤ number.new) × (number.new ≤ most) }
    ensures status { IfErr result (λ status. status ≤ 3) }
{
    match value.parse::<u8>() {
        Ok(given) if 0 < given && given <= most => {
            *number = given;
            Ok(())
        }
        _ => Err(misused(err)),
    }
}

/// Sets one option; the exit status where its words are wrong.
fn set_option<E: Write>(
    options: &mut Options,
    name: &str,
    value: &str,
    err: &mut E,
) -> Result<(), u8>
    requires { AreInRange options.old }
    ensures range { AreInRange options.new }
    ensures status { IfErr result (λ status. status ≤ 3) }
{
    match name {
        "--workers" => set_number(&mut options.workers, value, 16, err),
        "--attempts" => set_number(&mut options.attempts, value, 10, err),
        _ => match slave_option(name) {
            Some(option) => set_fault(ReportForm::Text, &mut options.faults, option, value, err),
            None => Err(misused(err)),
        },
    }
}

/// Sets what the words behind the network list ask for: options, each with its value behind it. The path that the journal is written
/// to, if it is; the exit status where the words are wrong.
fn read_options<'a, E: Write>(
    words: &'a [String],
    options: &mut Options,
    err: &mut E,
) -> Result<Option<&'a str>, u8>
    requires { AreInRange options.old }
    ensures range { AreInRange options.new }
    ensures status { IfErr result (λ status. status ≤ 3) }
{
    let mut journal = None;
    let mut left = words;
    while let [name, value, rest @ ..] = left {
        if name.as_str() == "--journal" {
            journal = Some(value.as_str());
        } else {
            set_option(options, name.as_str(), value.as_str(), err)?;
        }
        left = rest;
    }
    if left.is_empty() {
        Ok(journal)
    } else {
        Err(misused(err))
    }
}

/// Runs `canboot run NET` with its options behind it, each with its value as a word of its own, on the words of the command line,
/// with `err` for what goes to standard error, and gives the exit status: that of [`run_network`] or
/// [`refuse_run`], 2 for any other words.
pub fn run<R: Env + Files + Print + AllocGlobal + Wait + Threads + Send + Sync, E: Write>(
    rt: &R,
    err: &mut E,
) -> u8
    ensures statuses { result ≤ 3 }
{
    let args = match env::args(rt) {
        Ok(args) => args,
        Err(error) => return read_fault(err, error.kind()),
    };
    let Ok(words) = args.collect::<Vec<String>>(rt.alloc()) else {
        return fault_line(err, FAILED, "out of memory");
    };
    let Ok(mut out) = BufWriter::new(rt.alloc(), io::writer(rt)) else {
        return fault_line(err, FAILED, "out of memory");
    };
    run_words(rt, words.as_slice(), &mut out, err)
}

/// Runs it on these words, of which the first is the program's name, with these streams.
fn run_words<R: Files + AllocGlobal + Wait + Threads + Send + Sync, W: Write, E: Write>(
    rt: &R,
    words: &[String],
    out: &mut W,
    err: &mut E,
) -> u8
    ensures statuses { result ≤ 3 }
{
    match words {
        [_, command, network, rest @ ..] if command.as_str() == "run" => {
            let mut options = Options {
                workers: 1,
                attempts: 1,
                faults: SlaveFaults::none(rt.alloc()),
            };
            match read_options(rest, &mut options, err) {
                Ok(journal) => run_file(rt, network.as_str(), &options, journal, out, err),
                Err(status) => status,
            }
        }
        _ => misused(err),
    }
}

/// Runs the network of the list in the file of this path, or says why there is none.
fn run_file<R: Files + AllocGlobal + Wait + Threads + Send + Sync, W: Write, E: Write>(
    rt: &R,
    path: &str,
    options: &Options,
    journal: Option<&str>,
    out: &mut W,
    err: &mut E,
) -> u8
    requires { AreInRange options.now }
    ensures { result ≤ 3 }
{
    let asked = Asked {
        options,
        form: ReportForm::Text,
    };
    match network_of_file(rt, path, journal) {
        Ok(network) => run_network(rt, &network, asked, journal, out, err),
        Err(none) => refuse_run(ReportForm::Text, &none, err),
    }
}

/// Says which words this program has.
fn misused<E: Write>(err: &mut E) -> u8
    ensures { result ≡ 2 }
{
    fault_line(
        err,
        MISUSED,
        "this program has no command but 'run NET [--workers N] [--attempts N] [--silent LIST] [--wrong ID=OBJECT:VALUE] \
[--aborts ID=INDEX] [--dies LIST] [--journal FILE]'",
    )
}
