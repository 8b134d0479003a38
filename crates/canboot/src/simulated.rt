//! `canboot run`, as its words ask for it.

ghost use Rattle.std.specs.Prelude.{◌≡◌, ◌≤◌, IfErr};

use canboot_cli::{RunWords, SlaveWords};
use canboot_refusing::{read_fault_of, refuse_explained};
use canboot_run::{
    Asked, NoNetwork, Options, SlaveFaults, SlaveOption, network_of_file, refuse_run, run_network,
    set_fault,
};
use cm_report::ReportForm;
use std::alloc::Global;
use std::io::Write;
use std::rt::Files;
use std::sync::Wait;
use std::thread::Threads;

/// Adds what an option says that was given so often.
fn set_faults<E: Write>(
    form: ReportForm,
    faults: &mut SlaveFaults,
    option: SlaveOption,
    values: &[&str],
    err: &mut E,
) -> Result<(), u8>
    ensures { IfErr result (λ status. status ≤ 3) }
{
    for value in values {
        set_fault(form, faults, option, value, err)?;
    }
    Ok(())
}

/// What slaves do, as it was typed; the exit status where a text says nothing.
fn faults_of<E: Write>(
    form: ReportForm,
    alloc: Global,
    words: &SlaveWords<'_>,
    err: &mut E,
) -> Result<SlaveFaults, u8>
    ensures { IfErr result (λ status. status ≤ 3) }
{
    let mut faults = SlaveFaults::none(alloc);
    let given = [
        (SlaveOption::Silent, words.silent.as_slice()),
        (SlaveOption::Dies, words.dies.as_slice()),
        (SlaveOption::Wrong, words.wrong.as_slice()),
        (SlaveOption::Aborts, words.aborts.as_slice()),
    ];
    for (option, values) in given {
        set_faults(form, &mut faults, option, values, err)?;
    }
    Ok(faults)
}

/// Tells in the form that these words ask for why there is no network to run, and where they ask for it, where the list has its fault, or
/// the path of the file that can't be opened. The answer is the exit status.
fn refuse_words<E: Write>(alloc: Global, words: &RunWords<'_>, none: &NoNetwork, err: &mut E) -> u8
    ensures { result ≤ 3 }
{
    let form = words.report;
    match none {
        NoNetwork::Unopened(kind) if words.is_explained => {
            read_fault_of(form, words.network, *kind, err)
        }
        NoNetwork::Faulty { text, fault } if words.is_explained => {
            refuse_explained(form, alloc, text.as_slice(), *fault, err)
        }
        _ => refuse_run(form, none, err),
    }
}

/// `canboot run` with these words and options.
fn run_list<R: Files + AllocGlobal + Wait + Threads + Send + Sync, W: Write, E: Write>(
    rt: &R,
    words: &RunWords<'_>,
    options: &Options,
    out: &mut W,
    err: &mut E,
) -> u8
    requires workers { (1 ≤ options.now.workers) × (options.now.workers ≤ 16) }
    requires attempts { (1 ≤ options.now.attempts) × (options.now.attempts ≤ 10) }
    ensures statuses { result ≤ 3 }
{
    let asked = Asked {
        options,
        form: words.report,
    };
    match network_of_file(rt, words.network, words.journal) {
        Ok(network) => run_network(rt, &network, asked, words.journal, out, err),
        Err(none) => refuse_words(rt.alloc(), words, &none, err),
    }
}

/// `canboot run`, over the files that these words name.
pub(crate) fn run_simulated<
    R: Files + AllocGlobal + Wait + Threads + Send + Sync,
    W: Write,
    E: Write,
>(rt: &R, words: &RunWords<'_>, out: &mut W, err: &mut E) -> u8
    requires workers { (1 ≤ words.now.workers) × (words.now.workers ≤ 16) }
    requires attempts { (1 ≤ words.now.attempts) × (words.now.attempts ≤ 10) }
    ensures statuses { result ≤ 3 }
{
    let faults = match faults_of(words.report, rt.alloc(), &words.slaves, err) {
        Ok(faults) => faults,
        Err(status) => return status,
    };
    let options = Options {
        workers: words.workers,
        attempts: words.attempts,
        faults,
    };
    run_list(rt, words, &options, out, err)
}
