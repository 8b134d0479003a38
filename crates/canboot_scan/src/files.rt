//! The files of a scan.

ghost use Rattle.std.specs.Prelude.{◌≡◌, ◌≤◌, ◌⊎◌, IfErr};

use crate::scan::{ListForm, Scan, ScanEnds, scan_check, scan_text};
use canboot_cli::{Host, ScanOutput, ScanWords};
use canboot_faults::{FAILED, MISUSED, tell_unmade, tell_words};
use canboot_refusing::{read_fault_of, read_file, refuse_explained};
use cm_bus::{
    BusOptions, Unopened, channel_closing, channel_opening, format_of, open_bus, writers_to,
};
use cm_history::NodeSet;
use cm_netlist::{Network, list_of};
use cm_nmt::NodeId;
use cm_report::ReportForm;
use cm_typed::node_list;
use std::alloc::{AllocError, Global};
use std::fs::File;
use std::io::{BufWriter, Write};
use std::rt::Files;

/// What is printed, with the network list that what is found is compared with, if it is.
#[derive(Drop)]
enum Output {
    List(ListForm),
    Differences(Network, ReportForm),
}

/// What is printed, as the words say; the exit status where the network list can't be read.
fn read_output<R: Files + AllocGlobal, E: Write>(
    rt: &R,
    output: &ScanOutput<'_>,
    err: &mut E,
) -> Result<Output, u8>
    ensures { IfErr result (λ status. (status ≡ 1) ⊎ (status ≡ 3)) }
{
    match output {
        ScanOutput::List { own, with_profiles } => Ok(Output::List(ListForm {
            own: *own,
            with_profiles: *with_profiles,
        })),
        ScanOutput::Differences { network, form } => {
            let text = read_file(rt, *form, *network, err)?;
            let bytes = text.as_slice();
            match list_of(rt.alloc(), bytes) {
                Ok(network) => Ok(Output::Differences(network, *form)),
                Err(fault) => Err(refuse_explained(*form, rt.alloc(), bytes, fault, err)),
            }
        }
    }
}

/// The nodes that are asked, in rising order: those of the list, and with them each listed slave, but for the manager's own.
fn asked(alloc: Global, nodes: &NodeSet, output: &Output) -> Result<Vec<NodeId>, AllocError> {
    let mut asked = Vec::new(alloc);
    for number in 1..128u8 {
        if let Some(id) = NodeId::new(number) {
            if is_asked(nodes, output, id) {
                asked.push(id)?;
            }
        }
    }
    Ok(asked)
}

/// Whether this node is asked.
fn is_asked(nodes: &NodeSet, output: &Output, id: NodeId) -> bool {
    match output {
        Output::List(form) => nodes.contains(id) && id != form.own,
        Output::Differences(network, _) => {
            network.listed(id) || (nodes.contains(id) && id != network.own_id())
        }
    }
}

/// A scan over a bus that was opened.
fn scan_over<R: Host, O: Write, E: Write>(
    rt: &R,
    scan: Scan<'_, File, BufWriter<File>>,
    output: Output,
    out: &mut O,
    err: &mut E,
) -> u8
    ensures statuses { result ≤ 3 }
{
    let alloc = rt.alloc();
    match output {
        Output::List(form) => scan_text(rt, alloc, scan, form, out, err),
        Output::Differences(network, form) => scan_check(rt, alloc, &network, scan, form, out, err),
    }
}

/// `canboot scan`, over the files that these words name. A network list is read before the bus is opened. A fault is told in the form
/// in which what is found is printed.
pub fn scan_file<R: Host, O: Write, E: Write>(
    rt: &R,
    words: &ScanWords<'_>,
    out: &mut O,
    err: &mut E,
) -> u8
    ensures statuses { result ≤ 3 }
{
    let (alloc, form) = (rt.alloc(), words.output.form());
    let Some(nodes) = node_list(words.nodes.as_bytes()) else {
        let said = "--nodes has node-IDs 1 to 127, as 5 or 2,5-9";
        return tell_words(form, MISUSED, said, err);
    };
    let output = match read_output(rt, &words.output, err) {
        Ok(output) => output,
        Err(status) => return status,
    };
    let Ok(asked) = asked(alloc, &nodes, &output) else {
        return tell_words(form, FAILED, "out of memory", err);
    };
    let options = BusOptions {
        workers: words.workers,
        answer_ms: words.answer_ms,
        format: format_of(&words.bus),
    };
    let (received, mut sent) = match open_bus(rt, &words.bus) {
        Ok(opened) => opened,
        Err(Unopened { path, kind }) => return read_fault_of(form, path, kind, err),
    };
    let written = match writers_to(alloc, &sent, options.workers) {
        Ok(written) => written,
        Err(error) => return tell_unmade(form, error.kind(), err),
    };
    let scan = Scan {
        nodes: asked.as_slice(),
        options,
        ends: ScanEnds { received, written },
    };
    let _ = sent.write_all(channel_opening(options.format));
    let status = scan_over(rt, scan, output, out, err);
    let _ = sent.write_all(channel_closing(options.format));
    status
}
