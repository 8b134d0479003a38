//! The status report in the form that is asked for.

ghost use Rattle.std.specs.Prelude.{List, OnOk, reverse};
ghost use Rattle.std.specs.Io.KnownBytes.{Appends};
ghost use Rattle.cm_history.specs.declared.call.Entry.{Entry as AnEntry};
ghost use Rattle.cm_sequential.specs.Compact.{IsReplayOf};
ghost use Rattle.cm_sequential.specs.Standing.{Stands};
ghost use Rattle.cm_report.specs.ReportForms.{report_in};

use crate::report_form::ReportForm;
use crate::reporting::{replay_report, report_of};
use crate::reporting_json::{replay_json, report_json_of};
use cm_history::Entry;
use cm_netlist::Network;
use cm_sequential::{CompactReplay, Manager};
use std::io::{self, Write};

/// Writes the report of the history that this manager stands for, in this form: what [`report_of`] and [`report_json_of`] write.
fn report_in<W: Write>(
    form: ReportForm,
    network: &Network,
    manager: &Manager,
    entries: &[Entry],
    out: &mut W,
) -> io::Result<()>
    requires { Stands manager.now network.now (reverse entries.now) }
    ensures { OnOk result (Appends (W.contents out.old) (W.contents out.new)
        (report_in form network.now entries.now)) }
{
    match form {
        ReportForm::Text => report_of(network, manager, entries, out),
        ReportForm::Json => report_json_of(network, manager, entries, out),
    }
}

/// Writes the report in this form, and all of it. It fails only where the writer does, and then says nothing of how much was written.
pub fn put_report_in<W: Write>(
    form: ReportForm,
    network: &Network,
    manager: &Manager,
    entries: &[Entry],
    out: &mut W,
) -> io::Result<()>
    requires { Stands manager.now network.now (reverse entries.now) }
    ensures { OnOk result (Appends (W.contents out.old) (W.contents out.new)
        (report_in form network.now entries.now)) }
{
    report_in(form, network, manager, entries, out)?;
    out.flush()
}

/// Writes the report of the history that a replay is of, on its network list, in this form: what [`replay_report`] and [`replay_json`]
/// write. It fails only where the writer does, and then says nothing of how much was written.
pub fn replay_in<W: Write>(
    form: ReportForm,
    network: &Network,
    replay: &CompactReplay,
    out: &mut W,
) -> io::Result<()>
    ensures { (entries : List AnEntry) → IsReplayOf replay.now network.now entries
        → OnOk result (Appends (W.contents out.old) (W.contents out.new)
        (report_in form network.now entries)) }
{
    match form {
        ReportForm::Text => replay_report(network, replay, out),
        ReportForm::Json => replay_json(network, replay, out),
    }
}
