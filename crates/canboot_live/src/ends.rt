//! What a live run reads and writes.

use canboot_live_files::{ReplaceFile, StatusFile};
use cm_bus::Outlet;
use cm_recorder::JournalOutput;
use cm_report::ReportForm;
use std::io::{Read, Write};

/// Of what types the ends of a live run are.
pub trait LiveIo: Send {
    /// Where frames are received.
    type Received: Read + Send + Drop + 'static;
    /// What the operator types.
    type Typed: Read + Send + Drop + 'static;
    /// Where frames are written.
    type Sent: Write + Send + Drop;
    /// Where events are written.
    type Events: Write + Send + Drop + 'static;
    /// Who puts the file of the status in the place of the one before.
    type Files: ReplaceFile + Send + Drop + 'static;
    /// Where the journal is written.
    type Journal: Write + Send + Drop;
}

/// Where other programs follow a live run.
#[derive(Drop)]
pub struct Followed<V, F> {
    /// Where each thing that is told is written as a JSON object, a line each, if it is: by a thread of its own, since whoever reads
    /// there may keep it waiting.
    pub events: Option<V>,
    /// Where the report so far is written as a JSON object, if it is: by a thread of its own, each second in which the history has
    /// grown, and at the end.
    pub status: Option<StatusFile<F>>,
}

/// Where the frames of a live run come from and go to, what its operator types, and where other programs follow it.
#[derive(Drop)]
pub struct LiveEnds<X: LiveIo> {
    /// Where frames are received.
    pub received: X::Received,
    /// What the operator types.
    pub typed: X::Typed,
    /// Where the frames of the workers are written, one for each.
    pub written: Vec<X::Sent>,
    /// Where the manager's heartbeat and the requests of node guarding are written.
    pub error_control: X::Sent,
    /// Where other programs follow it.
    pub followed: Followed<X::Events, X::Files>,
}

/// What is written of a live run while it goes on.
#[derive(Drop)]
pub struct LiveTrace<X: LiveIo> {
    /// Where the NMT messages are written. It is taken out while the run goes on.
    pub messages: Option<Outlet<X::Sent>>,
    /// By what the workers have written their requests, in their order: it is put here at the end of the run.
    pub requests: Vec<Outlet<X::Sent>>,
    /// By what was written for error control: it is put here at the end of the run.
    pub error_control: Option<Outlet<X::Sent>>,
    /// Where the journal is written, if it is.
    pub journal: JournalOutput<X::Journal>,
}

/// What a live run writes to, and gives back.
#[derive(Drop)]
pub struct LiveOutputs<X: LiveIo, O, E> {
    /// In what form the report is written.
    pub form: ReportForm,
    /// Where the report is written.
    pub out: O,
    /// Where is told what happens.
    pub err: E,
    /// What is written while the run goes on.
    pub trace: LiveTrace<X>,
}
