//! Where marks stand. Nothing is proved of their places; that they aren't on one another is tested.

ghost use Rattle.std.specs.Prelude.{◌<◌};

use crate::mark::{Label, Mark, MarkKind};
use crate::scale::Scale;
use cm_history::{Call, Entry, Orders, Phase, Reply};
use cm_netlist::Network;
use cm_nmt::{Command, Frame, NodeId, Status, Target};
use cm_sequential::{Manager, frames};
use std::alloc::{AllocError, Global};

/// How high a lane is.
const LANE: u32 = 30;
/// Where the first lane begins, from the top.
const TOP: u32 = 64;
/// Where the first column begins, from the left.
const LEFT: u32 = 96;
/// How many kinds of marks are told apart in a column of a lane.
const KINDS: usize = 6;

/// The last mark of its kind in a lane.
#[derive(Clone, Copy)]
struct Latest {
    /// Its column, if there is one.
    column: u32,
    /// Its place among the marks, counted from 1; 0: there is none.
    place: usize,
}

/// What is drawn in a lane so far.
#[derive(Clone, Copy)]
struct Lane {
    /// Where it begins, from the top.
    y: u32,
    /// The entry of the begin without a report, counted from 1; 0: there is none.
    begun: u32,
    /// Where the last letter ends, from the left.
    lettered: u32,
    latest: [Latest; KINDS],
}

/// The marks of a picture so far.
#[derive(Drop)]
pub(crate) struct Drawing {
    scale: Scale,
    /// The lane of node i at place i.
    lanes: [Lane; 128],
    /// How high all lanes are.
    height: u32,
    pub(crate) marks: Vec<Mark>,
}

const NO_LATEST: Latest = Latest {
    column: 0,
    place: 0,
};

const NO_LANE: Lane = Lane {
    y: TOP,
    begun: 0,
    lettered: 0,
    latest: [NO_LATEST; KINDS],
};

/// What the legend has samples of.
const LEGEND: [MarkKind; 15] = [
    MarkKind::Sample(0),
    MarkKind::Sample(1),
    MarkKind::Sample(4),
    MarkKind::Sample(127),
    MarkKind::Sample(5),
    MarkKind::Boot(Status::Ok),
    MarkKind::Boot(Status::B),
    MarkKind::Unreported,
    MarkKind::Ordered(Command::Start),
    MarkKind::OrderedAll(Command::Start),
    MarkKind::Held,
    MarkKind::Released,
    MarkKind::Lost,
    MarkKind::Ready,
    MarkKind::Halted,
];

/// Which kind of marks it is told apart as, below 6.
fn kind_number(kind: &MarkKind) -> usize
    ensures { result < 6 }
{
    match kind {
        MarkKind::Boot(_) => 0,
        MarkKind::Unreported => 1,
        MarkKind::Held => 2,
        MarkKind::Released => 3,
        MarkKind::Halted => 3,
        MarkKind::Ready => 2,
        MarkKind::Lost => 4,
        _ => 5,
    }
}

/// How bad it is: of two marks of one kind in one place the worse one is drawn.
fn severity(kind: &MarkKind) -> u8 {
    match kind {
        MarkKind::Boot(status) => {
            if status.is_good() {
                0
            } else if status.is_retried() {
                1
            } else {
                2
            }
        }
        _ => 0,
    }
}

/// A mark of no place yet.
fn mark_of(kind: MarkKind, entry: u32, node: u8) -> Mark {
    Mark {
        kind,
        entry,
        node,
        x: 0,
        y: 0,
        width: 2,
        height: 16,
        label: Label::Nothing,
        text_x: 0,
        text_y: 0,
    }
}

impl Drawing {
    /// A drawing without marks.
    pub(crate) fn new(alloc: Global, network: &Network, scale: Scale) -> Drawing {
        let mut lanes = [NO_LANE; 128];
        let mut y = TOP;
        for id in network.listed_ids().as_slice() {
            y = y.saturating_add(LANE);
            lanes[id.get() as usize].y = y;
        }
        let height = y.saturating_add(LANE).saturating_sub(TOP);
        Drawing {
            scale,
            lanes,
            height,
            marks: Vec::new(alloc),
        }
    }

    /// The column of an entry, counted from 1.
    fn column_of(&self, entry: u32) -> u32 {
        match entry.saturating_sub(1).checked_div(self.scale.width) {
            Some(column) => column,
            None => 0,
        }
    }

    /// Where a column begins, from the left.
    fn left_of(&self, column: u32) -> u32 {
        LEFT.saturating_add(column.saturating_mul(self.scale.pitch))
    }

    /// Puts a mark behind the others; where the last one of its kind in its lane has its column, the worse of both stays.
    /// A mark across all lanes has lane 0.
    fn put_in_lane(&mut self, mark: Mark, node: usize) -> Result<(), AllocError>
        requires { node < 128 }
    {
        let column = self.column_of(mark.entry);
        let number = kind_number(&mark.kind);
        let latest = self.lanes[node].latest[number];
        let place = latest.place;
        if place > 0 && latest.column == column && place <= self.marks.len() {
            if severity(&mark.kind) > severity(&self.marks[place - 1].kind) {
                self.marks[place - 1] = mark;
            }
            return Ok(());
        }
        self.marks.push(mark)?;
        self.lanes[node].latest[number] = Latest {
            column,
            place: self.marks.len(),
        };
        Ok(())
    }

    /// A mark in a node's lane, at its entry.
    fn put_at(&mut self, kind: MarkKind, entry: u32, id: NodeId) -> Result<(), AllocError> {
        let mut mark = mark_of(kind, entry, id.get());
        mark.x = self.left_of(self.column_of(entry));
        mark.y = self.lanes[id.get() as usize].y;
        mark.width = if self.scale.pitch < 6 { 2 } else { 4 };
        self.put_in_lane(mark, id.get() as usize)
    }

    /// A bar below a node's spans, from its begin to this entry.
    fn put_bar(&mut self, kind: MarkKind, entry: u32, id: NodeId) -> Result<(), AllocError> {
        let node = id.get() as usize;
        let lane = self.lanes[node];
        let begun = if lane.begun == 0 { entry } else { lane.begun };
        let mut mark = mark_of(kind, entry, id.get());
        mark.x = self.left_of(self.column_of(begun));
        let end = self.left_of(self.column_of(entry).saturating_add(1));
        mark.width = end.saturating_sub(mark.x).max(2);
        mark.y = lane.y.saturating_add(17);
        mark.height = 11;
        if end >= lane.lettered && mark.width >= 16 {
            mark.label = Label::Letter;
            mark.text_x = end.saturating_sub(15);
            mark.text_y = lane.y.saturating_add(26);
            self.lanes[node].lettered = end.saturating_add(4);
        }
        self.lanes[node].begun = 0;
        self.put_in_lane(mark, id.get() as usize)
    }

    /// A begin: one before it that has no report gets a bar of its own.
    fn begin(&mut self, entry: u32, id: NodeId) -> Result<(), AllocError> {
        let begun = self.lanes[id.get() as usize].begun;
        if begun != 0 {
            self.put_bar(MarkKind::Unreported, begun, id)?;
        }
        self.lanes[id.get() as usize].begun = entry;
        Ok(())
    }

    /// The marks of a call.
    fn put_call(&mut self, entry: &Entry, number: u32) -> Result<(), AllocError> {
        match (&entry.call, &entry.reply) {
            (Call::Begin(id), Reply::Begun(_)) => self.begin(number, *id),
            (Call::Report(id, _, _), Reply::Reported(status)) => {
                self.put_bar(MarkKind::Boot(*status), number, *id)
            }
            (Call::Lost(id), Reply::Noted | Reply::Handled) => {
                self.put_at(MarkKind::Lost, number, *id)
            }
            (Call::Hold(id), Reply::Done) => self.put_at(MarkKind::Held, number, *id),
            (Call::Release(id), Reply::Done) => self.put_at(MarkKind::Released, number, *id),
            _ => Ok(()),
        }
    }

    /// The tick of a frame.
    fn put_frame(&mut self, frame: &Frame, number: u32) -> Result<(), AllocError> {
        let x = self.left_of(self.column_of(number));
        match &frame.target {
            Target::Node(id) => {
                let mut mark = mark_of(MarkKind::Ordered(frame.command), number, id.get());
                mark.x = x.saturating_add(self.scale.pitch.saturating_sub(2));
                mark.y = self.lanes[id.get() as usize].y;
                self.put_in_lane(mark, id.get() as usize)
            }
            Target::All => {
                let mark = mark_of(MarkKind::OrderedAll(frame.command), number, 0);
                self.put_across(mark, x)
            }
        }
    }

    /// A line across all lanes.
    fn put_across(&mut self, mark: Mark, x: u32) -> Result<(), AllocError> {
        let mut line = mark;
        line.x = x;
        line.y = TOP;
        line.height = self.height;
        self.put_in_lane(line, 0)
    }

    /// The ticks of an entry's frames.
    fn put_orders(
        &mut self,
        network: &Network,
        orders: &Orders,
        number: u32,
    ) -> Result<(), AllocError> {
        for frame in frames(network, *orders).as_slice() {
            self.put_frame(frame, number)?;
        }
        Ok(())
    }

    /// The marks of each entry.
    pub(crate) fn put_entries(
        &mut self,
        network: &Network,
        entries: &[Entry],
    ) -> Result<(), AllocError> {
        let mut number: u32 = 0;
        for entry in entries {
            number = number.saturating_add(1);
            self.put_orders(network, &entry.orders, number)?;
            self.put_call(entry, number)?;
        }
        Ok(())
    }

    /// The line of a phase that begins in a column, with its words above the lanes.
    fn put_phase(&mut self, phase: Phase, column: u32) -> Result<(), AllocError> {
        let kind = match phase {
            Phase::Ready => MarkKind::Ready,
            Phase::Halted => MarkKind::Halted,
            _ => return Ok(()),
        };
        let last = column.saturating_add(1).saturating_mul(self.scale.width);
        let mut mark = mark_of(kind, last.min(self.scale.entries), 0);
        let x = self.left_of(column.saturating_add(1)).saturating_sub(2);
        if x >= self.lanes[0].lettered {
            mark.label = Label::Subject;
            mark.text_x = x;
            mark.text_y = TOP.saturating_sub(6);
            self.lanes[0].lettered = x.saturating_add(96);
        }
        self.put_across(mark, x)
    }

    /// The lines of the phases that begin: ready and halted.
    pub(crate) fn put_phases(&mut self, managers: &[Manager]) -> Result<(), AllocError> {
        let mut before = Phase::Idle;
        let mut column: u32 = 0;
        for manager in managers {
            let phase = manager.phase();
            if phase != before {
                self.put_phase(phase, column)?;
            }
            before = phase;
            column = column.saturating_add(1);
        }
        Ok(())
    }

    /// The numbers of entries along the top.
    pub(crate) fn put_places(&mut self, columns: u32) -> Result<(), AllocError> {
        let step = 64u32
            .checked_div(self.scale.pitch)
            .unwrap_or(0)
            .saturating_add(1);
        let mut next: u32 = 0;
        for column in 0..columns {
            if column == next {
                let entry = column.saturating_mul(self.scale.width).saturating_add(1);
                let x = self.left_of(column);
                let mut mark = mark_of(MarkKind::Place, entry, 0);
                mark.x = x;
                mark.y = 34;
                mark.width = 1;
                mark.height = 8;
                mark.label = Label::Number;
                mark.text_x = x.saturating_add(3);
                mark.text_y = 42;
                self.marks.push(mark)?;
                next = next.saturating_add(step);
            }
        }
        Ok(())
    }

    /// A sample in the legend, in this row and place of it.
    fn put_sample(&mut self, kind: MarkKind, row: u32, place: u32) -> Result<(), AllocError> {
        let mut mark = mark_of(kind, 0, 0);
        mark.x = place.saturating_mul(160).saturating_add(8);
        mark.y = TOP
            .saturating_add(self.height)
            .saturating_add(row.saturating_mul(22))
            .saturating_add(16);
        mark.width = 14;
        mark.height = 14;
        mark.label = Label::Legend;
        mark.text_x = mark.x.saturating_add(20);
        mark.text_y = mark.y.saturating_add(11);
        self.marks.push(mark)?;
        Ok(())
    }

    /// The legend, five samples in a row.
    pub(crate) fn put_legend(&mut self) -> Result<(), AllocError> {
        let mut number: u32 = 0;
        for kind in LEGEND {
            self.put_sample(kind, number / 5, number % 5)?;
            number = number.saturating_add(1);
        }
        Ok(())
    }
}
