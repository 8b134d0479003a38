//! The lines that a live run tells beside those of entries.

ghost use Rattle.std.specs.Prelude.{◌≡◌, Some, option_map};
ghost use Rattle.cm_words.specs.ToldLines.{back_words, bad_words, change_words, ends_words, given_up_words, halted_by, halted_words, last_words, lost_by};
ghost use Rattle.cm_words.specs.ToldLines.{left_out_words, mandatory_words, nearly_full_words, no_boot_words};
ghost use Rattle.cm_words.specs.ToldLines.{no_frames_words, running_words, stopped_words, time_over_words, times_words, unwatched_words};

use crate::nodes::{Nodes, nodes_word, run_on_words};
use cm_can::Format;
use cm_history::{Call, Entry, Reply};
use cm_netlist::Network;
use cm_nmt::{NodeId, Status};
use cm_operator::BadLine;
use cm_telling::NoBoot;
use std::fmt::{self, Display};

/// The status of the last boot, if there was one, before what follows from it.
#[derive(Drop)]
struct Last(Option<Status>);

impl Display for Last {
    ghost output = { λ l. Some (last_words l.0) };

    fn fmt<W: fmt::Write>(&self, f: &mut fmt::Formatter<W>) -> fmt::Result {
        match self.0 {
            Some(Status::B) => f.write_str("no answer, "),
            Some(status) => write!(f, "status {}, ", status.letter()),
            None => Ok(()),
        }
    }
}

/// What stands behind the number of a mandatory slave.
fn mandatory_mark(is_mandatory: bool) -> &'static str
    ensures { result.now ≡ mandatory_words is_mandatory }
{
    if is_mandatory { " (mandatory)" } else { "" }
}

/// What stands behind the number of attempts.
fn times(attempts: u8) -> &'static str
    ensures { result.now ≡ times_words attempts }
{
    if attempts == 1 { "attempt" } else { "attempts" }
}

/// That a slave isn't tried any more until its boot-up message comes.
#[derive(Drop)]
pub struct GivenUp<'a> {
    /// The network list.
    pub network: &'a Network,
    /// The slave.
    pub id: NodeId,
    /// How many boots of it were begun, at most 255.
    pub attempts: u8,
    /// The status of its last boot, if there was one.
    pub status: Option<Status>,
}

impl<'a> Display for GivenUp<'a> {
    ghost output = { λ g. Some (given_up_words g.network.now g.id g.attempts g.status) };

    fn fmt<W: fmt::Write>(&self, f: &mut fmt::Formatter<W>) -> fmt::Result {
        let number = self.id.get();
        let mandatory = mandatory_mark(self.network.mandatory(self.id));
        let last = Last(self.status);
        let attempts = self.attempts;
        let times = times(attempts);
        write!(
            f,
            "node {number}{mandatory}: {last}given up after {attempts} {times}; waiting for its boot-up message"
        )
    }
}

/// That a slave is back, while all nodes are stopped.
#[derive(Drop)]
pub(crate) struct Back(NodeId);

impl Back {
    /// That it is this slave.
    pub(crate) fn new(id: NodeId) -> Back
        ensures { result.0 ≡ id }
    {
        Back(id)
    }
}

impl Display for Back {
    ghost output = { λ b. Some (back_words b.0) };

    fn fmt<W: fmt::Write>(&self, f: &mut fmt::Formatter<W>) -> fmt::Result {
        let number = self.0.get();
        write!(
            f,
            "node {number} is back; the network is stopped: boot {number}, then start"
        )
    }
}

/// That a slave is booted that isn't watched.
#[derive(Drop)]
pub(crate) struct Unwatched(NodeId);

impl Unwatched {
    /// That it is this slave.
    pub(crate) fn new(id: NodeId) -> Unwatched
        ensures { result.0 ≡ id }
    {
        Unwatched(id)
    }
}

impl Display for Unwatched {
    ghost output = { λ u. Some (unwatched_words u.0) };

    fn fmt<W: fmt::Write>(&self, f: &mut fmt::Formatter<W>) -> fmt::Result {
        let number = self.0.get();
        write!(
            f,
            "node {number} isn't watched: it has no heartbeat time and no guard time"
        )
    }
}

/// Changes of state, so many, behind their number.
fn change_words(count: u32) -> &'static str
    ensures { result.now ≡ change_words count }
{
    if count == 1 {
        "change of state"
    } else {
        "changes of state"
    }
}

/// That so many changes of state of a node were left out.
#[derive(Drop)]
pub struct LeftOut(NodeId, u32);

impl LeftOut {
    /// That so many of this node were.
    pub fn new(id: NodeId, count: u32) -> LeftOut
        ensures node { result.0 ≡ id }
        ensures count { result.1 ≡ count }
    {
        LeftOut(id, count)
    }
}

impl Display for LeftOut {
    ghost output = { λ l. Some (left_out_words l.0 l.1) };

    fn fmt<W: fmt::Write>(&self, f: &mut fmt::Formatter<W>) -> fmt::Result {
        let number = self.0.get();
        let count = self.1;
        let changes = change_words(count);
        write!(f, "node {number}: {count} {changes}, left out")
    }
}

/// Why a slave isn't booted though its operator asks for it.
#[derive(Drop)]
pub struct NoBootOf(pub NodeId, pub NoBoot);

impl Display for NoBootOf {
    ghost output = { λ n. Some (no_boot_words n.0 n.1) };

    fn fmt<W: fmt::Write>(&self, f: &mut fmt::Formatter<W>) -> fmt::Result {
        let number = self.0.get();
        match self.1 {
            NoBoot::NotListed => write!(f, "boot {number}: the node isn't listed"),
            NoBoot::Halted => write!(f, "boot {number}: the network is halted; type start"),
            NoBoot::Held => write!(f, "boot {number}: the slave is held; release {number}"),
            NoBoot::Booted => write!(f, "boot {number}: the slave is booted already"),
        }
    }
}

/// The slave whose loss it was behind which all nodes are stopped.
#[derive(Drop)]
struct LostBy<'a>(&'a Entry);

impl<'a> Display for LostBy<'a> {
    ghost output = { λ l. Some (lost_by l.0.now.call) };

    fn fmt<W: fmt::Write>(&self, f: &mut fmt::Formatter<W>) -> fmt::Result {
        match &self.0.call {
            Call::Lost(id) => write!(f, ": node {} was lost", id.get()),
            _ => Ok(()),
        }
    }
}

/// That all nodes were stopped with this entry, and what leads back.
#[derive(Drop)]
pub(crate) struct StoppedBy<'a>(pub &'a Entry);

impl<'a> Display for StoppedBy<'a> {
    ghost output = { λ s. Some (stopped_words s.0.now) };

    fn fmt<W: fmt::Write>(&self, f: &mut fmt::Formatter<W>) -> fmt::Result {
        let by = LostBy(self.0);
        write!(
            f,
            "all nodes are stopped{by}; boot each mandatory slave that isn't booted, then start"
        )
    }
}

/// The slave whose boot came to a status with which the network was halted.
#[derive(Drop)]
struct HaltedBy<'a>(&'a Entry);

impl<'a> Display for HaltedBy<'a> {
    ghost output = { λ h. Some (halted_by h.0.now.call h.0.now.reply) };

    fn fmt<W: fmt::Write>(&self, f: &mut fmt::Formatter<W>) -> fmt::Result {
        match (&self.0.call, self.0.reply) {
            (Call::Report(id, _, _), Reply::Reported(status)) => {
                write!(f, ": node {} has status {}", id.get(), status.letter())
            }
            _ => Ok(()),
        }
    }
}

/// The nodes that run on, if there are any, or that they aren't known.
#[derive(Drop)]
struct Running<'a>(&'a Option<Nodes>);

impl<'a> Display for Running<'a> {
    ghost output = { λ r. Some (running_words (option_map (λ n. n.0.items) r.0.now)) };

    fn fmt<W: fmt::Write>(&self, f: &mut fmt::Formatter<W>) -> fmt::Result {
        match self.0 {
            None => f.write_str("; which nodes run on isn't known"),
            Some(nodes) if nodes.0.is_empty() => Ok(()),
            Some(nodes) => {
                let count = nodes.0.len();
                let (word, run_on) = (nodes_word(count), run_on_words(count));
                write!(f, "; {word} {nodes} {run_on}")
            }
        }
    }
}

/// That the network was halted with this entry, and which nodes run on, if they are known.
#[derive(Drop)]
pub(crate) struct Halted<'a> {
    pub(crate) by: &'a Entry,
    pub(crate) running: &'a Option<Nodes>,
}

impl<'a> Display for Halted<'a> {
    ghost output = { λ h. Some (halted_words h.by.now (option_map (λ n. n.0.items) h.running.now)) };

    fn fmt<W: fmt::Write>(&self, f: &mut fmt::Formatter<W>) -> fmt::Result {
        let by = HaltedBy(self.by);
        let running = Running(self.running);
        write!(
            f,
            "network halted{by}{running}; once that is mended, type start"
        )
    }
}

/// That the run ends, and which nodes run on, if they are known.
#[derive(Drop)]
pub struct RunEnds<'a>(pub &'a Option<Nodes>);

impl<'a> Display for RunEnds<'a> {
    ghost output = { λ e. Some (ends_words (option_map (λ n. n.0.items) e.0.now)) };

    fn fmt<W: fmt::Write>(&self, f: &mut fmt::Formatter<W>) -> fmt::Result {
        let running = Running(self.0);
        write!(f, "the run ends{running}")
    }
}

/// That the time for the boot of the mandatory slaves is over, and these aren't booted.
#[derive(Drop)]
pub struct TimeOver(pub Nodes);

impl Display for TimeOver {
    ghost output = { λ t. Some (time_over_words t.0.0.items) };

    fn fmt<W: fmt::Write>(&self, f: &mut fmt::Formatter<W>) -> fmt::Result {
        let word = nodes_word(self.0.0.len());
        let nodes = &self.0;
        write!(
            f,
            "boot time over: mandatory and not booted: {word} {nodes}"
        )
    }
}

/// That nothing that was read is a frame, in words.
fn no_frames_words(format: Format) -> &'static str
    ensures { result.now ≡ no_frames_words format }
{
    match format {
        Format::CanUtils => "nothing that was read is a frame: candump needs -L",
        Format::Adapter => "nothing that was read is a frame of a serial adapter",
    }
}

/// That nothing that was read is a frame, and how it is asked for.
#[derive(Drop)]
pub struct NoFrames(pub Format);

impl Display for NoFrames {
    ghost output = { λ n. Some (no_frames_words n.0) };

    fn fmt<W: fmt::Write>(&self, f: &mut fmt::Formatter<W>) -> fmt::Result {
        f.write_str(no_frames_words(self.0))
    }
}

/// What is wrong with a line of the operator; of one without words nothing.
#[derive(Drop)]
pub struct Bad(pub BadLine);

impl Display for Bad {
    ghost output = { λ b. Some (bad_words b.0) };

    fn fmt<W: fmt::Write>(&self, f: &mut fmt::Formatter<W>) -> fmt::Result {
        match self.0 {
            BadLine::Empty => Ok(()),
            BadLine::NoSuchWord => f.write_str("bad line: no such word; 'help' has them"),
            BadLine::Wants(usage) => write!(f, "bad line: it is {usage}"),
        }
    }
}

/// That so many entries are left.
#[derive(Drop)]
pub struct NearlyFull(pub u64);

impl Display for NearlyFull {
    ghost output = { λ n. Some (nearly_full_words n.0) };

    fn fmt<W: fmt::Write>(&self, f: &mut fmt::Formatter<W>) -> fmt::Result {
        write!(f, "the journal is nearly full: {} entries are left", self.0)
    }
}
