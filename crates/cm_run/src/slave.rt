ghost use Rattle.std.specs.Prelude.{◌≡◌};
ghost use Rattle.cm_netlist.specs.Network.{terms};
ghost use Rattle.cm_run.specs.Slaves.{answer_to, left_after, object, agreeing_with, followed};
ghost use Rattle.cm_run.specs.Slaves.{reaches, state_after, to_read, to_state, to_write};

use cm_boot::{Answer, Question};
use cm_netlist::Network;
use cm_nmt::{Command, Frame, Got, NmtState, NodeId, Target};

/// What a simulated slave answers. `NotAsked` stands for silence, and so does a value in
/// `write_fault`. An object that it doesn't have is silence too.
#[derive(Clone, Copy, Debug, PartialEq, Eq)]
pub struct SimSlave {
    /// Object 1000h, the device type.
    pub device: Got,
    /// Object 1018h sub 1 to 4: vendor-ID, product code, revision number, serial number.
    pub ids: [Got; 4],
    /// Object 1020h sub 1, the configuration date.
    pub date: Got,
    /// Object 1020h sub 2, the configuration time.
    pub time: Got,
    /// How many writes it acknowledges, counted from when it is put on a bus, and anew from each read
    /// of 1000h.
    pub write_limit: u8,
    /// What each later write gets.
    pub write_fault: Got,
    /// Whether it sends heartbeats.
    pub beats: bool,
    /// Whether it answers guard requests.
    pub guards: bool,
    /// The state that its heartbeats and guard responses give.
    pub state: NmtState,
}

/// The answer to a read.
fn to_read(got: Got) -> Answer
    ensures { result ≡ to_read got }
{
    match got {
        Got::Value(value) => Answer::Value(value),
        Got::Abort(code) => Answer::Abort(code),
        Got::Silent | Got::NotAsked => Answer::Silent,
    }
}

/// The answer to a write that isn't acknowledged.
fn to_write(got: Got) -> Answer
    ensures { result ≡ to_write got }
{
    match got {
        Got::Abort(code) => Answer::Abort(code),
        _ => Answer::Silent,
    }
}

/// Whether the frame reaches the node.
fn reaches(target: Target, id: NodeId) -> bool
    ensures { result ≡ reaches target id }
{
    match target {
        Target::All => true,
        Target::Node(node) => node == id,
    }
}

/// The state in which a command leaves a device.
fn state_after(command: Command) -> NmtState
    ensures { result ≡ state_after command }
{
    match command {
        Command::Start => NmtState::Operational,
        Command::Stop => NmtState::Stopped,
        Command::EnterPre | Command::ResetNode | Command::ResetComm => NmtState::PreOperational,
    }
}

impl SimSlave {
    /// A slave that answers each expected value of the network list, with 32 writes acknowledged,
    /// heartbeats and guard responses, in pre-operational. `None` where the node isn't listed.
    pub fn agreeing(net: &Network, id: NodeId) -> Option<SimSlave>
        ensures { result ≡ agreeing_with (terms net.now id) }
    {
        let terms = net.terms(id)?;
        Some(SimSlave {
            device: Got::Value(terms.device_type),
            ids: [
                Got::Value(terms.vendor),
                Got::Value(terms.product),
                Got::Value(terms.revision),
                Got::Value(terms.serial),
            ],
            date: Got::Value(terms.date),
            time: Got::Value(terms.time),
            write_limit: 32,
            write_fault: Got::Silent,
            beats: true,
            guards: true,
            state: NmtState::PreOperational,
        })
    }

    /// Follows an NMT command of the master, where it is the slave of this node-ID: where the frame
    /// reaches it, it is in the state that the command leaves; both resets leave pre-operational.
    pub fn follow(&mut self, id: NodeId, frame: Frame)
        ensures { self.new ≡ followed id frame self.old }
    {
        if reaches(frame.target, id) {
            self.state = state_after(frame.command);
        }
    }

    /// The object that is read.
    fn object(&self, index: u16, sub: u8) -> Got
        ensures { result ≡ object self.now index sub }
    {
        match (index, sub) {
            (0x1000, 0) => self.device,
            (0x1018, 1..=4) => self.ids[sub as usize - 1],
            (0x1020, 1) => self.date,
            (0x1020, 2) => self.time,
            _ => Got::Silent,
        }
    }

    /// Its heartbeat or guard response, where it gives one.
    fn state_given(&self, given: bool) -> Answer
        ensures { result ≡ to_state given self.now.state }
    {
        if given {
            Answer::State(self.state)
        } else {
            Answer::Silent
        }
    }

    /// Its answer to a question, where it acknowledges so many writes more.
    pub(crate) fn answer(&self, left: u8, question: Question) -> Answer
        ensures { result ≡ answer_to self.now left question }
    {
        match question {
            Question::Read(index, sub) => to_read(self.object(index, sub)),
            Question::Write(_) if left == 0 => to_write(self.write_fault),
            Question::Write(_) => Answer::Acked,
            Question::StateByGuard => self.state_given(self.guards),
            Question::StateByBeat | Question::Beat => self.state_given(self.beats),
        }
    }

    /// How many writes it acknowledges after the question.
    pub(crate) fn left_after(&self, left: u8, question: Question) -> u8
        ensures { result ≡ left_after self.now left question }
    {
        match question {
            Question::Read(0x1000, 0) => self.write_limit,
            Question::Write(_) => left.saturating_sub(1),
            _ => left,
        }
    }
}
