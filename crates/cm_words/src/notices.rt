//! What a live run tells of what the bus says, in words.

ghost use Rattle.std.specs.Prelude.{◌≡◌, Some, OnOk};
ghost use Rattle.std.specs.Io.KnownBytes.{Appends};
ghost use Rattle.cm_netlist.specs.Network.{is_listed};
ghost use Rattle.cm_words.specs.NoticeWords.{bus_left_out_words, bytes_words, change_words, command_words, doubled_words};
ghost use Rattle.cm_words.specs.NoticeWords.{emergencies_left_out_words, emergency_words, listed_words, masters_left_out_words};
ghost use Rattle.cm_words.specs.NoticeWords.{message_words, messages_words, notice_line, notice_words, state_now_words, state_words};
ghost use Rattle.cm_words.specs.NoticeWords.{target_words};

use crate::telling::say;
use cm_can::{BusState, Emergency};
use cm_netlist::Network;
use cm_nmt::{Command, Frame, NodeId, Target};
use cm_telling::{ErrorNotice, HexFour, HexTwo, Notice};
use std::fmt::{self, Display};
use std::io::{self, Write};

/// Bytes in digits, with spaces between them.
#[derive(Drop)]
struct Bytes<'a>(&'a [u8]);

impl<'a> Display for Bytes<'a> {
    ghost output = { λ b. Some (bytes_words b.0.now) };

    fn fmt<W: fmt::Write>(&self, f: &mut fmt::Formatter<W>) -> fmt::Result {
        if let [first, rest @ ..] = self.0 {
            write!(f, "{}", HexTwo(*first))?;
            for byte in rest {
                write!(f, " {}", HexTwo(*byte))?;
            }
        }
        Ok(())
    }
}

/// What stands behind the number of a node: nothing, or that it isn't listed.
fn listed_mark(network: &Network, id: NodeId) -> &'static str
    ensures { result.now ≡ listed_words (is_listed network.now id) }
{
    if network.entry(id).is_some() {
        ""
    } else {
        " (not listed)"
    }
}

/// An emergency message of a node, in words.
#[derive(Drop)]
struct EmergencyWords<'a> {
    network: &'a Network,
    id: NodeId,
    emergency: &'a Emergency,
}

impl<'a> Display for EmergencyWords<'a> {
    ghost output = { λ e. Some (emergency_words e.network.now e.id e.emergency.now) };

    fn fmt<W: fmt::Write>(&self, f: &mut fmt::Formatter<W>) -> fmt::Result {
        let number = self.id.get();
        let mark = listed_mark(self.network, self.id);
        let code = HexFour(self.emergency.code);
        let words = self.emergency.words();
        let register = HexTwo(self.emergency.register);
        let specific = Bytes(&self.emergency.specific);
        write!(
            f,
            "node {number}{mark}: emergency {code}, {words}; error register {register}, {specific}"
        )
    }
}

/// An NMT command in words, before whom it is for.
fn command_words(command: Command) -> &'static str
    ensures { result.now ≡ command_words command }
{
    match command {
        Command::Start => "start",
        Command::Stop => "stop",
        Command::EnterPre => "enter pre-operational of",
        Command::ResetNode => "reset",
        Command::ResetComm => "reset communication of",
    }
}

/// Whom an NMT message is for.
#[derive(Drop)]
struct TargetWords(Target);

impl Display for TargetWords {
    ghost output = { λ t. Some (target_words t.0) };

    fn fmt<W: fmt::Write>(&self, f: &mut fmt::Formatter<W>) -> fmt::Result {
        match &self.0 {
            Target::Node(id) => {
                let number = id.get();
                write!(f, "node {number}")
            }
            Target::All => f.write_str("all nodes"),
        }
    }
}

/// An NMT message, its bytes and then in words.
#[derive(Drop)]
struct MessageWords(Frame);

impl Display for MessageWords {
    ghost output = { λ m. Some (message_words m.0) };

    fn fmt<W: fmt::Write>(&self, f: &mut fmt::Formatter<W>) -> fmt::Result {
        let [specifier, node] = self.0.bytes();
        let (specifier, node) = (HexTwo(specifier), HexTwo(node));
        let command = command_words(self.0.command);
        let target = TargetWords(self.0.target);
        write!(f, "{specifier} {node}, {command} {target}")
    }
}

/// The state of the CAN controller in words.
fn state_words(state: BusState) -> &'static str
    ensures { result.now ≡ state_words state }
{
    match state {
        BusState::Active => "error active",
        BusState::Warning => "error warning",
        BusState::Passive => "error passive",
        BusState::Off => "off",
        BusState::Restarted => "restarted",
    }
}

/// Messages, so many, behind their number.
fn messages_words(count: u32) -> &'static str
    ensures { result.now ≡ messages_words count }
{
    if count == 1 { "message" } else { "messages" }
}

/// That so many emergency messages of a node were left out.
#[derive(Drop)]
struct EmergenciesLeftOut(NodeId, u32);

impl Display for EmergenciesLeftOut {
    ghost output = { λ l. Some (emergencies_left_out_words l.0 l.1) };

    fn fmt<W: fmt::Write>(&self, f: &mut fmt::Formatter<W>) -> fmt::Result {
        let number = self.0.get();
        let count = self.1;
        let messages = messages_words(count);
        write!(f, "node {number}: {count} emergency {messages}, left out")
    }
}

/// That so many messages of other masters were left out.
#[derive(Drop)]
struct MastersLeftOut(u32);

impl Display for MastersLeftOut {
    ghost output = { λ l. Some (masters_left_out_words l.0) };

    fn fmt<W: fmt::Write>(&self, f: &mut fmt::Formatter<W>) -> fmt::Result {
        let count = self.0;
        let messages = messages_words(count);
        write!(f, "another NMT master: {count} {messages}, left out")
    }
}

/// Changes of the bus, so many, behind their number.
fn change_words(count: u32) -> &'static str
    ensures { result.now ≡ change_words count }
{
    if count == 1 { "change" } else { "changes" }
}

/// The state of the CAN controller now, if it was said.
#[derive(Drop)]
struct StateNow(Option<BusState>);

impl Display for StateNow {
    ghost output = { λ s. Some (state_now_words s.0) };

    fn fmt<W: fmt::Write>(&self, f: &mut fmt::Formatter<W>) -> fmt::Result {
        match self.0 {
            Some(state) => {
                let words = state_words(state);
                write!(f, "; it is {words} now")
            }
            None => Ok(()),
        }
    }
}

/// That so many changes of the bus were left out, and the state of its controller now.
#[derive(Drop)]
struct BusLeftOut(u32, Option<BusState>);

impl Display for BusLeftOut {
    ghost output = { λ l. Some (bus_left_out_words l.0 l.1) };

    fn fmt<W: fmt::Write>(&self, f: &mut fmt::Formatter<W>) -> fmt::Result {
        let count = self.0;
        let changes = change_words(count);
        let now = StateNow(self.1);
        write!(f, "bus: {count} {changes}, left out{now}")
    }
}

/// That two devices have a node-ID.
#[derive(Drop)]
struct Doubled(NodeId);

impl Display for Doubled {
    ghost output = { λ d. Some (doubled_words d.0) };

    fn fmt<W: fmt::Write>(&self, f: &mut fmt::Formatter<W>) -> fmt::Result {
        let number = self.0.get();
        write!(
            f,
            "node {number}: two devices have this node-ID: their answers to one question differ"
        )
    }
}

/// What is told of what the bus says.
#[derive(Drop)]
struct NoticeWords<'a> {
    network: &'a Network,
    notice: &'a Notice,
}

impl<'a> Display for NoticeWords<'a> {
    ghost output = { λ w. Some (notice_words w.network.now w.notice.now) };

    fn fmt<W: fmt::Write>(&self, f: &mut fmt::Formatter<W>) -> fmt::Result {
        match self.notice {
            Notice::Emergency(id, emergency) => {
                let network = self.network;
                let id = *id;
                let words = EmergencyWords {
                    network,
                    id,
                    emergency,
                };
                words.fmt(f)
            }
            Notice::EmergenciesLeftOut(id, count) => EmergenciesLeftOut(*id, *count).fmt(f),
            Notice::Master(message) => {
                let words = MessageWords(*message);
                write!(f, "another NMT master: {words}")
            }
            Notice::MastersLeftOut(count) => MastersLeftOut(*count).fmt(f),
            Notice::Unlisted(id) => {
                let number = id.get();
                write!(f, "node {number} isn't listed, and has booted up")
            }
            Notice::OwnNodeId(id) => {
                let number = id.get();
                write!(
                    f,
                    "another device has the manager's own node-ID {number}, and has booted up"
                )
            }
            Notice::Bus(ErrorNotice::Unacknowledged) => {
                f.write_str("bus: no other node acknowledges")
            }
            Notice::Bus(ErrorNotice::State(state)) => {
                let words = state_words(*state);
                write!(f, "bus: {words}")
            }
            Notice::BusLeftOut(count, state) => BusLeftOut(*count, *state).fmt(f),
            Notice::Doubled(id) => Doubled(*id).fmt(f),
        }
    }
}

/// Tells what is told of what the bus says, if something is.
pub fn say_notice<E: Write>(
    err: &mut E,
    network: &Network,
    notice: Option<Notice>,
) -> io::Result<()>
    ensures { OnOk result (Appends (E.contents err.old) (E.contents err.new) (notice_line network.now notice)) }
{
    match &notice {
        Some(notice) => say(err, &NoticeWords { network, notice }),
        None => Ok(()),
    }
}
