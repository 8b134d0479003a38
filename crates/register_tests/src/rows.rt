//! What bytes are read as, when a slave is added to a list, and what a boot asks and comes to: rows that a user of the
//! library sees, and that no file shows.

ghost use Rattle.std.specs.Prelude.{◌≡◌};

use crate::support::{node, sure, terms_of};
use arrayvec::ArrayVec;
use cm_boot::{Answer, Bus, Question, boot_slave, judge};
use cm_history::abort_code;
use cm_netlist::{NetFault, Network, SlaveEntry};
use cm_nmt::{
    Answers, Command, Frame, Got, Heard, NmtState, NodeId, Signal, Startup, Status, Target, Terms,
    Write,
};
use std::alloc::Global;
use std::process::Abort;

#[test]
fn bytes_are_frames_and_signals(rt: HostRuntime) {
    let start_all = Frame {
        command: Command::Start,
        target: Target::All,
    };
    sure(&rt, Frame::read(&[0x01, 0x00]) == Some(start_all));
    let none = [
        [0x01].as_slice(),
        [0x01, 0x80].as_slice(),
        [0x03, 0x02].as_slice(),
    ];
    for bytes in none.iter() {
        sure(&rt, Frame::read(*bytes) == None);
    }
    let operational = Signal::State(NmtState::Operational);
    sure(&rt, Signal::read(0x85) == Some(operational));
    sure(&rt, Signal::read(0x80) == Some(Signal::BootUp));
    sure(&rt, Signal::read(0x06) == None);
    sure(&rt, abort_code(12) == Some(0x0800_0022));
}

#[test]
fn a_slave_is_added_once(rt: HostRuntime) {
    let mut network = Network::new(rt.alloc(), node(&rt, 1), Startup(1), 0);
    let slave = SlaveEntry::from_terms(terms_of(0x0D), ArrayVec::new());
    sure(&rt, network.add(node(&rt, 2), slave) == Ok(()));
    let again = SlaveEntry::from_terms(terms_of(0x0D), ArrayVec::new());
    let refused = network.add(node(&rt, 2), again);
    sure(&rt, refused == Err(NetFault::DoubleSlave));
}

/// The write at this place of every list of these tests.
fn write_at(place: u8) -> Write {
    Write {
        index: 0x2000 | u16::from(place),
        sub: 1,
        size: 4,
        value: 7,
    }
}

/// A list of so many writes.
fn writes_of(count: u8) -> ArrayVec<Write, 32> {
    let mut writes = ArrayVec::new();
    for place in 0..count {
        if !writes.is_full() {
            writes.push(write_at(place));
        }
    }
    writes
}

/// A network of the manager 1 that lists node 2 with these terms.
fn network(rt: &impl Abort, alloc: Global, terms: Terms) -> Network {
    let entry = SlaveEntry::from_terms(terms, writes_of(terms.writes));
    let mut network = Network::new(alloc, node(rt, 1), Startup(1), 0);
    sure(rt, network.add(node(rt, 2), entry).is_ok());
    network
}

const DEVICE_TYPE: u32 = 0x0002_0192;

const TYPE: Answer = Answer::Value(DEVICE_TYPE);

const OPERATIONAL: Answer = Answer::State(NmtState::Operational);

const PRE_OPERATIONAL: Answer = Answer::State(NmtState::PreOperational);

const READ_TYPE: Question = Question::Read(0x1000, 0);

/// A slave that gives these answers in turn, and then none; it keeps what it was asked.
#[derive(Drop)]
struct Slave<'a> {
    script: &'a [Answer],
    asked: [Question; 48],
    count: usize,
}

impl<'a> Slave<'a> {
    fn new(script: &'a [Answer]) -> Slave<'a> {
        Slave {
            script,
            asked: [Question::Beat; 48],
            count: 0,
        }
    }

    /// The questions, in the order in which they came.
    fn asked(&self) -> &[Question] {
        self.asked.get(..self.count).unwrap_or(&[])
    }
}

impl<'a> Bus for Slave<'a> {
    ghost step = { λ before id question answer after. before ≡ before };

    fn ask(&mut self, _id: NodeId, question: Question) -> Answer {
        let answer = self.script.get(self.count).copied();
        if self.count < 48 {
            self.asked[self.count] = question;
            self.count += 1;
        }
        answer.unwrap_or(Answer::Silent)
    }
}

/// Boots node 2, and makes sure of what was asked, what was answered and the status.
fn check<R: Abort + AllocGlobal>(
    rt: &R,
    terms: Terms,
    script: &[Answer],
    asked: &[Question],
    answers: Answers,
    status: Status,
) {
    let network = network(rt, rt.alloc(), terms);
    let mut bus = Slave::new(script);
    let given = boot_slave(&mut bus, &network, node(rt, 2));
    sure(rt, bus.asked() == asked);
    sure(rt, given == answers);
    sure(rt, judge(&network, node(rt, 2), &given) == Some(status));
}

/// A slave that gave its device type, and was asked nothing else.
fn typed() -> Answers {
    Answers {
        device: Got::Value(DEVICE_TYPE),
        ..Answers::new()
    }
}

#[test]
fn an_identity_is_read_where_it_is_expected(rt: HostRuntime) {
    // no value is expected: whatever was read is right, and nothing else is read
    let any = Answers {
        device: Got::Value(0xFFFF_FFFF),
        ..Answers::new()
    };
    let script = [Answer::Value(0xFFFF_FFFF)];
    check(&rt, terms_of(0x0D), &script, &[READ_TYPE], any, Status::Ok);
    // the wrong product code ends the boot
    let mut terms = terms_of(0x05);
    terms.vendor = 0x123;
    terms.product = 0x456;
    terms.revision = 0x0001_0002;
    let script = [TYPE, Answer::Value(0x123), Answer::Value(0x457)];
    let vendor = Question::Read(0x1018, 1);
    let product = Question::Read(0x1018, 2);
    let wrong = Answers {
        ids: [
            Got::Value(0x123),
            Got::Value(0x457),
            Got::NotAsked,
            Got::NotAsked,
        ],
        ..typed()
    };
    let asked = [READ_TYPE, vendor, product];
    check(&rt, terms, &script, &asked, wrong, Status::M);
}

#[test]
fn a_slave_that_is_kept_alive_is_asked_for_its_state(rt: HostRuntime) {
    let mut terms = terms_of(0x1D);
    terms.heartbeat_ms = 100;
    let asked = [READ_TYPE, Question::StateByBeat, Question::Beat];
    let found = Answers {
        heard: Heard::State(NmtState::Operational),
        beat: Heard::State(NmtState::Operational),
        ..typed()
    };
    let script = [TYPE, OPERATIONAL, OPERATIONAL];
    check(&rt, terms, &script, &asked, found, Status::L);
    let lost = Answers {
        beat: Heard::Silent,
        ..found
    };
    let script = [TYPE, OPERATIONAL];
    check(&rt, terms, &script, &asked, lost, Status::K);
    // without a heartbeat time by a guard request
    let silent = Answers {
        heard: Heard::Silent,
        ..typed()
    };
    let asked = [READ_TYPE, Question::StateByGuard];
    check(&rt, terms_of(0x1D), &[TYPE], &asked, silent, Status::F);
}

#[test]
fn a_slave_is_asked_less(rt: HostRuntime) {
    // not to be booted: its beat alone
    let mut terms = terms_of(0x09);
    terms.heartbeat_ms = 100;
    let beat = Answers {
        beat: Heard::State(NmtState::PreOperational),
        ..Answers::new()
    };
    let script = [PRE_OPERATIONAL];
    check(&rt, terms, &script, &[Question::Beat], beat, Status::Ok);
    // software is to be verified: no configuration
    let mut terms = terms_of(0x2D);
    terms.writes = 1;
    check(&rt, terms, &[TYPE], &[READ_TYPE], typed(), Status::G);
}

#[test]
fn equal_date_and_time_need_no_write(rt: HostRuntime) {
    let mut terms = terms_of(0x0D);
    terms.date = 0x1000;
    terms.time = 1;
    terms.writes = 1;
    let date = Question::Read(0x1020, 1);
    let time = Question::Read(0x1020, 2);
    let equal = Answers {
        date: Got::Value(0x1000),
        time: Got::Value(1),
        ..typed()
    };
    let script = [TYPE, Answer::Value(0x1000), Answer::Value(1)];
    check(
        &rt,
        terms,
        &script,
        &[READ_TYPE, date, time],
        equal,
        Status::Ok,
    );
    let other = Answers {
        date: Got::Value(0x1001),
        acked: 1,
        ..typed()
    };
    let script = [TYPE, Answer::Value(0x1001), Answer::Acked];
    let asked = [READ_TYPE, date, Question::Write(write_at(0))];
    check(&rt, terms, &script, &asked, other, Status::Ok);
}

#[test]
fn writes_come_in_the_order_of_the_list(rt: HostRuntime) {
    let mut terms = terms_of(0x0D);
    terms.writes = 32;
    let mut script = [Answer::Acked; 33];
    script[0] = TYPE;
    script[32] = Answer::Abort(0x0609_0030);
    let mut asked = [READ_TYPE; 33];
    for place in 0..32u8 {
        asked[usize::from(place) + 1] = Question::Write(write_at(place));
    }
    let aborted = Answers {
        acked: 31,
        refused: Got::Abort(0x0609_0030),
        ..typed()
    };
    check(&rt, terms, &script, &asked, aborted, Status::J);
}
