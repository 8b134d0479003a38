//! What the tests of the register and its readers call and assert.

ghost use Rattle.cm_register.specs.Naming.{Names};

use arrayvec::ArrayVec;
use cm_history::{Call, CallFault, Entry, Orders, Reply};
use cm_netlist::{Network, SlaveEntry};
use cm_nmt::{Answers, Assignment, Frame, Got, NodeId, Startup, Terms};
use cm_register::{CloseKind, Closed, Opened, Receipt, Register, RunName, Seat, Seen, Wire};
use cm_run::SimWire;
use std::alloc::Global;
use std::process::Abort;
use std::sync::Wait;

// Each comparison is asserted here, since an assertion of its own in each place is long to prove.
pub(crate) fn sure(rt: &impl Abort, is_so: bool) {
    assert!(rt; is_so);
}

pub(crate) fn node(rt: &impl Abort, number: u8) -> NodeId {
    NodeId::new(number).expect(rt, "a node-ID")
}

/// The frame of these two bytes.
pub(crate) fn frame(rt: &impl Abort, bytes: [u8; 2]) -> Frame {
    Frame::read(&bytes).expect(rt, "a frame")
}

/// The entry of a call of this seat.
pub(crate) fn entry(seat: u16, call: Call, reply: Reply, orders: Orders) -> Entry {
    Entry {
        call,
        reply,
        orders,
        seat,
    }
}

/// Answers with which a slave of which no value is expected boots.
pub(crate) fn answers() -> Answers {
    Answers {
        device: Got::Value(0x0002_0192),
        ..Answers::new()
    }
}

/// Terms of this assignment, whose other fields are 0.
pub(crate) fn terms_of(assignment: u32) -> Terms {
    Terms {
        assignment: Assignment(assignment),
        device_type: 0,
        vendor: 0,
        product: 0,
        revision: 0,
        serial: 0,
        heartbeat_ms: 0,
        date: 0,
        time: 0,
        writes: 0,
    }
}

/// A slave of this assignment, whose other fields are 0.
fn slave(assignment: u32) -> SlaveEntry {
    SlaveEntry::from_terms(terms_of(assignment), ArrayVec::new())
}

/// A network of this manager with slaves of these nodes and assignments.
pub(crate) fn network(rt: &impl Abort, alloc: Global, own: u8, slaves: &[(u8, u32)]) -> Network {
    let mut network = Network::new(alloc, node(rt, own), Startup(1), 0);
    for (number, assignment) in slaves {
        let added = network.add(node(rt, *number), slave(*assignment));
        sure(rt, added.is_ok());
    }
    network
}

/// A register with so many seats and entries, whose wire has room for so many frames.
pub(crate) fn open<'n>(
    rt: &impl Abort,
    alloc: Global,
    net: &'n Network,
    seats: u16,
    limit: u32,
    room: u32,
) -> Opened<'n, SimWire> {
    let wire = SimWire::new(alloc, room).ok().expect(rt, "a wire");
    let opened = Register::open(alloc, net, seats, limit, wire);
    opened.ok().expect(rt, "a register")
}

/// The register, and its seats.
pub(crate) fn named<'n, K: RunName>(
    rt: &impl Abort,
    opened: Opened<'n, SimWire>,
) -> (Register<'n, SimWire, K>, Vec<Seat<K>>)
    requires { Names K.RunName opened }
{
    opened.named::<K>().ok().expect(rt, "named")
}

/// What a register leaves that closes with these seats.
pub(crate) fn close<W: Wire, K: RunName>(
    rt: &impl Abort,
    register: Register<W, K>,
    seats: Vec<Seat<K>>,
) -> Closed<W> {
    register.close(seats).ok().expect(rt, "closed")
}

/// Asserts that a call was made, with this place and this reply.
pub(crate) fn is_made(
    rt: &impl Abort,
    made: Result<Receipt, CallFault>,
    position: u32,
    reply: Reply,
) {
    match made {
        Ok(receipt) => sure(rt, receipt == Receipt { position, reply }),
        Err(fault) => panic!(rt; "{fault}"),
    }
}

/// Asserts that a call wasn't made, for this reason.
pub(crate) fn is_refused(rt: &impl Abort, made: Result<Receipt, CallFault>, fault: CallFault) {
    sure(rt, made.err() == Some(fault));
}

/// Asserts that a seat sees so many calls, and the node in this state.
pub(crate) fn sees<K: RunName>(
    rt: &impl Abort,
    seat: &mut Seat<K>,
    node: u8,
    count: u32,
    state: u8,
) {
    sure(rt, seat.read(node) == Ok(Seen { count, state }));
}

/// Starts the network and stops slave 5, by the first two calls.
pub(crate) fn stop_the_slave<W: Wire, K: RunName, R: Wait + Abort>(
    rt: &R,
    register: &Register<W, K>,
    seat: &mut Seat<K>,
) {
    let start = register.call(rt, seat, Call::StartNetwork);
    is_made(rt, start, 1, Reply::Started);
    let stop = register.call(rt, seat, Call::Request(5, 4));
    is_made(rt, stop, 2, Reply::Done);
}

/// Asserts that a register doesn't close with these seats, of which so many are missing, and that both
/// are handed back, which they are.
pub(crate) fn lacks_seats<'n, K: RunName>(
    rt: &impl Abort,
    register: Register<'n, SimWire, K>,
    seats: Vec<Seat<K>>,
    missing: u16,
) -> (Register<'n, SimWire, K>, Vec<Seat<K>>) {
    let given = seats.len();
    let fault = register.close(seats).err().expect(rt, "not closed");
    sure(rt, fault.kind == CloseKind::SeatsMissing(missing));
    sure(rt, fault.seats.len() == given);
    (fault.register, fault.seats)
}
