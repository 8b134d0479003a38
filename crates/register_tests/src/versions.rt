//! Versions of a register's history: they are published in batches, while threads make calls and one looks.

ghost use Rattle.std.specs.Prelude.{◌≡◌};
ghost use Rattle.cm_register.specs.Naming.{Names};

use crate::support::{is_made, named, network, node, open, sure};
use cm_growing::Past;
use cm_history::{Call, Entry, Reply};
use cm_netlist::Network;
use cm_register::{Opened, Register, RunName, Seat};
use cm_report::report;
use cm_run::SimWire;
use cm_versions::{Publisher, VersionReader};
use std::alloc::Global;
use std::marker::Brand;
use std::process::Abort;
use std::sync::Wait;
use std::sync::atomic::{AtomicU32, Ordering};
use std::thread;
use std::thread::Threads;

/// How many calls each of two seats makes, behind the start of the network.
const CALLS: u32 = 300;

/// How many calls are made.
const ENTRIES: u32 = 601;

/// How many entries are taken at once at most.
const BATCH: usize = 16;

/// What a seat calls: the first one stops slave 5, the other reads its state.
fn call_of(seat: u16) -> Call {
    match seat {
        1 => Call::Request(5, 4),
        _ => Call::Read(5),
    }
}

/// Makes the call of the seat, again and again.
fn call_often<K: RunName, R: Wait + Abort>(
    rt: &R,
    register: &Register<SimWire, K>,
    seat: &mut Seat<K>,
    callers: &AtomicU32,
) {
    for _ in 0..CALLS {
        let call = call_of(seat.number());
        sure(rt, register.call(rt, seat, call).is_ok());
    }
    callers.fetch_sub(1, Ordering::SeqCst);
}

/// Both seats make their calls, each in a thread of its own.
fn call_at_once<K: RunName + Send + Sync, R: Wait + Threads + Abort + Send + Sync>(
    rt: &R,
    register: &Register<SimWire, K>,
    seats: &mut [Seat<K>],
    callers: &AtomicU32,
) {
    thread::for_each_mut(
        rt,
        seats,
        2,
        &|_, seat| { call_often(rt, register, seat, callers) },
    );
}

/// Publishes the entries behind those that were told, as many as the buffer has room for, and says whether there
/// were any.
fn publish_more<K: RunName, R: Wait + Abort + Drop>(
    rt: &R,
    register: &Register<SimWire, K>,
    publisher: &mut Publisher<K, R>,
    buffer: &mut Vec<Entry>,
) -> bool {
    let known = publisher.told();
    buffer.clear();
    let Some(after) = register.entries_from(rt, &known, buffer) else {
        panic!(rt; "no entries");
    };
    sure(rt, publisher.tell_all(&after, buffer.as_slice()).is_ok());
    sure(rt, publisher.publish().is_ok());
    !buffer.is_empty()
}

/// Publishes until no caller is left and nothing is behind what was told.
fn publish_often<K: RunName, R: Wait + Abort + Drop>(
    rt: &R,
    register: &Register<SimWire, K>,
    publisher: &mut Publisher<K, R>,
    buffer: &mut Vec<Entry>,
    callers: &AtomicU32,
) {
    for _ in rt.forever() {
        let is_last = callers.load(Ordering::SeqCst) == 0;
        let has_more = publish_more(rt, register, publisher, buffer);
        if is_last && !has_more {
            return;
        }
        thread::yield_now();
    }
}

/// The lines of the report of so many calls, the start of the network among them, up to the first frame.
fn head_of(rt: &impl Abort, alloc: Global, count: u64) -> String {
    let head = format!(in alloc;
        "phase booting\nown preoperational\nentries {count}\nopen 0\nframe 82 00\n"
    );
    head.ok().expect(rt, "memory")
}

/// Asserts that a report is written, of just as many calls as are known then.
fn reports<K: RunName>(rt: &impl Abort, alloc: Global, net: &Network, reader: &mut VersionReader<K>)
    requires { net.now ≡ K.net }
{
    let mut text: Vec<u8> = Vec::new(alloc);
    let written = reader.report(net, &mut text);
    sure(rt, written.is_some_and(|it| it.is_ok()));
    let head = head_of(rt, alloc, reader.known().len());
    sure(rt, text.as_slice().starts_with(head.as_bytes()));
}

/// Asserts that the reader sees no fewer calls than before, and the slave stopped where it was; says how many.
fn looks<K: RunName>(rt: &impl Abort, reader: &mut VersionReader<K>, before: u64) -> u64 {
    let slave = node(rt, 5);
    let manager = reader.look().expect(rt, "a version");
    let count = reader.known().len();
    sure(rt, count >= before);
    sure(rt, manager.state(slave) == 4 || manager.state(slave) == 0);
    count
}

/// Looks until all calls are seen.
fn look_often<K: RunName, R: Wait + Abort>(
    rt: &R,
    alloc: Global,
    net: &Network,
    reader: &mut VersionReader<K>,
)
    requires { net.now ≡ K.net }
{
    let mut count = 1;
    for _ in rt.forever() {
        count = looks(rt, reader, count);
        reports(rt, alloc, net, reader);
        if count == u64::from(ENTRIES) {
            return;
        }
        thread::yield_now();
    }
}

/// One publishes, and another looks.
fn publish_and_look<K: RunName + Send + Sync, R: Wait + Threads + Abort + Drop + Send + Sync>(
    rt: &R,
    alloc: Global,
    register: &Register<SimWire, K>,
    publisher: &mut Publisher<K, R>,
    reader: &mut VersionReader<K>,
    buffer: &mut Vec<Entry>,
    callers: &AtomicU32,
) {
    let net = register.network();
    thread::join(
        rt,
        || publish_often(rt, register, &mut *publisher, &mut *buffer, callers),
        || look_often(rt, alloc, net, &mut *reader),
    );
}

/// Two call, one publishes, and one looks.
fn all_at_once<K: RunName + Send + Sync, R: Wait + Threads + Abort + Drop + Send + Sync>(
    rt: &R,
    alloc: Global,
    register: &Register<SimWire, K>,
    publisher: &mut Publisher<K, R>,
    reader: &mut VersionReader<K>,
    buffer: &mut Vec<Entry>,
    seats: &mut [Seat<K>],
) {
    let callers = AtomicU32::new(2);
    thread::join(
        rt,
        || call_at_once(rt, register, &mut *seats, &callers),
        || {
            publish_and_look(
                rt,
                alloc,
                register,
                &mut *publisher,
                &mut *reader,
                &mut *buffer,
                &callers,
            )
        },
    );
}

/// The network is started, by the first seat.
fn start<K: RunName, R: Wait + Abort>(
    rt: &R,
    register: &Register<SimWire, K>,
    seats: &mut [Seat<K>],
) {
    let first = seats.first_mut().expect(rt, "a seat");
    let started = register.call(rt, first, Call::StartNetwork);
    is_made(rt, started, 1, Reply::Started);
}

/// The report of all calls: each request of seat 1 has sent a frame.
fn whole_report(rt: &impl Abort, alloc: Global) -> Vec<u8> {
    let mut text: Vec<u8> = Vec::new(alloc);
    let head = head_of(rt, alloc, u64::from(ENTRIES));
    sure(rt, text.extend_from_slice(head.as_bytes()).is_ok());
    for _ in 0..CALLS {
        sure(rt, text.extend_from_slice(b"frame 02 05\n").is_ok());
    }
    let slave = b"slave 5 state 4 booted no session 0 last -\n";
    sure(rt, text.extend_from_slice(slave).is_ok());
    text
}

/// The report of all calls as JSON.
fn whole_json(rt: &impl Abort, alloc: Global) -> Vec<u8> {
    let mut text: Vec<u8> = Vec::new(alloc);
    let front =
        r#"{"phase":"booting","own":"preoperational","entries":601,"open":0,"frames":["8200""#;
    sure(rt, text.extend_from_slice(front.as_bytes()).is_ok());
    for _ in 0..CALLS {
        sure(rt, text.extend_from_slice(b",\"0205\"").is_ok());
    }
    let slave = r#"{"id":5,"state":4,"booted":false,"session":0,"last":null,"held":false}"#;
    sure(rt, text.extend_from_slice(b"],\"slaves\":[").is_ok());
    sure(rt, text.extend_from_slice(slave.as_bytes()).is_ok());
    sure(rt, text.extend_from_slice(b"]}\n").is_ok());
    text
}

/// Asserts that the newest version is of all calls, by its report.
fn is_whole<K: RunName>(
    rt: &impl Abort,
    alloc: Global,
    net: &Network,
    reader: &mut VersionReader<K>,
)
    requires { net.now ≡ K.net }
{
    let mut text: Vec<u8> = Vec::new(alloc);
    let written = reader.report(net, &mut text);
    sure(rt, written.is_some_and(|it| it.is_ok()));
    sure(rt, text.as_slice() == whole_report(rt, alloc).as_slice());
}

/// Asserts that the newest version is of all calls, by its report as JSON.
fn is_whole_json<K: RunName>(
    rt: &impl Abort,
    alloc: Global,
    net: &Network,
    reader: &mut VersionReader<K>,
)
    requires { net.now ≡ K.net }
{
    let mut text: Vec<u8> = Vec::new(alloc);
    let written = reader.json(net, &mut text);
    sure(rt, written.is_some_and(|it| it.is_ok()));
    sure(rt, text.as_slice() == whole_json(rt, alloc).as_slice());
}

/// Asserts that the register closes with a history of that report, which what was seen begins, early and last.
fn closes<K: RunName>(
    rt: &impl Abort,
    alloc: Global,
    net: &Network,
    register: Register<SimWire, K>,
    seats: Vec<Seat<K>>,
    early: &Past<K>,
    last: &Past<K>,
)
    requires { net.now ≡ K.net }
{
    let Ok((closed, _recorder, past)) = register.close_with_past(seats) else {
        panic!(rt; "not closed");
    };
    sure(rt, early.len() == 1 && early.begins(&past));
    sure(rt, last.len() == u64::from(ENTRIES) && last.begins(&past));
    sure(rt, past.len() == u64::from(ENTRIES) && !past.begins(early));
    let mut text: Vec<u8> = Vec::new(alloc);
    sure(
        rt,
        report(net, closed.history.as_slice(), &mut text).is_ok(),
    );
    sure(rt, text.as_slice() == whole_report(rt, alloc).as_slice());
}

/// A register whose versions are published while it is called.
fn follow<K: RunName + Send + Sync, R: Wait + Threads + Abort + Drop + Copy + Send + Sync>(
    rt: &R,
    alloc: Global,
    opened: Opened<SimWire>,
)
    requires { Names K.RunName opened }
{
    let net = opened.net;
    let (register, mut seats) = named::<K>(rt, opened);
    let nothing = register.past(rt).first(0);
    let publisher = Publisher::new(alloc, *rt, net, nothing.again(), 1);
    let mut publisher = publisher.ok().expect(rt, "a publisher");
    let mut reader = publisher.reader(nothing).ok().expect(rt, "a reader");
    let buffer = Vec::with_capacity(alloc, BATCH);
    let mut buffer = buffer.ok().expect(rt, "memory");
    start(rt, &register, seats.as_mut_slice());
    sure(rt, publish_more(rt, &register, &mut publisher, &mut buffer));
    reports(rt, alloc, net, &mut reader);
    let early = reader.known();
    let seats_now = seats.as_mut_slice();
    all_at_once(
        rt,
        alloc,
        &register,
        &mut publisher,
        &mut reader,
        &mut buffer,
        seats_now,
    );
    is_whole(rt, alloc, net, &mut reader);
    is_whole_json(rt, alloc, net, &mut reader);
    closes(rt, alloc, net, register, seats, &early, &reader.known());
}

#[test]
fn versions_follow_a_register(rt: HostRuntime) {
    let net = network(&rt, rt.alloc(), 1, &[(5, 0x05)]);
    let opened = open(&rt, rt.alloc(), &net, 2, ENTRIES, ENTRIES);
    follow::<Brand, _>(&rt, rt.alloc(), opened);
}
