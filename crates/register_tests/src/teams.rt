//! A register as large as any, shared by many threads: its history is a journal, which is read back.

ghost use Rattle.cm_register.specs.Naming.{Names};

use crate::support::{answers, network, sure};
use cm_history::{Call, Entry, Reply};
use cm_journal::{journal_read, journal_write};
use cm_netlist::Network;
use cm_nmt::NodeId;
use cm_register::{Closed, Opened, Receipt, Register, RunName, Seat};
use cm_run::SimWire;
use std::alloc::Global;
use std::marker::Brand;
use std::process::Abort;
use std::sync::Wait;
use std::test::Fail;
use std::thread;
use std::thread::Threads;

const SEATS: u16 = 64;

/// How many entries the history has, more than a journal of version 1 may.
const LIMIT: u32 = 131_072;

const THREADS: usize = 16;

/// How many calls the boot of one slave has, until it is lost, held and released again.
const ROUND: u8 = 10;

/// One who makes calls, with slaves of its own: at which slave, which call is next, the session, and
/// how many calls were made.
#[derive(Drop)]
struct Caller<K: RunName> {
    seat: Seat<K>,
    slave: NodeId,
    step: u8,
    session: u64,
    made: u32,
}

impl<K: RunName> Caller<K> {
    /// The next call.
    fn next_call(&self) -> Call {
        let id = self.slave;
        match self.step {
            0 => Call::Begin(id),
            1 => Call::Report(id, self.session, answers()),
            2 => Call::Read(id.get()),
            3 => Call::Signal(id, 5),
            4 if id.get() == 64 => Call::Request(128, 6),
            4 => Call::Request(id.get(), 127),
            5 => Call::Elapsed(1),
            6 => Call::Lost(id),
            7 => Call::Hold(id),
            8 => Call::Release(id),
            _ => Call::StartNetwork,
        }
    }

    /// Goes on after this reply; after a round with the other slave, if there are two.
    fn go_on(&mut self, reply: Reply) {
        if let Reply::Begun(number) = reply {
            self.session = number;
        }
        self.made = self.made.saturating_add(1);
        self.step = self.step.saturating_add(1) % ROUND;
        if self.step == 0 {
            let number = self.slave.get();
            let other = if number > 64 {
                number - 64
            } else {
                number + 64
            };
            if other < 127 {
                self.slave = NodeId::new(other).unwrap_or(self.slave);
            }
        }
    }

    /// Makes calls until there are so many.
    fn call_often<R: Wait>(&mut self, rt: &R, register: &Register<SimWire, K>, calls: u32) {
        for _ in self.made..calls {
            let call = self.next_call();
            if let Ok(receipt) = register.call(rt, &mut self.seat, call) {
                self.go_on(receipt.reply);
            }
        }
    }
}

/// A caller for each seat, of which seat k has the slaves k and k + 64.
fn callers_of<K: RunName>(
    rt: &impl Abort,
    alloc: Global,
    seats: Vec<Seat<K>>,
) -> Result<Vec<Caller<K>>, Fail> {
    let mut callers = Vec::new(alloc);
    for seat in seats {
        let slave = NodeId::new(seat.number() as u8).expect(rt, "a node-ID");
        callers.push(Caller {
            seat,
            slave,
            step: 0,
            session: 0,
            made: 0,
        })?;
    }
    Ok(callers)
}

/// Asserts that every caller made so many calls, and gives the seats back.
fn seats_of<K: RunName>(
    rt: &impl Abort,
    alloc: Global,
    callers: Vec<Caller<K>>,
    calls: u32,
) -> Result<Vec<Seat<K>>, Fail> {
    let mut seats = Vec::new(alloc);
    for caller in callers {
        sure(rt, caller.made == calls);
        seats.push(caller.seat)?;
    }
    Ok(seats)
}

/// Seat 1 starts the network.
fn start<K: RunName, R: Wait + Abort>(
    rt: &R,
    register: &Register<SimWire, K>,
    callers: &mut [Caller<K>],
) {
    let [first, ..] = callers else {
        return sure(rt, false);
    };
    let start = register.call(rt, &mut first.seat, Call::StartNetwork);
    let started = Receipt {
        position: 1,
        reply: Reply::Started,
    };
    sure(rt, start == Ok(started));
    first.made = 1;
}

/// All seats make so many calls, four seats in each thread.
fn call_at_once<K: RunName + Send + Sync, R: Wait + Threads + Abort + Send + Sync>(
    rt: &R,
    register: &Register<SimWire, K>,
    callers: &mut [Caller<K>],
    calls: u32,
) {
    thread::for_each_mut(
        rt,
        callers,
        THREADS,
        &|_, caller| { caller.call_often(rt, register, calls) },
    );
}

/// Seat 1 starts the network, and then all seats make so many calls.
fn make_calls<K: RunName + Send + Sync, R: Wait + Threads + Abort + Send + Sync>(
    rt: &R,
    alloc: Global,
    opened: Opened<SimWire>,
    calls: u32,
) -> Result<Closed<SimWire>, Fail>
    requires { Names K.RunName opened }
{
    let Ok((register, seats)) = opened.named::<K>() else {
        return Err(Fail::from("named"));
    };
    let mut callers = callers_of(rt, alloc, seats)?;
    start(rt, &register, callers.as_mut_slice());
    call_at_once(rt, &register, callers.as_mut_slice(), calls);
    let seats = seats_of(rt, alloc, callers, calls)?;
    match register.close(seats) {
        Ok(closed) => Ok(closed),
        Err(_) => Err(Fail::from("close")),
    }
}

/// A network of 126 mandatory slaves.
fn full_network(rt: &impl Abort, alloc: Global) -> Network {
    let mut slaves = [(0, 0x0D); 126];
    for (number, slave) in (1..127).zip(slaves.iter_mut()) {
        slave.0 = number;
    }
    network(rt, alloc, 127, &slaves)
}

/// Asserts that the journal of these entries is read back as it was.
fn is_read_back(
    rt: &impl Abort,
    alloc: Global,
    net: &Network,
    entries: &[Entry],
) -> Result<(), Fail> {
    let mut text: Vec<u8> = Vec::new(alloc);
    journal_write(net, SEATS, LIMIT, entries, &mut text)?;
    let journal = journal_read(alloc, text.as_slice())
        .ok()
        .expect(rt, "a journal");
    sure(rt, journal.entries.as_slice() == entries);
    Ok(())
}

#[test]
fn teams_make_131072_calls(rt: HostRuntime) -> Result<(), Fail> {
    let alloc = rt.alloc();
    let net = full_network(&rt, alloc);
    let wire = SimWire::new(alloc, LIMIT.saturating_mul(2))?;
    let Ok(opened) = Register::open(alloc, &net, SEATS, LIMIT, wire) else {
        return Err(Fail::from("open"));
    };
    let closed = make_calls::<Brand, _>(&rt, alloc, opened, LIMIT / u32::from(SEATS))?;
    let entries = closed.history.as_slice();
    sure(&rt, entries.len() == LIMIT as usize);
    is_read_back(&rt, alloc, &net, entries)
}
