//! A register whose seats make their calls in threads.

ghost use Rattle.cm_register.specs.Naming.{Names};

use crate::support::{close, is_refused, lacks_seats, named, network, open, sure};
use cm_history::{Call, CallFault, Reply};
use cm_register::{Closed, Opened, Register, RunName, Seat, SeatList};
use cm_run::SimWire;
use std::alloc::Global;
use std::marker::Brand;
use std::process::Abort;
use std::sync::Wait;
use std::thread;
use std::thread::Threads;

/// How many calls each seat makes.
const CALLS: [u32; 3] = [5, 0, 7];

/// What one thread has.
#[derive(Drop)]
struct Reader<K: RunName> {
    seat: Seat<K>,
    calls: u32,
}

impl<K: RunName> Reader<K> {
    /// Reads, before the network is started.
    fn read_often<R: Wait + Abort>(&mut self, rt: &R, register: &Register<SimWire, K>) {
        for _ in 0..self.calls {
            let made = register.call(rt, &mut self.seat, Call::Read(1));
            sure(
                rt,
                made.ok().map(|receipt| receipt.reply) == Some(Reply::Refused(3)),
            );
        }
    }
}

/// What each thread has.
fn readers_of<K: RunName>(rt: &impl Abort, alloc: Global, seats: Vec<Seat<K>>) -> Vec<Reader<K>> {
    let mut readers = Vec::new(alloc);
    for (seat, calls) in seats.into_iter().zip(CALLS.iter()) {
        let reader = Reader {
            seat,
            calls: *calls,
        };
        readers.push(reader).ok().expect(rt, "memory");
    }
    readers
}

/// The seats that the threads had.
fn seats_of<K: RunName>(rt: &impl Abort, alloc: Global, readers: Vec<Reader<K>>) -> Vec<Seat<K>> {
    let mut seats = Vec::new(alloc);
    for reader in readers {
        seats.push(reader.seat).ok().expect(rt, "memory");
    }
    seats
}

/// Each reads in a thread of its own.
fn read_at_once<K: RunName + Send + Sync, R: Wait + Threads + Abort + Send + Sync>(
    rt: &R,
    register: &Register<SimWire, K>,
    readers: &mut [Reader<K>],
) {
    thread::for_each_mut(
        rt,
        readers,
        3,
        &|_, reader| { reader.read_often(rt, register) },
    );
}

/// Each seat reads in a thread of its own.
fn read_in_threads<K: RunName + Send + Sync, R: Wait + Threads + Abort + Send + Sync>(
    rt: &R,
    alloc: Global,
    register: &Register<SimWire, K>,
    seats: Vec<Seat<K>>,
) -> Vec<Seat<K>> {
    let mut readers = readers_of(rt, alloc, seats);
    read_at_once(rt, register, readers.as_mut_slice());
    seats_of(rt, alloc, readers)
}

/// Asserts that the seat, which made so many calls, makes no other.
fn makes_no_more<K: RunName, R: Wait + Abort>(
    rt: &R,
    register: &Register<SimWire, K>,
    seat: &mut Seat<K>,
    calls: u32,
) {
    let made = register.call(rt, seat, Call::Read(1));
    is_refused(rt, made, CallFault::JournalFull);
    sure(rt, seat.list().len() == calls as usize);
}

/// Asserts that no seat makes another call.
fn is_full<K: RunName, R: Wait + Abort>(
    rt: &R,
    register: &Register<SimWire, K>,
    seats: &mut [Seat<K>],
) {
    for (seat, calls) in seats.iter_mut().zip(CALLS.iter()) {
        makes_no_more(rt, register, seat, *calls);
    }
}

/// Whether each call has a later place than the one before it.
fn rises(list: &SeatList) -> bool {
    let mut last = 0;
    for made in list.made.iter() {
        if made.position <= last {
            return false;
        }
        last = made.position;
    }
    true
}

/// Closes the register once with too few seats, and then with all.
fn close_in_two<K: RunName>(
    rt: &impl Abort,
    register: Register<SimWire, K>,
    mut seats: Vec<Seat<K>>,
) -> Closed<SimWire> {
    let last = seats.pop().expect(rt, "a seat");
    let (register, mut seats) = lacks_seats(rt, register, seats, 1);
    seats.push(last).ok().expect(rt, "memory");
    close(rt, register, seats)
}

/// Asserts that each seat's calls are there, and nothing else.
fn has_all(rt: &impl Abort, closed: &Closed<SimWire>) {
    sure(rt, closed.history.len() == 12);
    sure(rt, closed.lists.len() == 3);
    for (list, calls) in closed.lists.iter().zip(CALLS.iter()) {
        sure(rt, list.made.len() == *calls as usize && rises(list));
    }
    sure(rt, closed.wire.sent().is_empty());
}

#[test]
fn seats_call_in_threads(rt: HostRuntime) {
    let net = network(&rt, rt.alloc(), 1, &[(2, 0x0D)]);
    let opened = open(&rt, rt.alloc(), &net, 3, 12, 10);
    reads::<Brand, _>(&rt, rt.alloc(), opened);
}

fn reads<K: RunName + Send + Sync, R: Wait + Threads + Abort + Send + Sync>(
    rt: &R,
    alloc: Global,
    opened: Opened<SimWire>,
)
    requires { Names K.RunName opened }
{
    let (register, seats) = named::<K>(rt, opened);
    let mut seats = read_in_threads(rt, alloc, &register, seats);
    sure(rt, seats.len() == 3);
    is_full(rt, &register, seats.as_mut_slice());
    let closed = close_in_two(rt, register, seats);
    has_all(rt, &closed);
}
