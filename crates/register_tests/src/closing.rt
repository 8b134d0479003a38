//! A register that one thread has, with what it leaves where it closes.

ghost use Rattle.cm_register.specs.Naming.{Names};

use crate::support::{
    close, entry, frame, is_made, is_refused, lacks_seats, named, network, open, sees, sure,
};
use cm_history::{Call, CallFault, Orders, Reply};
use cm_register::{Closed, Opened, Register, RunName, Seat, SeatList};
use cm_run::SimWire;
use std::marker::Brand;
use std::process::Abort;
use std::sync::Wait;

#[test]
fn a_full_wire_refuses_a_call(rt: HostRuntime) {
    let net = network(&rt, rt.alloc(), 1, &[(2, 0x05), (3, 0x15), (4, 0x05)]);
    let opened = open(&rt, rt.alloc(), &net, 1, 10, 1);
    lacks_room::<Brand, _>(&rt, opened);
}

/// The start of the network finds no room on the wire, and a read does.
fn read_alone<K: RunName, R: Wait + Abort>(
    rt: &R,
    register: &Register<SimWire, K>,
    seats: &mut [Seat<K>],
) {
    let [seat] = seats else {
        return sure(rt, false);
    };
    let start = register.call(rt, seat, Call::StartNetwork);
    is_refused(rt, start, CallFault::WireFull);
    sure(rt, seat.list().is_empty());
    let read = register.call(rt, seat, Call::Read(2));
    is_made(rt, read, 1, Reply::Refused(3));
}

fn lacks_room<K: RunName, R: Wait + Abort>(rt: &R, opened: Opened<SimWire>)
    requires { Names K.RunName opened }
{
    let (register, mut seats) = named::<K>(rt, opened);
    read_alone(rt, &register, seats.as_mut_slice());
    let closed = close(rt, register, seats);
    let entries = [entry(1, Call::Read(2), Reply::Refused(3), Orders::None)];
    sure(rt, closed.history.as_slice() == entries.as_slice());
    sure(rt, closed.wire.sent().is_empty());
}

#[test]
fn a_call_returns_what_is_recorded(rt: HostRuntime) {
    let net = network(&rt, rt.alloc(), 1, &[]);
    let opened = open(&rt, rt.alloc(), &net, 2, 12, 10);
    calls_in_turn::<Brand, _>(&rt, opened);
}

/// The number of a seat that comes at these places.
fn has_places(list: &SeatList, number: u16, places: &[u32]) -> bool {
    let made = list.made.as_slice();
    list.number == number
        && made.len() == places.len()
        && made
            .iter()
            .zip(places.iter())
            .all(|(made, place)| made.position == *place)
}

/// The first seat calls, the second, and the first again.
fn call_in_turn<K: RunName, R: Wait + Abort>(
    rt: &R,
    register: &Register<SimWire, K>,
    seats: &mut [Seat<K>],
) {
    let [first, second] = seats else {
        return sure(rt, false);
    };
    let started = register.call(rt, first, Call::StartNetwork);
    is_made(rt, started, 1, Reply::Started);
    let read = register.call(rt, second, Call::Read(1));
    is_made(rt, read, 2, Reply::State(127));
    let elapsed = register.call(rt, first, Call::Elapsed(0));
    is_made(rt, elapsed, 3, Reply::InTime);
}

/// What such calls leave, where the second seat was given back first.
fn has_calls_in_turn(rt: &impl Abort, closed: &Closed<SimWire>) {
    let entries = [
        entry(1, Call::StartNetwork, Reply::Started, Orders::ResetUnkept),
        entry(2, Call::Read(1), Reply::State(127), Orders::None),
        entry(1, Call::Elapsed(0), Reply::InTime, Orders::None),
    ];
    sure(rt, closed.history.as_slice() == entries.as_slice());
    let [one, other] = closed.lists.as_slice() else {
        return sure(rt, false);
    };
    sure(rt, has_places(one, 2, &[2]));
    sure(rt, has_places(other, 1, &[1, 3]));
    sure(rt, closed.wire.sent() == [frame(rt, [0x82, 0])].as_slice());
}

fn calls_in_turn<K: RunName, R: Wait + Abort>(rt: &R, opened: Opened<SimWire>)
    requires { Names K.RunName opened }
{
    let (register, mut seats) = named::<K>(rt, opened);
    call_in_turn(rt, &register, seats.as_mut_slice());
    seats.reverse();
    let closed = close(rt, register, seats);
    has_calls_in_turn(rt, &closed);
}

#[test]
fn a_seat_that_was_dropped_is_missing(rt: HostRuntime) {
    let net = network(&rt, rt.alloc(), 1, &[(5, 0x05)]);
    let opened = open(&rt, rt.alloc(), &net, 2, 12, 10);
    drops_a_seat::<Brand, _>(&rt, opened);
}

/// A seat that was handed back goes on.
fn goes_on<K: RunName, R: Wait + Abort>(
    rt: &R,
    register: &Register<SimWire, K>,
    seats: &mut [Seat<K>],
) {
    let [seat] = seats else {
        return sure(rt, false);
    };
    sees(rt, seat, 5, 0, 0);
    let read = register.call(rt, seat, Call::Read(1));
    is_made(rt, read, 1, Reply::Refused(3));
    sees(rt, seat, 5, 1, 0);
}

/// A register and a seat that are handed back go on where another seat was dropped, and the register
/// doesn't close.
fn drops_a_seat<K: RunName, R: Wait + Abort>(rt: &R, opened: Opened<SimWire>)
    requires { Names K.RunName opened }
{
    let (register, mut seats) = named::<K>(rt, opened);
    seats.truncate(1);
    let (register, mut seats) = lacks_seats(rt, register, seats, 1);
    goes_on(rt, &register, seats.as_mut_slice());
    lacks_seats(rt, register, seats, 1);
}
