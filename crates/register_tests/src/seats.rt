//! What seats read: before any call, after calls of their own and of others, and beside them.

ghost use Rattle.cm_register.specs.Naming.{Names};

use crate::support::{close, is_made, named, network, open, sees, stop_the_slave, sure};
use cm_history::{Call, Reply};
use cm_register::{Opened, ReadFault, Register, RunName, Seat};
use cm_run::SimWire;
use std::marker::Brand;
use std::process::Abort;
use std::sync::Wait;
use std::thread;
use std::thread::Threads;

#[test]
fn each_of_64_seats_reads(rt: HostRuntime) {
    let net = network(&rt, rt.alloc(), 1, &[(5, 0x05)]);
    let opened = open(&rt, rt.alloc(), &net, 64, 12, 10);
    each_reads::<Brand, _>(&rt, opened);
}

/// Before any call a read shows no slave, and the manager's own state.
fn shows_no_call<K: RunName>(rt: &impl Abort, seat: &mut Seat<K>) {
    sees(rt, seat, 5, 0, 0);
    sees(rt, seat, 7, 0, 0);
    sees(rt, seat, 1, 0, 127);
    sure(rt, seat.read(0) == Err(ReadFault::BadTarget));
    sure(rt, seat.read(128) == Err(ReadFault::BadTarget));
}

/// One seat reads before any call; after its calls every seat sees them.
fn read_each<K: RunName, R: Wait + Abort>(
    rt: &R,
    register: &Register<SimWire, K>,
    seats: &mut [Seat<K>],
) {
    sure(rt, seats.len() == 64);
    let last = seats.last_mut().expect(rt, "a seat");
    shows_no_call(rt, last);
    stop_the_slave(rt, register, last);
    for seat in seats.iter_mut() {
        sees(rt, seat, 5, 2, 4);
    }
}

fn each_reads<K: RunName, R: Wait + Abort>(rt: &R, opened: Opened<SimWire>)
    requires { Names K.RunName opened }
{
    let (register, mut seats) = named::<K>(rt, opened);
    read_each(rt, &register, seats.as_mut_slice());
    let closed = close(rt, register, seats);
    sure(rt, closed.history.len() == 2);
}

#[test]
fn a_register_that_is_gone_shows_nothing(rt: HostRuntime) {
    let net = network(&rt, rt.alloc(), 1, &[(5, 0x05)]);
    let opened = open(&rt, rt.alloc(), &net, 1, 12, 10);
    reads_no_version::<Brand, _>(&rt, opened);
}

/// A seat sees what was before any call as long as there is a register, and nothing then.
fn reads_no_version<K: RunName, R: Wait + Abort>(rt: &R, opened: Opened<SimWire>)
    requires { Names K.RunName opened }
{
    let (register, mut seats) = named::<K>(rt, opened);
    sure(rt, seats.len() == 1);
    let seat = seats.last_mut().expect(rt, "a seat");
    sees(rt, seat, 5, 0, 0);
    drop(register);
    sure(rt, seat.read(5) == Err(ReadFault::NoVersion));
    sure(rt, seat.read(0) == Err(ReadFault::BadTarget));
}
