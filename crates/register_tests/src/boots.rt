//! A network of simulated slaves that workers boot, and again what was lost.

ghost use Rattle.cm_register.specs.Naming.{Names};

use crate::boot_support::{agreeing, outcome, start, with_operator};
use crate::support::{close, frame, is_made, named, network, node, open, sure};
use cm_history::{Call, CallFault, Phase, Reply};
use cm_nmt::{Frame, Status};
use cm_register::{Opened, Register, RunName, Seat};
use cm_run::{Booted, Last, Outcome, SimBus, SimWire, boot_all};
use std::alloc::Global;
use std::marker::Brand;
use std::process::Abort;
use std::sync::Wait;
use std::thread::Threads;

/// The status with which a slave was booted.
const BOOTED: Last = Last::Status(Status::Ok);

/// Boots every slave by the workers of these seats, which come back in their order.
fn boot<K: RunName + Send + Sync, R: Wait + Threads + Abort + Send + Sync>(
    rt: &R,
    alloc: Global,
    register: &Register<SimWire, K>,
    seats: Vec<Seat<K>>,
    attempts: u8,
) -> Booted<SimBus, K> {
    let buses = agreeing(rt, alloc, register.network(), seats.len());
    let booted = boot_all(rt, alloc, register, seats, buses, attempts);
    let booted = booted.ok().expect(rt, "all booted");
    for (place, seat) in booted.seats.iter().enumerate() {
        sure(rt, usize::from(seat.number()) == place + 1);
    }
    booted
}

/// Slave 1 is lost, by call 6.
fn lose_one<K: RunName, R: Wait + Abort>(
    rt: &R,
    register: &Register<SimWire, K>,
    operator: &mut Seat<K>,
) {
    let lost = register.call(rt, operator, Call::Lost(node(rt, 1)));
    is_made(rt, lost, 6, Reply::Handled);
}

/// Boots the slaves again, with the seats and buses that came back: the first is booted, the other was
/// booted already.
fn boot_again<K: RunName + Send + Sync, R: Wait + Threads + Abort + Send + Sync>(
    rt: &R,
    alloc: Global,
    register: &Register<SimWire, K>,
    booted: Booted<SimBus, K>,
) -> Vec<Seat<K>> {
    let again = boot_all(rt, alloc, register, booted.seats, booted.buses, 1);
    let again = again.ok().expect(rt, "all booted");
    let outcomes = [
        outcome(rt, 1, 1, BOOTED),
        outcome(rt, 2, 1, Last::Refused(6)),
    ];
    sure(rt, again.outcomes.as_slice() == outcomes.as_slice());
    again.seats
}

/// Starts the network, and boots two slaves, of which the first is lost, and then again.
fn boot_twice<K: RunName + Send + Sync, R: Wait + Threads + Abort + Send + Sync>(
    rt: &R,
    alloc: Global,
    register: &Register<SimWire, K>,
    mut seats: Vec<Seat<K>>,
) -> Vec<Seat<K>> {
    let mut operator = start(rt, register, &mut seats);
    let booted = boot(rt, alloc, register, seats, 1);
    lose_one(rt, register, &mut operator);
    let seats = boot_again(rt, alloc, register, booted);
    with_operator(rt, seats, operator)
}

/// The same, and the register closes.
fn boots_again<K: RunName + Send + Sync, R: Wait + Threads + Abort + Send + Sync>(
    rt: &R,
    alloc: Global,
    opened: Opened<SimWire>,
)
    requires { Names K.RunName opened }
{
    let (register, seats) = named::<K>(rt, opened);
    let seats = boot_twice(rt, alloc, &register, seats);
    let closed = close(rt, register, seats);
    sure(rt, closed.history.len() == 9);
}

#[test]
fn what_was_lost_is_booted_again(rt: HostRuntime) {
    let net = network(&rt, rt.alloc(), 127, &[(1, 0x0D), (2, 0x0D)]);
    let opened = open(&rt, rt.alloc(), &net, 3, 20, 10);
    boots_again::<Brand, _>(&rt, rt.alloc(), opened);
}
