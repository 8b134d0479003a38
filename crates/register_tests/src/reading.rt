//! Reads beside a boot.

ghost use Rattle.cm_register.specs.Naming.{Names};

use crate::boot_support::{HeldBus, held, reaches, start, with_operator};
use crate::support::{close, named, network, open, sure};
use cm_register::{Opened, Register, RunName, Seat, Seen};
use cm_run::{Booted, SimWire, boot_all};
use std::alloc::Global;
use std::marker::Brand;
use std::process::Abort;
use std::sync::Wait;
use std::sync::atomic::{AtomicUsize, Ordering};
use std::thread;
use std::thread::Threads;

/// How many reads are made beside the boot, and behind how many of them a slave answers.
const READS: usize = 100;

const HELD_FOR: usize = 50;

/// Reads nodes 1 and 2 in turn, once both were asked: the count is of the start and two begins, never
/// falls, and stays as long as no slave answers; a node is booted then, or nothing is known of it.
fn reads_in_turn<K: RunName>(
    rt: &impl Abort,
    seat: &mut Seat<K>,
    asked: &AtomicUsize,
    reads: &AtomicUsize,
) {
    sure(rt, reaches(asked, 2));
    let mut least = 3;
    for turn in 0..READS {
        let Ok(seen) = seat.read(turn as u8 % 2 + 1) else {
            return sure(rt, false);
        };
        sure(rt, seen.count >= least);
        sure(rt, seen.state == 0 || seen.state == 5);
        sure(rt, turn >= HELD_FOR || (seen.count == 3 && seen.state == 0));
        least = seen.count;
        reads.fetch_add(1, Ordering::SeqCst);
        thread::yield_now();
    }
}

/// Boots the slaves in another thread, while a seat reads; no slave answers before half of the reads.
fn boots_beside<'a, K: RunName + Send + Sync, R: Wait + Threads + Abort + Send + Sync>(
    rt: &R,
    alloc: Global,
    register: &Register<SimWire, K>,
    seats: Vec<Seat<K>>,
    reader: &mut Seat<K>,
    asked: &'a AtomicUsize,
    reads: &'a AtomicUsize,
) -> Booted<HeldBus<'a>, K> {
    let workers = seats.len();
    let net = register.network();
    let buses = held(rt, alloc, net, workers, asked, reads, HELD_FOR);
    let (booted, ()) = thread::join(
        rt,
        move || boot_all(rt, alloc, register, seats, buses, 2),
        || reads_in_turn(rt, &mut *reader, asked, reads),
    );
    booted.ok().expect(rt, "all booted")
}

/// Asserts that the seat sees both slaves booted, though it made no call but the start.
fn sees_the_boot<K: RunName>(rt: &impl Abort, reader: &mut Seat<K>) {
    for number in 1..3 {
        let seen = reader.read(number).ok();
        sure(rt, seen == Some(Seen { count: 5, state: 5 }));
    }
    sure(rt, reader.list().len() == 1);
}

/// The last seat starts the network, and reads while the others' workers boot it. Its reads after the
/// boot see all of it. All seats come back.
fn boot_and_read<K: RunName + Send + Sync, R: Wait + Threads + Abort + Send + Sync>(
    rt: &R,
    alloc: Global,
    register: &Register<SimWire, K>,
    mut seats: Vec<Seat<K>>,
) -> Vec<Seat<K>> {
    let mut reader = start(rt, register, &mut seats);
    let asked = AtomicUsize::new(0);
    let reads = AtomicUsize::new(0);
    let booted = boots_beside(rt, alloc, register, seats, &mut reader, &asked, &reads);
    sees_the_boot(rt, &mut reader);
    with_operator(rt, booted.seats, reader)
}

/// The same, and what the register leaves.
fn reads_beside_a_boot<K: RunName + Send + Sync, R: Wait + Threads + Abort + Send + Sync>(
    rt: &R,
    alloc: Global,
    opened: Opened<SimWire>,
)
    requires { Names K.RunName opened }
{
    let (register, seats) = named::<K>(rt, opened);
    let seats = boot_and_read(rt, alloc, &register, seats);
    let closed = close(rt, register, seats);
    sure(rt, closed.history.len() == 5);
}

#[test]
fn a_seat_reads_while_workers_boot(rt: HostRuntime) {
    let net = network(&rt, rt.alloc(), 127, &[(1, 0x0D), (2, 0x0D)]);
    let opened = open(&rt, rt.alloc(), &net, 3, 20, 10);
    reads_beside_a_boot::<Brand, _>(&rt, rt.alloc(), opened);
}
