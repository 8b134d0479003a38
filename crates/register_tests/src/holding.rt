//! Reads while a call is made: a wire holds a frame, and so the lock, until sixteen seats have read.

ghost use Rattle.cm_register.specs.Naming.{Names};

use crate::boot_support::reaches;
use crate::support::{close, network, stop_the_slave, sure};
use cm_nmt::Frame;
use cm_register::{Opened, Register, RunName, Seat, Seen, Wire};
use cm_run::SimWire;
use std::marker::Brand;
use std::process::Abort;
use std::sync::Wait;
use std::sync::atomic::{AtomicUsize, Ordering};
use std::thread;
use std::thread::Threads;

/// How many seats read; one more calls.
const READERS: usize = 16;

/// What the threads tell each other: how many frames are held, and how many seats have read.
#[derive(Drop)]
struct Counts {
    held: AtomicUsize,
    read: AtomicUsize,
}

/// A wire on which the second frame is held until all have read.
#[derive(Drop)]
struct HoldingWire<'a> {
    wire: SimWire,
    counts: &'a Counts,
    /// Whether all had read while the frame was held.
    were_read: bool,
}

impl<'a> Wire for HoldingWire<'a> {
    ghost sent = { λ h. h.wire.sent };

    ghost room_of = { λ h. h.wire.room };

    fn room(&self) -> u32 {
        self.wire.room()
    }

    fn used(&self) -> bool {
        self.wire.used()
    }

    fn send(&mut self, frame: Frame) {
        if self.wire.sent().len() == 1 {
            self.counts.held.fetch_add(1, Ordering::SeqCst);
            self.were_read = reaches(&self.counts.read, READERS);
        }
        let wire = &mut self.wire;
        wire.send(frame);
    }
}

/// Reads once the frame is held: what is seen is the network before the second call or after it.
fn read_while_held<K: RunName>(rt: &impl Abort, seat: &mut Seat<K>, counts: &Counts) {
    sure(rt, reaches(&counts.held, 1));
    let seen = seat.read(5);
    counts.read.fetch_add(1, Ordering::SeqCst);
    let (before, after) = (Seen { count: 1, state: 0 }, Seen { count: 2, state: 4 });
    sure(rt, seen == Ok(before) || seen == Ok(after));
}

/// Seat 1 calls, and each other seat reads, all at once.
fn call_and_read<K: RunName + Send + Sync, R: Wait + Threads + Abort + Send + Sync>(
    rt: &R,
    register: &Register<HoldingWire, K>,
    seats: &mut [Seat<K>],
    counts: &Counts,
) {
    sure(rt, seats.len() == READERS + 1);
    thread::for_each_mut(
        rt,
        seats,
        READERS + 1,
        &|place, seat| {
            if place == 0 {
                stop_the_slave(rt, register, seat);
            } else {
                read_while_held(rt, seat, counts);
            }
        },
    );
}

/// The same, and the register closes.
fn reads_beside_a_held_frame<K: RunName + Send + Sync, R: Wait + Threads + Abort + Send + Sync>(
    rt: &R,
    opened: Opened<HoldingWire>,
    counts: &Counts,
)
    requires { Names K.RunName opened }
{
    let (register, mut seats) = opened.named::<K>().ok().expect(rt, "named");
    call_and_read(rt, &register, seats.as_mut_slice(), counts);
    let closed = close(rt, register, seats);
    sure(rt, closed.wire.were_read);
    sure(rt, closed.wire.wire.sent().len() == 2);
}

#[test]
fn reads_return_while_a_frame_is_held(rt: HostRuntime) {
    let net = network(&rt, rt.alloc(), 1, &[(5, 0x05)]);
    let counts = Counts {
        held: AtomicUsize::new(0),
        read: AtomicUsize::new(0),
    };
    let wire = HoldingWire {
        wire: SimWire::new(rt.alloc(), 10).ok().expect(&rt, "a wire"),
        counts: &counts,
        were_read: false,
    };
    let opened = Register::open(rt.alloc(), &net, READERS as u16 + 1, 12, wire);
    let opened = opened.ok().expect(&rt, "a register");
    reads_beside_a_held_frame::<Brand, _>(&rt, opened, &counts);
}
