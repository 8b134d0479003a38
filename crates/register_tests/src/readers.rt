//! Threads that read beside threads that call: what each read gave is compared with the history.

ghost use Rattle.cm_register.specs.Naming.{Names};

use crate::support::{close, named, network, node, open, sure};
use cm_history::{Call, Entry};
use cm_netlist::Network;
use cm_nmt::NodeId;
use cm_register::{Opened, Register, RunName, Seat, Seen};
use cm_run::SimWire;
use cm_sequential::Manager;
use std::alloc::Global;
use std::marker::Brand;
use std::process::Abort;
use std::sync::Wait;
use std::sync::atomic::{AtomicU32, Ordering};
use std::thread;
use std::thread::Threads;

/// How many seats call: seats 1 to 4. Each other seat reads the node of its number.
const CALLERS: u16 = 4;

const SEATS: u16 = 12;

/// The manager's node.
const OWN: u8 = 12;

/// How many calls each of the callers makes.
const CALLS: u32 = 12_500;

/// How many calls all of them make.
const LIMIT: u32 = 50_000;

/// What was seen of one node, in order, each count once.
#[derive(Drop)]
struct Watch {
    id: NodeId,
    seen: Vec<Seen>,
}

/// One who calls or reads.
#[derive(Drop)]
struct Member<K: RunName> {
    seat: Seat<K>,
    watch: Watch,
}

/// The call at this step: at each of the nodes 5 to 12 in turn, one call of each kind.
fn call_at(rt: &impl Abort, step: u32) -> Call {
    let id = node(rt, 5 + (step / 8 % 8) as u8);
    match step % 8 {
        0 => Call::StartNetwork,
        1 => Call::Request(id.get(), 4),
        2 => Call::Signal(id, 5),
        3 => Call::Read(id.get()),
        4 => Call::Lost(id),
        5 => Call::Request(128, 127),
        6 => Call::Request(id.get(), 5),
        _ => Call::Signal(id, 0),
    }
}

impl Watch {
    /// Keeps what a read gave, in memory that was taken before. The count doesn't go back.
    fn keep(&mut self, rt: &impl Abort, seen: Seen) {
        let last = self.seen.last().copied();
        if last == Some(seen) {
            return;
        }
        if let Some(last) = last {
            sure(rt, last.count < seen.count);
        }
        sure(rt, self.seen.push(seen).is_ok());
    }

    /// Asserts that each state is what the history leaves after so many calls.
    fn is_replayed(&self, rt: &impl Abort, alloc: Global, net: &Network, history: &[Entry]) {
        let shown = shown_after_each(rt, alloc, net, history, self.id);
        self.are_shown(rt, shown.as_slice());
    }

    /// Asserts that each state is that which is shown after so many calls.
    fn are_shown(&self, rt: &impl Abort, shown: &[u8]) {
        for seen in self.seen.iter() {
            sure(
                rt,
                shown.get(seen.count as usize).copied() == Some(seen.state),
            );
        }
    }
}

impl<K: RunName> Member<K> {
    /// Makes calls of all kinds.
    fn call_often<R: Wait + Abort>(&mut self, rt: &R, register: &Register<SimWire, K>) {
        for step in 0..CALLS {
            let call = call_at(rt, step);
            sure(rt, register.call(rt, &mut self.seat, call).is_ok());
        }
    }

    /// Reads its node, and behind it the manager's own: no read tells of fewer calls than the one before.
    fn read(&mut self, rt: &impl Abort) -> Option<Seen> {
        let seen = self.seat.read(self.watch.id.get()).ok()?;
        let own = self.seat.read(OWN).ok()?;
        sure(rt, seen.count <= own.count);
        self.watch.keep(rt, seen);
        Some(own)
    }

    /// Reads until no caller is left, and once more, which shows all calls.
    fn watch<R: Wait + Abort>(&mut self, rt: &R, callers: &AtomicU32) {
        for _ in rt.forever() {
            let is_last = callers.load(Ordering::SeqCst) == 0;
            let Some(own) = self.read(rt) else {
                return sure(rt, false);
            };
            if is_last {
                return sure(rt, own.count == LIMIT);
            }
            thread::yield_now();
        }
    }

    /// Calls or reads.
    fn work<R: Wait + Abort>(
        &mut self,
        rt: &R,
        register: &Register<SimWire, K>,
        callers: &AtomicU32,
    ) {
        if self.seat.number() <= CALLERS {
            self.call_often(rt, register);
            callers.fetch_sub(1, Ordering::SeqCst);
        } else {
            self.watch(rt, callers);
        }
    }
}

/// What is seen of the node of this number, of which nothing was yet, with memory for all.
fn watch_of(rt: &impl Abort, alloc: Global, number: u8) -> Watch {
    let seen = Vec::with_capacity(alloc, LIMIT as usize + 1);
    Watch {
        id: node(rt, number),
        seen: seen.ok().expect(rt, "memory"),
    }
}

/// Each seat with a watch over the node of its number.
fn members_of<K: RunName>(rt: &impl Abort, alloc: Global, seats: Vec<Seat<K>>) -> Vec<Member<K>> {
    let mut members = Vec::new(alloc);
    for seat in seats {
        let watch = watch_of(rt, alloc, seat.number() as u8);
        let member = Member { seat, watch };
        members.push(member).ok().expect(rt, "memory");
    }
    members
}

/// The seats and their watches, apart.
fn parted<K: RunName>(
    rt: &impl Abort,
    alloc: Global,
    members: Vec<Member<K>>,
) -> (Vec<Seat<K>>, Vec<Watch>) {
    let mut seats = Vec::new(alloc);
    let mut watches = Vec::new(alloc);
    for member in members {
        let Member { seat, watch } = member;
        seats.push(seat).ok().expect(rt, "memory");
        watches.push(watch).ok().expect(rt, "memory");
    }
    (seats, watches)
}

/// What a read of the node shows after this call.
fn shown_after(rt: &impl Abort, manager: &mut Manager, call: Call, id: NodeId) -> u8 {
    if manager.begun() == u64::MAX {
        panic!(rt; "too many sessions");
    }
    manager.apply(call);
    manager.shown(id)
}

/// What a read of the node shows before the first call of the history and after each.
fn shown_after_each(
    rt: &impl Abort,
    alloc: Global,
    net: &Network,
    history: &[Entry],
    id: NodeId,
) -> Vec<u8> {
    let mut manager = Manager::new(net);
    let mut shown = Vec::new(alloc);
    shown.push(manager.shown(id)).ok().expect(rt, "memory");
    for entry in history {
        let after = shown_after(rt, &mut manager, entry.call, id);
        shown.push(after).ok().expect(rt, "memory");
    }
    shown
}

/// All members work at once.
fn work_at_once<K: RunName + Send + Sync, R: Wait + Threads + Abort + Send + Sync>(
    rt: &R,
    register: &Register<SimWire, K>,
    members: &mut [Member<K>],
) {
    let callers = AtomicU32::new(u32::from(CALLERS));
    thread::for_each_mut(
        rt,
        members,
        usize::from(SEATS),
        &|_, member| { member.work(rt, register, &callers) },
    );
}

/// Compares each watch with the history, which has all calls.
fn are_replayed(
    rt: &impl Abort,
    alloc: Global,
    net: &Network,
    history: &[Entry],
    watches: &[Watch],
) {
    sure(rt, history.len() == LIMIT as usize);
    for watch in watches.iter() {
        watch.is_replayed(rt, alloc, net, history);
    }
}

/// All members work at once; then each watch is compared with the history.
fn works<K: RunName + Send + Sync, R: Wait + Threads + Abort + Send + Sync>(
    rt: &R,
    alloc: Global,
    opened: Opened<SimWire>,
)
    requires { Names K.RunName opened }
{
    let net = opened.net;
    let (register, seats) = named::<K>(rt, opened);
    let mut members = members_of(rt, alloc, seats);
    work_at_once(rt, &register, members.as_mut_slice());
    let (seats, watches) = parted(rt, alloc, members);
    let closed = close(rt, register, seats);
    let history = closed.history.as_slice();
    are_replayed(rt, alloc, net, history, watches.as_slice());
}

/// Opens a register, at which all members work.
fn opens_and_works<R: Wait + Threads + Abort + Send + Sync>(rt: &R, alloc: Global, net: &Network) {
    let opened = open(rt, alloc, net, SEATS, LIMIT, LIMIT);
    works::<Brand, _>(rt, alloc, opened);
}

#[test]
fn readers_see_what_100000_calls_leave(rt: HostRuntime) {
    let mut slaves = [(0, 0x05); 7];
    for (place, (number, _)) in slaves.iter_mut().enumerate() {
        *number = place as u8 + 5;
    }
    let net = network(&rt, rt.alloc(), OWN, &slaves);
    opens_and_works(&rt, rt.alloc(), &net);
    opens_and_works(&rt, rt.alloc(), &net);
}
