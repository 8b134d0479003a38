//! A caller that boots the slaves of a network again and again.

use crate::bench::network::{SLAVES, agreeing, id_at};
use cm_history::{Call, Reply};
use cm_nmt::{NodeId, Terms};
use cm_register::{Register, RunName, Seat, Wire};
use std::sync::Wait;

/// The calls of one boot, from its begin until the slave is to be booted again.
const ROUND: usize = 7;

/// Where a thread is with its slaves, every so many from its first one: at which slave, which call
/// of its boot is next, and the session.
#[derive(Clone, Copy)]
pub struct Caller {
    first: usize,
    threads: usize,
    place: usize,
    step: usize,
    session: u64,
}

impl Caller {
    /// The caller of the thread that has the slave at place `first`, and each one so many on.
    pub fn new(first: usize, threads: usize) -> Caller {
        Caller {
            first,
            threads,
            place: first,
            step: 0,
            session: 0,
        }
    }

    /// The slave that it boots now.
    #[inline(always)]
    fn slave(&self) -> Option<NodeId> {
        id_at(self.place)
    }

    /// What is listed of the slave that it boots now.
    #[inline(always)]
    fn listed<'t>(&self, terms: &'t [Terms]) -> Option<&'t Terms> {
        terms.get(self.place)
    }

    /// The next call, of this slave.
    #[inline(always)]
    fn next_call(&self, id: NodeId, terms: &Terms) -> Call {
        match self.step {
            0 => Call::Begin(id),
            1 => Call::Report(id, self.session, agreeing(terms)),
            2 => Call::Read(id.get()),
            3 => Call::Signal(id, 5),
            4 => Call::Request(id.get(), 127),
            5 => Call::Elapsed(1),
            _ if self.place % 2 == 0 => Call::Signal(id, 0),
            _ => Call::Lost(id),
        }
    }

    /// Goes on after this reply, to the next call or the next slave.
    #[inline(always)]
    fn go_on(&mut self, reply: &Reply) {
        if let Reply::Begun(number) = reply {
            self.session = *number;
        }
        self.step = self.step.saturating_add(1) % ROUND;
        if self.step == 0 {
            let next = self.place.saturating_add(self.threads);
            self.place = if next < usize::from(SLAVES) {
                next
            } else {
                self.first
            };
        }
    }
}

/// Makes this many calls from one seat. `None` where one isn't made.
pub fn call_often<W: Wire, K: RunName, R: Wait>(
    rt: &R,
    register: &Register<W, K>,
    seat: &mut Seat<K>,
    terms: &[Terms],
    mut caller: Caller,
    count: u32,
) -> Option<()> {
    for _ in 0..count {
        let id = caller.slave()?;
        let listed = caller.listed(terms)?;
        let receipt = register.call(rt, seat, caller.next_call(id, listed)).ok()?;
        caller.go_on(&receipt.reply);
    }
    Some(())
}
