ghost use Rattle.std.specs.Prelude.{◌≡◌, ◌≢◌, ◌+◌, ◌<◌, ◌≤◌, [], IfSome, None, Some, option_map};
ghost use Rattle.cm_netlist.specs.Workers.{worker_of};
ghost use Rattle.cm_register.specs.Reads.{HasMadeCalls};
ghost use Rattle.cm_crew.specs.Workers.{seat_of as seat_in};

use crate::heard_seat::HeardSeat;
use crate::lookout::UntilOver;
use crate::rounds::live_round;
use cm_bus::{LiveBus, Port};
use cm_netlist::worker_of;
use cm_nmt::NodeId;
use cm_receiving::BusName;
use cm_register::{RunName, Seat, SharedManager};
use cm_run::Outcome;
use std::marker::Model;
use std::sync::Wait;
use std::sync::atomic::AtomicBool;

/// A worker's seat with its bus. Each report of the seat has its answers among the frames that the bus has heard, in
/// their order, and is on a slave of this worker; it makes the calls of boots alone. Contracts see the seat.
#[derive(Drop)]
pub struct Booth<'n, K: RunName, B: BusName, P: Drop> {
    seat: Seat<K>,
    bus: LiveBus<'n, B, P>,
    /// How many workers there are.
    workers: u16,
}

impl<'n, K: RunName, B: BusName, P: Drop> Model for Booth<'n, K, B, P> {
    ghost use Rattle.std.specs.Prelude.{◌≡◌, ◌+◌, ◌≤◌};
    ghost use Rattle.cm_register.specs.SeatViews.{SeatView};
    ghost use Rattle.cm_crew.specs.ReceivedCalls.{AreReceived};
    ghost use Rattle.cm_crew.specs.Typing.{BootsAlone};
    ghost use Rattle.cm_crew.specs.Workers.{AreOfItsSeat};

    ghost Value = { SeatView };

    ghost view = { λ w. w.seat };

    ghost invariant = { λ w. AreReceived B.format B.text K.net w.seat.list 0 w.bus.heard
        × BootsAlone w.seat.list × AreOfItsSeat K.net K.seats w.seat.number w.seat.list
        × (1 ≤ w.workers) × (w.workers + 1 ≡ K.seats) };
}

/// The seat of the worker that boots a slave: the operator has seat 1, the workers have the others.
fn seat_of(listed: &[NodeId], workers: u16, id: NodeId) -> Option<usize>
    ensures { result ≡ option_map (λ worker. worker + 2) (worker_of listed.now workers id) }
{
    match worker_of(listed, usize::from(workers), id) {
        Some(worker) => Some(worker + 2),
        None => None,
    }
}

impl<'n, K: RunName, B: BusName, P: Port<B>> Booth<'n, K, B, P> {
    /// A seat that has made no call, with its bus, of one of so many workers.
    pub fn new(seat: Seat<K>, bus: LiveBus<'n, B, P>, workers: u16) -> Booth<'n, K, B, P>
        requires list { seat.list ≡ [] }
        requires workers { (1 ≤ workers) × (workers + 1 ≡ K.seats) }
        ensures { result ≡ seat }
    {
        Booth { seat, bus, workers }
    }

    /// The attempts at one slave, `most` at most; no boot is reported once `over` is set. `None` where it is another worker's;
    /// nothing is done then.
    pub fn boot<R: Wait, M: SharedManager<K, R>>(
        &mut self,
        rt: &R,
        register: &M,
        id: NodeId,
        most: u8,
        over: &AtomicBool,
    ) -> Option<Outcome>
        requires { (0 < most) × (most ≤ 10) }
        ensures own { IfSome result (λ o. (o.id ≡ id) × (seat_in K.net K.seats id ≡ Some self.old.number)) }
        ensures other { result ≡ None → (seat_in K.net K.seats id ≢ Some self.old.number)
            × (self.new ≡ self.old) }
        ensures calls { HasMadeCalls self.old self.new }
    {
        let listed = register.network().listed_ids();
        if seat_of(listed.as_slice(), self.workers, id) != Some(usize::from(self.seat.number())) {
            return None;
        }
        Some(live_round(
            rt,
            register,
            &mut self.seat,
            &mut self.bus,
            &mut UntilOver::new(over),
            id,
            most,
        ))
    }

    /// The seat, and the port of the bus.
    pub fn into_parts(self) -> (HeardSeat<K, B>, P)
        ensures seat { result.0 ≡ self.entry }
    {
        let Booth { seat, bus, .. } = self;
        (HeardSeat::around(seat), bus.into_port())
    }
}
