//! The seat of the operator of a live run.
ghost use Rattle.std.specs.Prelude.{◌≡◌, ◌++◌, ◌∷◌, [], Err, IfOk, IsTrue, OnErr, Some, false};
ghost use Rattle.cm_nmt.specs.Bits.{has_bit};
ghost use Rattle.cm_history.specs.declared.call.Call.TheVariants.{StartNetwork};
ghost use Rattle.cm_operator.specs.Console.{AsksPlainly};
ghost use Rattle.cm_crew.specs.ReceivedCalls.{IsNoReport, IsReceivedList};
ghost use Rattle.cm_crew.specs.Operated.{IsOperators};
ghost use Rattle.cm_crew.specs.CallsMade.{calls_made};
ghost use Rattle.cm_crew.specs.Typing.{Asks, IsUntyped, SpellsCall};
ghost use Rattle.cm_crew.specs.Workers.{AreOfItsSeat};

use cm_history::{Call, CallFault, is_same_call};
use cm_operator::{Command, TypedLine, read_command};
use cm_receiving::BusName;
use cm_register::{Receipt, RunName, Seat, SharedManager};
use cm_run::{NoHistory, not_called, started};
use std::marker::{Model, PhantomData};
use std::sync::Wait;

/// Why the call that a line asks for isn't made.
#[derive(Clone, Copy)]
pub enum TypedFault {
    /// The line doesn't ask for it, or doesn't stand behind that of the last call that was typed: this never comes, though no clause
    /// says so.
    NotNext,
    /// The call couldn't be made.
    NotCalled(CallFault),
}

/// Whether the command asks for the call.
fn asks(command: &Command, call: &Call) -> bool
    ensures asked { IsTrue result → Asks (Some command.now) call.now }
    ensures own { IsTrue result → AsksPlainly command.now → IsNoReport call.now }
{
    match command {
        Command::Make(asked) => is_same_call(asked, call),
        Command::Request(target, value) => is_same_call(&Call::Request(*target, *value), call),
        Command::Start => {
            is_same_call(&Call::StartNetwork, call) || is_same_call(&Call::Request(128, 5), call)
        }
        _ => false,
    }
}

/// Whether the line asks for the call.
fn spells(line: &[u8], call: &Call) -> bool
    ensures asked { IsTrue result → SpellsCall line.now call.now }
    ensures own { IsTrue result → IsNoReport call.now }
{
    match read_command(line) {
        Ok(command) => asks(&command, call),
        Err(_) => false,
    }
}

/// The operator's seat, which has started the network. Its calls behind that are those that were typed, in their order, and those of
/// the watch: losses, signals, the time, and requests that wake slaves. Contracts see the seat.
#[derive(Drop)]
pub struct OperatorSeat<K: RunName, B: BusName> {
    seat: Seat<K>,
    /// The place of the line of its last typed call.
    last: u64,
    of: PhantomData<B>,
}

impl<K: RunName, B: BusName> Model for OperatorSeat<K, B> {
    ghost use Rattle.cm_register.specs.SeatViews.{SeatView};
    ghost use Rattle.cm_crew.specs.ReceivedCalls.{IsReceivedList};
    ghost use Rattle.cm_crew.specs.Operated.{IsOperators};
    ghost use Rattle.cm_crew.specs.Workers.{AreOfItsSeat};

    ghost Value = { SeatView };

    ghost view = { λ o. o.seat };

    ghost invariant = { λ o. IsReceivedList B.format B.text K.net o.seat.list
        × IsOperators B.typed o.seat o.last
        × AreOfItsSeat K.net K.seats o.seat.number o.seat.list };
}

impl<K: RunName, B: BusName> OperatorSeat<K, B> {
    /// The operator starts the network, by the first entry of all. That another's call is first never comes.
    pub fn start<R: Wait, M: SharedManager<K, R>>(
        rt: &R,
        register: &M,
        seat: Seat<K>,
    ) -> Result<OperatorSeat<K, B>, NoHistory>
        requires { (seat.number ≡ 1) × (seat.list ≡ []) }
        ensures refused { result ≡ Err NoHistory.NotMaster → has_bit K.net.startup 0 ≡ false }
        ensures first { IfOk result (λ o. calls_made o ≡ StartNetwork ∷ []) }
    {
        let mut seat = seat;
        let is_master = register.network().startup().is_master();
        match register.call(rt, &mut seat, Call::StartNetwork) {
            Ok(receipt) => {
                started(is_master, Ok(receipt))?;
                if receipt.position != 1 {
                    return Err(NoHistory::NoWorker);
                }
                Ok(OperatorSeat {
                    seat,
                    last: 0,
                    of: PhantomData,
                })
            }
            Err(fault) => Err(not_called(fault)),
        }
    }

    /// Makes a call that no line asks for.
    pub fn call<R: Wait, M: SharedManager<K, R>>(
        &mut self,
        rt: &R,
        register: &M,
        call: Call,
    ) -> Result<Receipt, CallFault>
        requires { IsUntyped call }
        ensures made { IfOk result (λ _. calls_made self.new ≡ calls_made self.old ++ call ∷ []) }
        ensures same { OnErr result (self.new ≡ self.old) }
    {
        register.call(rt, &mut self.seat, call)
    }

    /// Makes the call that a typed line asks for, which stands behind the lines of all typed calls before.
    pub fn make<R: Wait, M: SharedManager<K, R>>(
        &mut self,
        rt: &R,
        register: &M,
        line: &TypedLine<B>,
        call: Call,
    ) -> Result<Receipt, TypedFault>
        ensures made { IfOk result (λ _. calls_made self.new ≡ calls_made self.old ++ call ∷ []) }
        ensures same { OnErr result (self.new ≡ self.old) }
    {
        let place = line.place();
        if place <= self.last || !spells(line.line(), &call) {
            return Err(TypedFault::NotNext);
        }
        match register.call(rt, &mut self.seat, call) {
            Ok(receipt) => {
                self.last = place;
                Ok(receipt)
            }
            Err(fault) => Err(TypedFault::NotCalled(fault)),
        }
    }

    /// The seat, to look at.
    pub fn as_seat(&self) -> &Seat<K>
        ensures { result.now ≡ self.now }
    {
        &self.seat
    }

    /// The seat, and the place of the line of its last typed call.
    pub(crate) fn into_seat(self) -> (Seat<K>, u64)
        ensures same { result.0 ≡ self }
        ensures received { IsReceivedList B.format B.text K.net result.0.list }
        ensures operators { IsOperators B.typed result.0 result.1 }
        ensures own { AreOfItsSeat K.net K.seats result.0.number result.0.list }
    {
        (self.seat, self.last)
    }
}
