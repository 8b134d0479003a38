//! An operator's calls, and workers that boot a network.

ghost use Rattle.cm_register.specs.Naming.{Names};

use crate::closing::{Left, left_by};
use crate::memory::lists::listed;
use crate::memory::saying::{done, refused, refused_at, surely};
use cm_history::{Call, CallFault};
use cm_netlist::Network;
use cm_nmt::Status;
use cm_register::{Opened, Register, RunName, Seat};
use cm_run::{
    Booted, Last, Outcome, RunFault, RunKind, SimBus, SimSlave, SimWire, boot_all, operate,
};
use std::marker::Brand;
use std::sync::Wait;
use std::thread::Threads;

/// How many calls an operator makes.
const CALLS: u32 = 40;

/// A register that isn't named yet; memory for it isn't asked of here, but by the words `register` and
/// `book`.
fn open<'n, R: AllocGlobal>(rt: &R, net: &'n Network, seats: u16) -> Option<Opened<'n, SimWire>> {
    let wire = SimWire::new(rt.alloc(), 10).ok()?;
    Register::open(rt.alloc(), net, seats, 40, wire).ok()
}

/// Makes an operator's calls, and says where one was refused memory: how many are made.
fn make_calls<R: Print + AllocGlobal + Wait, K: RunName>(
    rt: &R,
    register: &Register<SimWire, K>,
    seat: &mut Seat<K>,
) -> Option<usize> {
    let calls = [Call::Read(1); CALLS as usize];
    match operate(rt, rt.alloc(), register, seat, &calls) {
        Ok(receipts) => Some(receipts.len()),
        Err(stopped) => {
            surely(stopped.fault == CallFault::OutOfMemory)?;
            refused_at(rt, "operate", stopped.done as u32)?;
            Some(stopped.done)
        }
    }
}

/// The calls of an operator, who has the first seat: as many are made as it says.
fn operates_from_first<R: Print + AllocGlobal + Wait, K: RunName>(
    rt: &R,
    register: &Register<SimWire, K>,
    seats: &mut [Seat<K>],
) -> Option<usize> {
    let seat = seats.first_mut()?;
    let made = make_calls(rt, register, seat)?;
    surely(seat.list().len() == made)?;
    Some(made)
}

/// Says how many calls were made, which are all entries that are left.
fn is_operated<R: Print>(rt: &R, made: Option<usize>, left: Option<Left>) -> Option<()> {
    let made = made?;
    surely(left?.entries == made)?;
    done(rt, "operate", made)
}

/// The calls of an operator, and the register closes with them.
fn operates<R: Print + AllocGlobal + Wait, K: RunName>(
    rt: &R,
    opened: Opened<SimWire>,
) -> Option<()>
    requires { Names K.RunName opened }
{
    let Ok((register, mut seats)) = opened.named::<K>() else {
        return refused(rt, "register");
    };
    let made = operates_from_first(rt, &register, seats.as_mut_slice());
    is_operated(rt, made, left_by(register, seats))
}

/// An operator's calls, where there is a register.
pub(crate) fn operate_often<R: Print + AllocGlobal + Wait>(rt: &R) -> Option<()> {
    let net = listed(rt, 0)?;
    match open(rt, &net, 1) {
        Some(opened) => operates::<_, Brand>(rt, opened),
        None => refused(rt, "register"),
    }
}

/// A bus for each of two workers, with all slaves.
fn buses<R: AllocGlobal>(rt: &R, net: &Network) -> Option<Vec<SimBus>> {
    let mut bus = SimBus::new();
    for id in net.listed_ids().iter() {
        bus.put(*id, SimSlave::agreeing(net, *id)?);
    }
    vec![in rt.alloc(); bus; 2].ok()
}

/// Makes sure that a slave was booted, or that a call of its boot was refused memory, which is said.
fn is_told<R: Print>(rt: &R, outcome: &Outcome) -> Option<()> {
    match outcome.last {
        Last::Status(status) => surely(status == Status::Ok),
        Last::Fault(fault) => {
            surely(fault == CallFault::OutOfMemory)?;
            refused_at(rt, "outcome", u32::from(outcome.id.get()))
        }
        Last::Refused(_) | Last::Left => None,
    }
}

/// Makes sure of each slave.
fn are_told<R: Print>(rt: &R, outcomes: &[Outcome]) -> Option<()> {
    for outcome in outcomes.iter() {
        is_told(rt, outcome)?;
    }
    Some(())
}

/// Makes sure of what is said of a boot that wasn't made, and says it: where memory for it was refused, no seat has
/// called.
fn isnt_booted<R: Print, K: RunName>(
    rt: &R,
    kind: RunKind,
    seats: &[Seat<K>],
    buses: &[SimBus],
) -> Option<()> {
    match kind {
        RunKind::OutOfMemory => refused(rt, "boot")?,
        RunKind::NoWorker => println!(rt; "boot: no worker").ok()?,
        _ => return None,
    }
    let called = seats.iter().any(|seat| !seat.list().is_empty());
    surely(kind == RunKind::NoWorker || !called)?;
    surely(buses.len() == 2)
}

/// Makes sure of what is said of a boot, and gives the seats back.
fn seats_of<R: Print, K: RunName>(
    rt: &R,
    booted: Result<Booted<SimBus, K>, RunFault<SimBus, K>>,
) -> (Option<()>, Vec<Seat<K>>) {
    match booted {
        Ok(booted) => (are_told(rt, booted.outcomes.as_slice()), booted.seats),
        Err(fault) => {
            let (seats, buses) = (fault.seats.as_slice(), fault.buses.as_slice());
            (isnt_booted(rt, fault.kind, seats, buses), fault.seats)
        }
    }
}

/// The last seat, the operator's, and whether the network was started by it, which can be refused memory.
fn start<R: Wait, K: RunName>(
    rt: &R,
    register: &Register<SimWire, K>,
    seats: &mut Vec<Seat<K>>,
) -> Option<(bool, Seat<K>)> {
    let mut operator = seats.pop()?;
    let started = register.call(rt, &mut operator, Call::StartNetwork);
    Some((started.is_ok(), operator))
}

/// Two workers boot six slaves, and all seats come back. Whether the boot was begun; where not, memory was refused, which
/// is said.
fn boot_with<R: Print + AllocGlobal + Wait + Threads + Send + Sync, K: RunName + Send + Sync>(
    rt: &R,
    register: &Register<SimWire, K>,
    seats: Vec<Seat<K>>,
    buses: Vec<SimBus>,
    operator: Seat<K>,
) -> (Option<bool>, Vec<Seat<K>>) {
    let booted = boot_all(rt, rt.alloc(), register, seats, buses, 1);
    let (told, mut seats) = seats_of(rt, booted);
    let came = seats.len();
    let is_back = seats.push(operator).is_ok();
    (has_begun(rt, told, came, is_back), seats)
}

/// The last seat starts the network, and the others' workers boot it. All seats come back, where the boot was begun.
fn start_and_boot<R: Print + AllocGlobal + Wait + Threads + Send + Sync, K: RunName + Send + Sync>(
    rt: &R,
    register: &Register<SimWire, K>,
    mut seats: Vec<Seat<K>>,
    buses: Vec<SimBus>,
) -> (Option<bool>, Vec<Seat<K>>) {
    match start(rt, register, &mut seats) {
        Some((true, operator)) => boot_with(rt, register, seats, buses, operator),
        Some((false, _)) => (isnt_begun(rt, "register"), seats),
        None => (None, seats),
    }
}

/// Says that this was refused memory.
fn isnt_begun<R: Print>(rt: &R, word: &str) -> Option<bool> {
    refused(rt, word)?;
    Some(false)
}

/// Makes sure that so many seats came back from the workers, and says it where there was no memory for one more.
fn has_begun<R: Print>(rt: &R, told: Option<()>, came: usize, is_back: bool) -> Option<bool> {
    told?;
    surely(came == 2)?;
    if is_back {
        Some(true)
    } else {
        isnt_begun(rt, "seats")
    }
}

/// Says how many seats' lists are left of a boot that was begun.
fn is_left<R: Print>(rt: &R, begun: Option<bool>, left: Option<Left>) -> Option<()> {
    if begun? {
        done(rt, "boot", left?.lists)
    } else {
        Some(())
    }
}

/// Two workers boot six slaves. No seat is lost: the register closes with all of them.
fn boots<R: Print + AllocGlobal + Wait + Threads + Send + Sync, K: RunName + Send + Sync>(
    rt: &R,
    opened: Opened<SimWire>,
    buses: Vec<SimBus>,
) -> Option<()>
    requires { Names K.RunName opened }
{
    let Ok((register, seats)) = opened.named::<K>() else {
        return refused(rt, "register");
    };
    let (begun, seats) = start_and_boot(rt, &register, seats, buses);
    is_left(rt, begun, left_by(register, seats))
}

/// A boot of this network, where there is all that it needs.
fn open_and_boot<R: Print + AllocGlobal + Wait + Threads + Send + Sync>(
    rt: &R,
    net: &Network,
) -> Option<()> {
    match (open(rt, net, 3), buses(rt, net)) {
        (Some(opened), Some(buses)) => boots::<_, Brand>(rt, opened, buses),
        _ => refused(rt, "register"),
    }
}

/// A boot of six slaves.
pub(crate) fn boot<R: Print + AllocGlobal + Wait + Threads + Send + Sync>(rt: &R) -> Option<()> {
    let net = listed(rt, 6)?;
    open_and_boot(rt, &net)
}
