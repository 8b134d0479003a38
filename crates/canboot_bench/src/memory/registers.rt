//! A register and a book, which are opened, named, called until their history is full, read and closed.

ghost use Rattle.cm_register.specs.Naming.{Names};

use crate::closing::{Left, left_by, left_by_book};
use crate::memory::lists::listed;
use crate::memory::saying::{done, refused, refused_at, surely};
use cm_history::{Call, CallFault, Reply};
use cm_netlist::Network;
use cm_register::{Book, OpenFault, Opened, Receipt, Register, RunName, Seat, Seen};
use cm_run::SimWire;
use std::marker::Brand;
use std::sync::Wait;

/// How many calls are made: a seat takes memory for 4 and 32 calls, so that one more wants memory, and
/// the history is full too.
const CALLS: u32 = 32;

/// A wire with room for a frame.
fn wire<R: Print + AllocGlobal>(rt: &R) -> Option<SimWire> {
    match SimWire::new(rt.alloc(), 1) {
        Ok(wire) => Some(wire),
        Err(_) => {
            refused(rt, "wire")?;
            SimWire::new(rt.alloc(), 1).ok()
        }
    }
}

/// A register that isn't named yet.
fn open<'n, R: Print + AllocGlobal>(rt: &R, net: &'n Network) -> Option<Opened<'n, SimWire>> {
    match Register::open(rt.alloc(), net, 2, CALLS, wire(rt)?) {
        Ok(opened) => Some(opened),
        Err(OpenFault::OutOfMemory) => {
            refused(rt, "open")?;
            Register::open(rt.alloc(), net, 2, CALLS, wire(rt)?).ok()
        }
        Err(_) => None,
    }
}

/// The call at this place, its reply, and the manager's own state after it.
fn story(position: u32) -> (Call, Reply, u8) {
    match position {
        1 => (Call::StartNetwork, Reply::Started, 127),
        _ if position % 2 == 0 => (Call::Request(1, 4), Reply::Done, 4),
        _ => (Call::Request(1, 5), Reply::Done, 5),
    }
}

/// Makes sure of a call that was made, and of what is read then.
fn is_made<K: RunName>(seat: &mut Seat<K>, receipt: Receipt, position: u32) -> Option<()> {
    let (_, reply, state) = story(position);
    surely(receipt == Receipt { position, reply })?;
    let seen = Seen {
        count: position,
        state,
    };
    surely(seat.read(1) == Ok(seen))
}

/// Makes sure that a call was refused memory, and has changed nothing of the seat.
fn is_refused<R: Print, K: RunName>(
    rt: &R,
    seat: &Seat<K>,
    fault: CallFault,
    position: u32,
) -> Option<()> {
    surely(fault == CallFault::OutOfMemory)?;
    surely(seat.list().len() + 1 == position as usize)?;
    refused_at(rt, "call", position)
}

/// Makes a call, and once more where memory is refused.
fn insist<R: Print + Wait, K: RunName>(
    rt: &R,
    register: &Register<SimWire, K>,
    seat: &mut Seat<K>,
    call: &Call,
    position: u32,
) -> Option<Receipt> {
    match register.call(rt, seat, *call) {
        Ok(receipt) => Some(receipt),
        Err(fault) => {
            is_refused(rt, seat, fault, position)?;
            register.call(rt, seat, *call).ok()
        }
    }
}

/// Makes one call more than the full history has room for: want of memory is told before.
fn is_full<R: Print + Wait, K: RunName>(
    rt: &R,
    register: &Register<SimWire, K>,
    seat: &mut Seat<K>,
) -> Option<()> {
    let mut more = register.call(rt, seat, Call::Read(1)).err()?;
    if more == CallFault::OutOfMemory {
        is_refused(rt, seat, more, CALLS + 1)?;
        more = register.call(rt, seat, Call::Read(1)).err()?;
    }
    surely(more == CallFault::JournalFull)
}

/// The first call of a seat, and each behind it until the history is full, then one more.
fn call_often<R: Print + Wait, K: RunName>(
    rt: &R,
    register: &Register<SimWire, K>,
    seat: &mut Seat<K>,
) -> Option<()> {
    for position in 1..=CALLS {
        let (call, _, _) = story(position);
        let receipt = insist(rt, register, seat, &call, position)?;
        is_made(seat, receipt, position)?;
    }
    is_full(rt, register, seat)
}

/// Says that memory for a name was refused. `None` where that wasn't the fault.
fn isnt_named<R: Print>(rt: &R, fault: OpenFault) -> Option<bool> {
    surely(fault == OpenFault::OutOfMemory)?;
    refused(rt, "named")?;
    Some(false)
}

/// Says how many entries are left, where all calls were made and what was called was closed.
fn is_closed<R: Print>(rt: &R, word: &str, called: Option<()>, left: Option<Left>) -> Option<bool> {
    called?;
    done(rt, word, left?.entries)?;
    Some(true)
}

/// Makes the calls by the first seat.
fn call_from_first<R: Print + Wait, K: RunName>(
    rt: &R,
    register: &Register<SimWire, K>,
    seats: &mut [Seat<K>],
) -> Option<()> {
    call_often(rt, register, seats.first_mut()?)
}

/// Names a register and does all that is done with it. Whether memory for the name was there.
fn use_register<R: Print + Wait, K: RunName>(rt: &R, opened: Opened<SimWire>) -> Option<bool>
    requires { Names K.RunName opened }
{
    match opened.named::<K>() {
        Ok((register, mut seats)) => {
            let called = call_from_first(rt, &register, seats.as_mut_slice());
            is_closed(rt, "register", called, left_by(register, seats))
        }
        Err(fault) => isnt_named(rt, fault),
    }
}

/// Opens a register, and does the same.
fn open_and_use<R: Print + AllocGlobal + Wait>(rt: &R, net: &Network) -> Option<bool> {
    use_register::<_, Brand>(rt, open(rt, net)?)
}

/// A register.
pub(crate) fn register<R: Print + AllocGlobal + Wait>(rt: &R) -> Option<()> {
    let net = listed(rt, 0)?;
    if open_and_use(rt, &net)? {
        return Some(());
    }
    surely(open_and_use(rt, &net)?)
}

/// Makes a call of a book, and once more where memory is refused; the book has the history that it had.
fn insist_alone<R: Print, K: RunName>(
    rt: &R,
    book: &mut Book<SimWire, K>,
    seat: &mut Seat<K>,
    call: &Call,
    position: u32,
) -> Option<Receipt> {
    match book.apply(seat, *call) {
        Ok(receipt) => Some(receipt),
        Err(fault) => {
            is_refused(rt, seat, fault, position)?;
            surely(book.history().len() + 1 == position as usize)?;
            book.apply(seat, *call).ok()
        }
    }
}

/// Calls of a book until its history is full.
fn apply_often<R: Print, K: RunName>(
    rt: &R,
    book: &mut Book<SimWire, K>,
    seat: &mut Seat<K>,
) -> Option<()> {
    for position in 1..=CALLS {
        let (call, _, _) = story(position);
        let receipt = insist_alone(rt, book, seat, &call, position)?;
        is_made(seat, receipt, position)?;
    }
    Some(())
}

/// Makes the calls of a book by the first seat.
fn apply_from_first<R: Print, K: RunName>(
    rt: &R,
    book: &mut Book<SimWire, K>,
    seats: &mut [Seat<K>],
) -> Option<()> {
    apply_often(rt, book, seats.first_mut()?)
}

/// Names a book and does all that is done with it. Whether memory for the name was there.
fn use_book<R: Print, K: RunName>(rt: &R, opened: Opened<SimWire>) -> Option<bool>
    requires { Names K.RunName opened }
{
    match opened.book::<K>() {
        Ok((mut book, mut seats)) => {
            let called = apply_from_first(rt, &mut book, seats.as_mut_slice());
            is_closed(rt, "book", called, left_by_book(book, seats))
        }
        Err(fault) => isnt_named(rt, fault),
    }
}

/// Opens a book, and does the same.
fn open_and_use_alone<R: Print + AllocGlobal>(rt: &R, net: &Network) -> Option<bool> {
    use_book::<_, Brand>(rt, open(rt, net)?)
}

/// A book.
pub(crate) fn book<R: Print + AllocGlobal>(rt: &R) -> Option<()> {
    let net = listed(rt, 0)?;
    if open_and_use_alone(rt, &net)? {
        return Some(());
    }
    surely(open_and_use_alone(rt, &net)?)
}
