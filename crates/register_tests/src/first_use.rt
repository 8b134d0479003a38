//! How a register is opened, named, used and closed, as docs/LIBRARY.md shows it.

ghost use Rattle.cm_register.specs.Naming.{Names};

use cm_history::{Call, Reply};
use cm_netlist::Network;
use cm_nmt::{NodeId, Startup};
use cm_register::{Opened, Receipt, Register, RunName};
use cm_run::SimWire;
use std::marker::Brand;
use std::process::Abort;
use std::sync::Wait;
use std::test::Fail;

/// What is done with the register. `K` is its name: it has one register alone.
fn start<K: RunName, R: Wait + Abort>(rt: &R, opened: Opened<SimWire>) -> Result<(), Fail>
    requires { Names K.RunName opened }
{
    let Ok((register, mut seats)) = opened.named::<K>() else {
        return Err(Fail::from("memory"));
    };
    let [seat] = seats.as_mut_slice() else {
        return Err(Fail::from("a seat"));
    };
    let started = register.call(rt, seat, Call::StartNetwork);
    let own = seat.read(1);
    let Ok(closed) = register.close(seats) else {
        return Err(Fail::from("a seat is missing"));
    };
    let first = Receipt {
        position: 1,
        reply: Reply::Started,
    };
    assert!(rt; started == Ok(first));
    assert!(rt; own.is_ok_and(|seen| seen.count == 1));
    assert!(rt; closed.history.len() == 1);
    Ok(())
}

#[test]
fn a_register_is_opened_and_named(rt: HostRuntime) -> Result<(), Fail> {
    let Some(own) = NodeId::new(1) else {
        return Err(Fail::from("a node-ID"));
    };
    let net = Network::new(rt.alloc(), own, Startup(1), 0);
    let wire = SimWire::new(rt.alloc(), 10)?;
    let Ok(opened) = Register::open(rt.alloc(), &net, 1, 10, wire) else {
        return Err(Fail::from("open"));
    };
    start::<Brand, _>(&rt, opened)
}
