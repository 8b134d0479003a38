//! Nanoseconds for one call of the sequential manager.

use crate::bench::mix::{Random, next_call};
use crate::bench::network::full_network;
use cm_history::{Call, Orders, Reply};
use cm_netlist::Network;
use cm_sequential::Manager;
use std::alloc::Global;
use std::io::{self, Write};
use std::rt::Clock;
use std::time::Instant;

const RUNS: u32 = 7;

/// How many calls the list has at most.
const LONGEST: usize = 65_536;

/// How many calls a short run makes.
const FEW: usize = 2_000;

#[inline(always)]
fn apply(manager: &mut Manager, call: Call) -> (Reply, Orders) {
    if manager.begun() < u64::MAX {
        manager.apply(call)
    } else {
        (Reply::Noted, Orders::None)
    }
}

fn is_report(call: &Call) -> bool {
    matches!(call, Call::Report(_, _, _))
}

fn is_refused(reply: &Reply) -> bool {
    matches!(reply, Reply::Refused(_))
}

/// The list of calls, how many are reports, and how many are refused.
#[derive(Drop)]
struct Drawn {
    calls: Vec<Call>,
    reports: usize,
    refused: usize,
}

/// Draws so many calls, each for the manager that the ones before it leave.
fn draw(alloc: Global, net: &Network, count: usize) -> Option<Drawn> {
    let mut calls = Vec::with_capacity(alloc, count).ok()?;
    let mut manager = Manager::new(net);
    let mut random = Random::new();
    let mut reports: usize = 0;
    let mut refused: usize = 0;
    for _ in 0..count {
        let call = next_call(net, &manager, &mut random)?;
        let (reply, _) = apply(&mut manager, call);
        if is_report(&call) {
            reports = reports.saturating_add(1);
        }
        if is_refused(&reply) {
            refused = refused.saturating_add(1);
        }
        calls.push(call).ok()?;
    }
    Some(Drawn {
        calls,
        reports,
        refused,
    })
}

/// Makes the calls on a new manager, and counts those that order a frame.
fn make(net: &Network, calls: &[Call]) -> u64 {
    let mut manager = Manager::new(net);
    let mut sent: u64 = 0;
    for call in calls {
        let (_, orders) = apply(&mut manager, *call);
        if orders != Orders::None {
            sent = sent.saturating_add(1);
        }
    }
    sent
}

/// Makes the list of calls this often.
fn make_often(net: &Network, calls: &[Call], rounds: usize) -> u64 {
    let mut sent: u64 = 0;
    for _ in 0..rounds {
        sent = sent.saturating_add(make(net, calls));
    }
    sent
}

/// Tenths of a nanosecond for one call, the best of so many runs.
fn best_call(
    clock: &impl Clock,
    net: &Network,
    calls: &[Call],
    rounds: usize,
    runs: u32,
) -> Option<u128> {
    let made = (calls.len() as u128).saturating_mul(rounds as u128).max(1);
    let mut best = u128::MAX;
    let mut sent: u64 = 0;
    for _ in 0..runs {
        let from = Instant::now(clock).ok()?;
        sent = sent.saturating_add(make_often(net, calls, rounds));
        let nanos = from.elapsed(clock).ok()?.as_nanos();
        best = best.min(nanos.saturating_mul(10) / made);
    }
    if sent == 0 { None } else { Some(best) }
}

/// Prints tenths of a nanosecond for one of these calls, if they were made.
fn print_calls<R: Print>(rt: &R, tenths: Option<u128>, drawn: &Drawn) -> Option<()> {
    let tenths = tenths?;
    let made = drawn.calls.len().max(1);
    let mut out = io::writer(rt);
    writeln!(
        out,
        "calls: {}.{} ns per call (best of {RUNS}; {}% reports, {}% refused)",
        tenths / 10,
        tenths % 10,
        drawn.reports.saturating_mul(100) / made,
        drawn.refused.saturating_mul(100) / made
    )
    .ok()
}

/// Prints the nanoseconds of a call, over about so many calls of operators and boots on 126 slaves.
pub fn measure<R: Clock + Print + AllocGlobal>(rt: &R, count: usize) -> Option<()> {
    let net = full_network(rt.alloc())?;
    let drawn = draw(rt.alloc(), &net, count.min(LONGEST))?;
    let calls = drawn.calls.as_slice();
    let tenths = best_call(rt, &net, calls, count / calls.len().max(1), RUNS);
    print_calls(rt, tenths, &drawn)
}

fn make_few<R: Clock + AllocGlobal>(rt: &R) -> Option<u128> {
    let net = full_network(rt.alloc())?;
    let drawn = draw(rt.alloc(), &net, FEW)?;
    best_call(rt, &net, drawn.calls.as_slice(), 1, 1)
}

/// Draws a few calls, and makes them in one run.
pub fn run_briefly<R: Clock + Print + AllocGlobal>(rt: &R) -> Option<()> {
    make_few(rt)?;
    let mut out = io::writer(rt);
    writeln!(out, "calls: {FEW} calls").ok()
}
