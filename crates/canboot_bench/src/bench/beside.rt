//! Nanoseconds for one call of a register: by threads, beside readers, and beside one who publishes versions.

use crate::bench::network::{full_network, listed_terms};
use crate::bench::round::{Plan, Round, run_round};
use crate::bench::tape::open_register;
use crate::bench::timing::median;
use cm_netlist::Network;
use cm_nmt::Terms;
use std::alloc::Global;
use std::io::{self, Write};
use std::marker::Brand;
use std::rt::Clock;
use std::sync::Wait;
use std::thread::Threads;

const ROUNDS: u32 = 15;

/// How many entries a register has at most.
const MOST_ENTRIES: u32 = 1_048_576;

const MOST_SEATS: u16 = 16;

/// How many calls of each seat a short run makes.
const FEW: u32 = 500;

/// Rounds of so many callers and readers, beside one who publishes or none, and what each took.
#[derive(Drop)]
struct Sheet {
    callers: u16,
    readers: u16,
    publishes: bool,
    calls: Vec<u64>,
    reads: Vec<u64>,
    taken: Vec<u64>,
    told: Vec<u64>,
}

impl Sheet {
    fn new(alloc: Global, callers: u16, readers: u16, publishes: bool) -> Sheet {
        Sheet {
            callers,
            readers,
            publishes,
            calls: Vec::new(alloc),
            reads: Vec::new(alloc),
            taken: Vec::new(alloc),
            told: Vec::new(alloc),
        }
    }

    /// Notes what a round took.
    fn note(&mut self, round: Round) -> Option<()> {
        self.calls.push(round.calls).ok()?;
        self.reads.push(round.reads).ok()?;
        self.taken.push(round.taken).ok()?;
        self.told.push(round.told).ok()
    }
}

/// Measures a round of this sheet, of so many calls of each caller.
fn run_one<R: Clock + AllocGlobal + Threads + Wait + Drop + Copy + Send + Sync>(
    rt: &R,
    net: &Network,
    terms: &[Terms],
    count: u32,
    sheet: &mut Sheet,
) -> Option<()> {
    let Sheet {
        callers,
        readers,
        publishes,
        ..
    } = *sheet;
    let seats = callers.saturating_add(readers);
    let limit = count.saturating_mul(u32::from(callers)).saturating_add(1);
    let opened = open_register(rt, net, seats, limit)?;
    let plan = Plan {
        terms,
        count,
        callers: usize::from(callers),
        publishes,
    };
    sheet.note(run_round::<R, Brand>(rt, rt.alloc(), opened, plan)?)
}

/// Measures so many rounds.
fn run_rounds<R: Clock + AllocGlobal + Threads + Wait + Drop + Copy + Send + Sync>(
    rt: &R,
    count: u32,
    rounds: u32,
    sheet: &mut Sheet,
) -> Option<()> {
    let net = full_network(rt.alloc())?;
    let terms = listed_terms(rt.alloc(), &net)?;
    for _ in 0..rounds {
        run_one(rt, &net, terms.as_slice(), count, sheet)?;
    }
    Some(())
}

/// Prints the medians of a sheet whose callers made so many calls each, and the best of its calls.
fn print_sheet<R: Print>(rt: &R, word: &str, count: u32, sheet: &mut Sheet) -> Option<()> {
    let made = u64::from(count).max(1);
    let Sheet {
        callers,
        readers,
        ..
    } = *sheet;
    let calls = median(sheet.calls.as_mut_slice()).saturating_mul(10) / made;
    let best = sheet.calls.first().copied()?.saturating_mul(10) / made;
    let reads = median(sheet.reads.as_mut_slice());
    let taken = median(sheet.taken.as_mut_slice()) / made;
    let told = median(sheet.told.as_mut_slice()) / made;
    let mut out = io::writer(rt);
    writeln!(
        out,
        "{word}: {callers} callers, {readers} readers: {}.{} ns per call, {}.{} the best; {reads} reads per second; \
         {taken} ns to take a batch, {told} to tell and publish an entry",
        calls / 10,
        calls % 10,
        best / 10,
        best % 10
    )
    .ok()
}

/// The rounds of a word: `lock`, of so many callers; `read`, of one caller and so many readers; `versions`, of one caller
/// beside one who publishes. `None` of another word.
fn sheet_of(alloc: Global, word: &str, seats: u16) -> Option<Sheet> {
    match word {
        "lock" if seats > 0 => Some(Sheet::new(alloc, seats, 0, false)),
        "read" => Some(Sheet::new(alloc, 1, seats, false)),
        "versions" => Some(Sheet::new(alloc, 1, 0, true)),
        _ => None,
    }
}

/// Prints the nanoseconds of a call of a register that boots 126 slaves again and again, of so many calls of each caller, and
/// what there is beside them. `None` where there are over 16 callers or readers, or over 1,048,575 calls in all.
pub fn measure<R: Clock + Print + AllocGlobal + Threads + Wait + Drop + Copy + Send + Sync>(
    rt: &R,
    word: &str,
    count: u32,
    seats: u16,
) -> Option<()> {
    let all = count.saturating_mul(u32::from(seats.max(1)));
    if count == 0 || MOST_SEATS < seats || MOST_ENTRIES <= all {
        return None;
    }
    let mut sheet = sheet_of(rt.alloc(), word, seats)?;
    run_rounds(rt, count, ROUNDS, &mut sheet)?;
    print_sheet(rt, word, count, &mut sheet)
}

/// Makes a few calls in one round of each kind.
pub fn run_briefly<R: Clock + Print + AllocGlobal + Threads + Wait + Drop + Copy + Send + Sync>(
    rt: &R,
) -> Option<()> {
    for word in ["lock", "read", "versions"] {
        let mut sheet = sheet_of(rt.alloc(), word, 2)?;
        run_rounds(rt, FEW, 1, &mut sheet)?;
        let mut out = io::writer(rt);
        writeln!(out, "{word}: {FEW} calls of each caller").ok()?;
    }
    Some(())
}
