//! Whom a frame is given to that is received of a bus: the worker of its node, while it listens to its identifier.

use crate::support::{node, sure};
use cm_boot::Question;
use cm_bus::{CausedOutlet, LivePort, Outlet, Patience, Port};
use cm_can::{CanFrame, Format, read_frame};
use cm_nmt::NodeId;
use cm_receiving::{Listening, Notification, Received, Routes, Source};
use crossbeam_channel::{Receiver, Sender};
use std::alloc::Global;
use std::io::{self, Empty, Read};
use std::marker::Brand;
use std::process::Abort;
use std::sync::atomic::AtomicBool;
use std::sync::{Arc, Wait};
use std::time::Clock;

/// What is received of a bus of which contracts know nothing.
#[derive(Drop)]
struct Lines {
    left: &'static [u8],
}

impl Read for Lines {
    fn read(&mut self, buf: &mut [u8]) -> io::Result<usize> {
        if let (Some((first, rest)), Some(place)) = (self.left.split_first(), buf.first_mut()) {
            *place = *first;
            self.left = rest;
            return Ok(1);
        }
        Ok(0)
    }
}

/// A flag that isn't set: the bus isn't broken, the run isn't over.
fn unset(rt: &impl Abort, alloc: Global) -> Arc<AtomicBool> {
    let flag = Arc::new(alloc, AtomicBool::new(false));
    flag.ok().expect(rt, "memory")
}

/// The port of this worker, and by what it gets frames.
fn make_port<R: Wait + Clock + Clone + Drop + Abort>(
    rt: &R,
    alloc: Global,
    listening: &Arc<Listening>,
    worker: usize,
) -> (LivePort<R, Brand, Empty>, Sender<Received<Brand>>) {
    let channel = crossbeam_channel::unbounded(alloc);
    let (hears, heard) = channel.ok().expect(rt, "a channel");
    let port = LivePort {
        rt: rt.clone().ok().expect(rt, "memory"),
        worker,
        heard,
        listening: Arc::try_clone(listening).ok().expect(rt, "memory"),
        outlet: CausedOutlet::new(Outlet::new(io::empty(), Format::CanUtils), Some(worker)),
        broken: unset(rt, alloc),
        over: unset(rt, alloc),
        patience: Patience::none(),
    };
    (port, hears)
}

/// The frames that wait for a worker are these, in this order.
fn wait_there<R: Abort + Wait>(rt: &R, heard: &Receiver<Received<Brand>>, texts: &[&str]) {
    for text in texts {
        let frame: Option<CanFrame> = match heard.try_recv(rt) {
            Ok(received) => Some(received.frame()),
            Err(_) => None,
        };
        sure(rt, frame.is_some());
        sure(rt, frame == read_frame(text.as_bytes()));
    }
    sure(rt, heard.try_recv(rt).is_err());
}

/// Nodes 2, 3 and 5.
fn listed(rt: &impl Abort, alloc: Global) -> Vec<NodeId> {
    let mut listed = Vec::new(alloc);
    for number in [2, 3, 5].iter() {
        listed.push(node(rt, *number)).ok().expect(rt, "memory");
    }
    listed
}

/// What is received is given to the workers of nodes 2, 3 and 5 in turn.
fn give<R: Wait + Clock + Abort>(
    rt: &R,
    alloc: Global,
    listening: Arc<Listening>,
    workers: Vec<Sender<Received<Brand>>>,
    left: &'static [u8],
) {
    let channel = crossbeam_channel::unbounded::<Notification, _>(alloc);
    let (notifications, _told) = channel.ok().expect(rt, "a channel");
    let (heard, _heard) = crossbeam_channel::unbounded(alloc)
        .ok()
        .expect(rt, "a channel");
    let (said, _said) = crossbeam_channel::unbounded(alloc)
        .ok()
        .expect(rt, "a channel");
    let routes = Routes {
        listed: listed(rt, alloc),
        listening,
        workers,
        heard,
        said,
        notifications,
    };
    let source = Source::<Brand, Lines>::new(Lines { left }, Format::CanUtils);
    source.receive(rt, &routes);
}

/// Each of these workers listens to the answer of its question.
fn listen_each<R: Wait + Clock + Drop + Abort>(
    rt: &R,
    first: &mut LivePort<R, Brand, Empty>,
    second: &mut LivePort<R, Brand, Empty>,
    asks: &[(usize, u8, Question)],
) {
    for (worker, id, question) in asks {
        if *worker == 0 {
            first.listen(node(rt, *id), question, 10);
        } else {
            second.listen(node(rt, *id), question, 10);
        }
    }
}

/// Neither of two workers listens yet.
fn listening_of(rt: &impl Abort, alloc: Global) -> Arc<Listening> {
    let listening = Listening::new(alloc, 2).ok().expect(rt, "memory");
    Arc::new(alloc, listening).ok().expect(rt, "memory")
}

/// By what the first worker gets frames, and the second.
fn both(
    rt: &impl Abort,
    alloc: Global,
    first: Sender<Received<Brand>>,
    second: Sender<Received<Brand>>,
) -> Vec<Sender<Received<Brand>>> {
    let workers = vec![in alloc; first, second];
    workers.ok().expect(rt, "memory")
}

/// What is received is given to the workers of nodes 2, 3 and 5, of which the first boots nodes 2 and 5: its port
/// and that of the second.
fn receive<R: Wait + Clock + Clone + Drop + Abort>(
    rt: &R,
    alloc: Global,
    asks: &[(usize, u8, Question)],
    left: &'static [u8],
) -> (LivePort<R, Brand, Empty>, LivePort<R, Brand, Empty>) {
    let listening = listening_of(rt, alloc);
    let (mut first, to_first) = make_port(rt, alloc, &listening, 0);
    let (mut second, to_second) = make_port(rt, alloc, &listening, 1);
    listen_each(rt, &mut first, &mut second, asks);
    let workers = both(rt, alloc, to_first, to_second);
    give(rt, alloc, listening, workers, left);
    (first, second)
}

/// Of nodes 2 (worker 1), 3 (worker 2) and 5 (worker 1 too), of another that isn't listed, and noise.
const HEARD: &[u8] = b"(0.0) can0 582#4300100092010200\n\
    (0.0) can0 585#4300100093010200\n\
    (0.0) can0 583#4300100094010200\n\
    (0.0) can0 584#4300100095010200\n\
    (0.0) can0 702#05\n\
    noise\n\
    (0.0) can0 705#7F\n\
    (0.0) can0 582#R\n\
    (0.0) can0 582#4318100123010000\n";

/// Asserts what waits for each of two workers that ask this.
fn hear<R: Wait + Clock + Clone + Drop + Abort>(
    rt: &R,
    alloc: Global,
    asks: &[(usize, u8, Question)],
    first: &[&str],
    second: &[&str],
) {
    let (one, other) = receive(rt, alloc, asks, HEARD);
    wait_there(rt, &one.heard, first);
    wait_there(rt, &other.heard, second);
    // all bytes were read: what stands in them is late for the next question
    sure(rt, one.received().bytes() == HEARD.len() as u64);
    sure(rt, other.received().bytes() == HEARD.len() as u64);
}

#[test]
fn a_worker_hears_the_node_that_it_asks(rt: HostRuntime) {
    let alloc = rt.alloc();
    let device = Question::Read(0x1000, 0);
    let answers = ["582#4300100092010200", "582#4318100123010000"];
    hear(&rt, alloc, &[(0, 2, device)], &answers, &[]);
    let asks = [(0, 5, Question::Beat), (1, 3, device)];
    hear(&rt, alloc, &asks, &["705#7F"], &["583#4300100094010200"]);
    // worker 2 asks a node that worker 1 boots
    hear(&rt, alloc, &[(1, 2, device)], &[], &[]);
}

#[test]
fn what_came_late_is_forgotten(rt: HostRuntime) {
    let asks = [(0, 2, Question::Read(0x1000, 0))];
    let (mut first, _second) = receive(&rt, rt.alloc(), &asks, HEARD);
    first.listen(node(&rt, 2), &Question::Read(0x1018, 1), 10);
    wait_there(&rt, &first.heard, &[]);
}

/// Node 2 says its device type, boots up twice, and says its vendor-ID; so does node 5, but for the boot-up.
const BOOTED_UP: &[u8] = b"(0.0) can0 582#4300100092010200\n\
    (0.0) can0 585#4300100092010200\n\
    (0.0) can0 702#00\n\
    (0.0) can0 702#80\n\
    (0.0) can0 582#4318100123010000\n\
    (0.0) can0 585#4318100123010000\n";

#[test]
fn where_a_node_has_booted_up_is_noted(rt: HostRuntime) {
    let asks = [(0, 5, Question::Read(0x1000, 0))];
    let (first, second) = receive(&rt, rt.alloc(), &asks, BOOTED_UP);
    let answers = ["585#4300100092010200", "585#4318100123010000"];
    wait_there(&rt, &first.heard, &answers);
    // two lines of 32 bytes, then two of 18: the last byte of the fourth
    sure(&rt, first.last_boot_up(node(&rt, 2)) == 99);
    sure(&rt, second.last_boot_up(node(&rt, 2)) == 99);
    sure(&rt, first.last_boot_up(node(&rt, 5)) == 0);
}
