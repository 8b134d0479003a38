ghost use Rattle.std.specs.Prelude.{◌≡◌, ◌∷◌, [], IfNone, None};
ghost use Rattle.cm_bus.specs.Patience.{next_part};

use crate::caused_outlet::CausedOutlet;
use crate::patience::Patience;
use crate::port::Port;
use cm_boot::Question;
use cm_can::Request;
use cm_nmt::NodeId;
use cm_receiving::{BusName, Listening, ReadMark, Received, ms_in};
use cm_text::ENDLESS;
use crossbeam_channel::Receiver;
use std::io::Write;
use std::sync::atomic::{AtomicBool, Ordering};
use std::sync::{Arc, Wait};
use std::time::{Clock, Duration, Instant};

/// The port of one worker: its frames are written through an outlet, and those for it come from the reader of the
/// bus. A wait ends at the latest 10 ms behind the end of the run.
#[derive(Drop)]
pub struct LivePort<R: Wait + Clock + Drop, B: BusName, W: Write + Drop> {
    pub rt: R,
    /// Counted from 0.
    pub worker: usize,
    pub heard: Receiver<Received<B>>,
    pub listening: Arc<Listening>,
    pub outlet: CausedOutlet<W, B, Request>,
    /// Set once a write has failed.
    pub broken: Arc<AtomicBool>,
    /// Set once the run is over: nothing is waited for any more.
    pub over: Arc<AtomicBool>,
    /// How much longer an answer is waited for.
    pub patience: Patience,
}

/// How many ms went by since then; 0 where the clock doesn't say.
fn ms_since<R: Clock>(rt: &R, then: Option<Instant>) -> u64 {
    match then {
        Some(then) => match then.elapsed(rt) {
            Ok(time) => ms_in(time),
            Err(_) => 0,
        },
        None => 0,
    }
}

impl<R: Wait + Clock + Drop, B: BusName, W: Write + Drop> LivePort<R, B, W> {
    /// What is heard within so many ms.
    fn hear_in(&self, part_ms: u32) -> Option<Received<B>> {
        let part = Duration::from_millis(u64::from(part_ms));
        self.heard.recv_timeout(&self.rt, part).ok()
    }
}

impl<R: Wait + Clock + Drop, B: BusName, W: Write + Drop> Port<B> for LivePort<R, B, W> {
    ghost use Rattle.cm_bus.specs.Sent.{Sends};
    ghost use Rattle.cm_bus.specs.SendLaws.{sends_more, sends_none};

    ghost sends = { λ p frames q. Sends W.contents p.outlet.outlet frames q.outlet.outlet };

    ghost sends_none = { λ a. sends_none W.contents a.outlet.outlet };

    ghost sends_more = { λ a b c fs gs x y. sends_more W.contents a.outlet.outlet b.outlet.outlet c.outlet.outlet fs gs x y };

    fn listen(&mut self, node: NodeId, question: &Question, wait_ms: u32)
        ensures { self.new.outlet ≡ self.old.outlet }
    {
        self.listening.listen(self.worker, node, question);
        for _forgotten in 0..ENDLESS {
            if self.heard.try_recv(&self.rt).is_err() {
                break;
            }
        }
        self.patience = Patience::new(wait_ms);
    }

    fn received(&self) -> ReadMark {
        self.listening.received()
    }

    fn last_boot_up(&self, node: NodeId) -> u64 {
        self.listening.last_boot_up(node)
    }

    fn send(&mut self, request: &Request)
        ensures sent { Sends W.contents self.old.outlet.outlet (request.now.frame ∷ []) self.new.outlet.outlet }
        ensures worker { self.new.outlet.worker ≡ self.old.outlet.worker }
    {
        self.outlet.send(request);
        if self.outlet.has_failed() {
            self.broken.store(true, Ordering::SeqCst);
        }
    }

    fn hear(&mut self) -> Option<Received<B>>
        ensures outlet { self.new.outlet ≡ self.old.outlet }
        ensures over { IfNone (next_part self.old.patience) (result ≡ None) }
    {
        while let Some(part_ms) = self.patience.next_part() {
            if self.over.load(Ordering::SeqCst) {
                break;
            }
            let began = Instant::now(&self.rt).ok();
            let heard = self.hear_in(part_ms);
            let took_ms = ms_since(&self.rt, began);
            match heard {
                Some(received) => {
                    self.patience.wait(took_ms);
                    return Some(received);
                }
                None => self.patience.wait_in_vain(part_ms, took_ms),
            }
        }
        None
    }
}
