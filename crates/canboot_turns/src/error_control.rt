//! What a live run sends for error control: the heartbeat of the manager itself, and the requests of node guarding (CiA 301).

ghost use Rattle.std.specs.Prelude.{◌≡◌, ◌<◌, ◌^◌, ◌∷◌, [], Err, IfNone, IfOk, IfSome, IsTrue, false};
ghost use Rattle.cm_watch.specs.ErrorControl.{error_control_at};
ghost use Rattle.cm_watched.specs.Pasts.{Past};
ghost use Rattle.cm_watch.specs.Steps.{given};
ghost use Rattle.cm_watched.specs.declared.settings.Settings.{Settings as WatchSettings};
ghost use Rattle.canboot_turns.specs.Going.{Follows};
ghost use Rattle.canboot_turns.specs.Sendings.{HasSentSteps, IsFrameFor, is_frame};

use crate::ending::Ending;
use crate::progress::LiveCourse;
use canboot_saying::count_beats;
use cm_bus::CausedOutlet;
use cm_can::{ControlFrame, ErrorControl};
use cm_netlist::Network;
use cm_receiving::BusName;
use cm_watched::Step;
use std::io::Write;
use std::sync::Wait;
use std::sync::atomic::Ordering;
use std::time::Clock;

/// The frame that a step is, if it is one.
fn frame_of(network: &Network, step: &Step) -> Option<ControlFrame>
    ensures some { IfSome result (λ f. IsFrameFor network.now step.now f.frame) }
    ensures none { IfNone result (is_frame step.now ≡ false) }
{
    match step {
        Step::Beat(byte) => {
            let node = network.own_id();
            Some(ControlFrame::beat(ErrorControl { node, byte: *byte }))
        }
        Step::Guard(id) => Some(ControlFrame::guard(*id)),
        Step::Lost(_)
        | Step::Boot(_)
        | Step::Wake(_)
        | Step::Signal(_, _)
        | Step::LeftOut(_, _)
        | Step::TimeOver(_)
        | Step::AllTried(_)
        | Step::End => None,
    }
}

/// Sends the frame of a step, if it is one.
fn send_step<W: Write + Drop, B: BusName>(
    network: &Network,
    step: &Step,
    outlet: &mut CausedOutlet<W, B, ControlFrame>,
)
    ensures sent { HasSentSteps W.contents network.now (step.now ∷ []) outlet.old.outlet outlet.new.outlet }
    ensures stopped { IsTrue outlet.old.outlet.failed → outlet.new.outlet ≡ outlet.old.outlet }
    ensures format { outlet.new.outlet.format ≡ outlet.old.outlet.format }
{
    match frame_of(network, step) {
        Some(frame) => outlet.send(&frame),
        None => {}
    }
}

/// Sends the frames of these steps.
fn send_steps<W: Write + Drop, B: BusName>(
    network: &Network,
    steps: &[Step],
    outlet: &mut CausedOutlet<W, B, ControlFrame>,
)
    ensures { HasSentSteps W.contents network.now steps.now outlet.old.outlet outlet.new.outlet }
{
    for step in steps {
        send_step(network, step, outlet);
    }
}

impl<'w, 'a, 'n, R: Wait + Clock> LiveCourse<'w, 'a, 'n, R> {
    /// Sends what the watch gives now for error control. Where it can't be written, the run ends.
    pub(crate) fn send_error_control<W: Write + Drop, B: BusName>(
        &mut self,
        outlet: &mut CausedOutlet<W, B, ControlFrame>,
        now: u64,
    ) -> Result<(), Ending>
        requires { now < 2 ^ 63 }
        ensures sent { (s : WatchSettings) (past : Past) → Follows self.old.progress self.old.network.now s past
            → IfOk result (λ _. HasSentSteps W.contents self.old.network.now
            (error_control_at self.old.network.now s past now) outlet.old.outlet outlet.new.outlet) }
        ensures given { (s : WatchSettings) (past : Past) → Follows self.old.progress self.old.network.now s past
            → IfOk result (λ _. Follows self.new.progress self.old.network.now s
            (given now (error_control_at self.old.network.now s past now) past)) }
        ensures network { self.new.network ≡ self.old.network }
        ensures other { result ≡ Err Ending.Asked → ⊥ }
    {
        let alloc = self.setting.alloc;
        let steps = self.progress.watch.error_control(alloc, self.network, now)?;
        send_steps(self.network, steps.as_slice(), outlet);
        count_beats(&mut self.teller.notices, steps.as_slice());
        if outlet.has_failed() {
            self.setting.broken.store(true, Ordering::SeqCst);
        }
        Ok(())
    }
}
