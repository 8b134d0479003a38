//! How a live run makes the steps that its watch gives.

ghost use Rattle.std.specs.Prelude.{◌≡◌, ℕ, ◌<◌, ◌^◌, ◌∷◌, [], Err, IfOk};
ghost use Rattle.cm_watched.specs.Pasts.{Past};
ghost use Rattle.cm_watch.specs.Steps.{given, steps_at};
ghost use Rattle.cm_telling.specs.Tried.{Tries};
ghost use Rattle.cm_watched.specs.declared.happening.Moment.TheVariants.{Gave};
ghost use Rattle.cm_watched.specs.declared.settings.Settings.{Settings as WatchSettings};
ghost use Rattle.canboot_turns.specs.Ending.{is_ended_by};
ghost use Rattle.canboot_turns.specs.Going.{Follows};
ghost use Rattle.canboot_turns.specs.Steps.{HasMade};

use crate::ending::{Ending, is_ended_by};
use crate::progress::LiveCourse;
use crate::register::LiveRegister;
use crate::steps::{call_of, jobs_of};
use crate::watching::Watcher;
use cm_nmt::NodeId;
use cm_receiving::BusName;
use cm_register::RunName;
use cm_watched::Step;
use crossbeam_channel::Sender;
use std::io::Write;
use std::sync::Wait;
use std::time::Clock;

impl<'w, 'a, 'n, R: Wait + Clock> LiveCourse<'w, 'a, 'n, R> {
    /// What is done for a step beside its call: a slave is handed to its worker, or something is told.
    fn do_beside<E: Write>(&mut self, err: &mut E, jobs: &[Sender<NodeId>], step: &Step)
        ensures progress { self.new.progress ≡ self.old.progress }
        ensures network { self.new.network ≡ self.old.network }
    {
        let rt = self.setting.rt;
        match step {
            Step::Boot(id) => {
                let listed = self.network.listed_ids();
                if let Some(jobs) = jobs_of(listed.as_slice(), jobs, *id) {
                    let _ = jobs.send(rt, *id);
                }
            }
            Step::LeftOut(id, count) => self.teller.tell_states_left_out(err, rt, *id, *count),
            Step::TimeOver(_) => {
                let watch = &self.progress.watch;
                self.teller.tell_time_over(err, rt, self.network, watch);
            }
            _ => {}
        }
    }
}

impl<'w, 'a, 'n, R: Wait + Clock + Drop, K: RunName, B: BusName, M: LiveRegister<K, R>> Watcher<
    'w,
    'a,
    'n,
    R,
    K,
    B,
    M,
> {
    /// Makes a step: its call, if it has one.
    fn make<E: Write>(&mut self, err: &mut E, step: &Step) -> Result<(), Ending>
        ensures made { IfOk result (λ _. HasMade (step.now ∷ []) self.old.operator self.new.operator) }
        ensures tries { (now : ℕ) (past : Past) → Tries self.old.course.progress.tried past
            → Tries self.new.course.progress.tried ((now, Gave step.now) ∷ past) }
        ensures waiting { self.new.course.progress.waiting ≡ self.old.course.progress.waiting }
        ensures watch { self.new.course.progress.watch ≡ self.old.course.progress.watch }
        ensures pace { self.new.pace ≡ self.old.pace }
        ensures heard { self.new.heard_upto ≡ self.old.heard_upto }
        ensures network { self.new.course.network ≡ self.old.course.network }
        ensures other { result ≡ Err Ending.Asked → ⊥ }
    {
        self.course.progress.tried.give(step);
        self.course.do_beside(err, self.jobs.as_slice(), step);
        match call_of(step) {
            Some(call) => self.call(call),
            None => Ok(()),
        }
    }

    /// Makes the steps that the watch gives now. Whether the run ends with them.
    pub(crate) fn make_steps<E: Write>(&mut self, err: &mut E, now: u64) -> Result<bool, Ending>
        requires { now < 2 ^ 63 }
        ensures made { (s : WatchSettings) (past : Past) → Follows self.old.course.progress self.old.course.network.now s past
            → IfOk result (λ _. HasMade (steps_at self.old.course.network.now s past now) self.old.operator self.new.operator) }
        ensures given { (s : WatchSettings) (past : Past) → Follows self.old.course.progress self.old.course.network.now s past
            → IfOk result (λ _. Follows self.new.course.progress self.old.course.network.now s
            (given now (steps_at self.old.course.network.now s past now) past)) }
        ensures ended { (s : WatchSettings) (past : Past) → Follows self.old.course.progress self.old.course.network.now s past
            → IfOk result (λ ended. ended ≡ is_ended_by (steps_at self.old.course.network.now s past now)) }
        ensures pace { self.new.pace ≡ self.old.pace }
        ensures heard { self.new.heard_upto ≡ self.old.heard_upto }
        ensures network { self.new.course.network ≡ self.old.course.network }
        ensures other { result ≡ Err Ending.Asked → ⊥ }
    {
        let alloc = self.course.setting.alloc;
        let network = self.course.network;
        let steps = self.course.progress.watch.turn(alloc, network, now)?;
        for step in steps.as_slice() {
            self.make(err, step)?;
        }
        Ok(is_ended_by(steps.as_slice()))
    }
}
