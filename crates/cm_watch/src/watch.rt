ghost use Rattle.std.specs.Prelude.{◌≡◌, ◌<◌, ◌^◌, ℕ, List, [], ◌∷◌, ◌++◌, map, filter, IfOk, OnOk, OnErr};
ghost use Rattle.cm_netlist.specs.Network.{Network as NetworkList};
ghost use Rattle.cm_nmt.specs.Listing.{node_ids};
ghost use Rattle.cm_watch.specs.Kept.{course_of};
ghost use Rattle.cm_watch.specs.Limits.{AreLimited};
ghost use Rattle.cm_watched.specs.Pasts.{Past};
ghost use Rattle.cm_watch.specs.Steps.{given, steps_at};
ghost use Rattle.cm_watch.specs.Telling.{given_up_of, told_of};
ghost use Rattle.cm_watch.specs.Watches.{Watches, boot_by, is_given_by, is_given_up_by, is_late_by};
ghost use Rattle.cm_watch.specs.Watches.{is_left_out_by, is_run_over_by, is_to_be_booted_by};
ghost use Rattle.cm_watch.specs.Watches.{is_to_be_told_by, kept_at, left_out_by, signal_by, step_by, steps_by};
ghost use Rattle.cm_watched.specs.declared.happening.Moment.TheVariants.{Gave, Happened};
ghost use Rattle.cm_watched.specs.declared.happening.Step.TheVariants as step;
ghost use Rattle.cm_watched.specs.declared.settings.Settings.{Settings as WatchSettings};

use crate::course::Course;
use crate::ends::{ends_by, has_come};
use crate::taking::take_all;
use crate::telling::{Told, back_while, becomes, unwatched_by};
use cm_history::Phase;
use cm_netlist::Network;
use cm_nmt::{NmtState, NodeId};
use cm_watched::{
    Again, Budget, Happening, MOST_AT_ONCE, Moment, News, Schedule, Settings, Since, Slave, Step,
    is_overdue, most_silence_of,
};
use std::alloc::{AllocError, Global};

/// What a live run does next, told from what has happened and the network list.
#[derive(Clone, Copy)]
pub struct Watch {
    pub(crate) settings: Settings,
    pub(crate) course: Course,
    /// When the run is to end, in ms since it began.
    ends: Option<u64>,
    /// Of each node, that of node i at place i.
    pub(crate) slaves: [Slave; 128],
}

/// What a step of a node is.
#[derive(Clone, Copy)]
pub(crate) enum Kind {
    Lost,
    Boot,
    LeftOut,
    Signal,
    Guard,
}

/// What a listed slave may still be.
#[derive(Clone, Copy)]
pub(crate) enum Pending {
    /// Mandatory, and not booted.
    Open,
    /// Not tried.
    Untried,
}

impl Watch {
    /// A watch of a network of which nothing has happened.
    pub fn new(settings: Settings) -> Watch
        ensures { (net : NetworkList) → Watches result net settings [] }
    {
        let again = Again {
            count: 0,
            last: None,
        };
        let blank = Slave {
            heard: None,
            booted: None,
            is_busy: false,
            is_held: false,
            is_lost: false,
            is_tried: false,
            is_asked: false,
            is_stopped: false,
            schedule: Schedule { due: None, again },
            news: News {
                boot_up: false,
                rests: false,
                heard: None,
                told: None,
                shown: 0,
                since: Since::Nothing,
                changes: 0,
            },
            budget: Budget {
                left: MOST_AT_ONCE,
                last: None,
            },
            guarded: None,
            toggle: false,
        };
        Watch {
            settings,
            course: Course {
                phase: Phase::Idle,
                own: NmtState::PreOperational,
                started: None,
                is_stopped: false,
                is_over_given: false,
                is_end_given: false,
                beat: None,
            },
            ends: None,
            slaves: [blank; 128],
        }
    }

    /// The moment came then.
    pub(crate) fn note(&mut self, network: &Network, now_ms: u64, moment: &Moment)
        requires { now_ms < 2 ^ 63 }
        ensures { (s : WatchSettings) (past : Past) → Watches self.old network.now s past
            → Watches self.new network.now s ((now_ms, moment.now) ∷ past) }
    {
        take_all(&mut self.slaves, network, self.settings, now_ms, moment);
        let none_open = self.is_none_open(network);
        self.course = self.course.after(network, now_ms, moment, none_open);
        self.ends = ends_by(moment, self.ends);
    }

    /// This happened then. The answer is what an operator is told behind it, beside what it is.
    pub fn take(&mut self, network: &Network, now_ms: u64, happening: &Happening) -> Told
        requires { now_ms < 2 ^ 63 }
        ensures taken { (s : WatchSettings) (past : Past) → Watches self.old network.now s past
            → Watches self.new network.now s ((now_ms, Happened happening.now) ∷ past) }
        ensures told { (s : WatchSettings) (past : Past) → Watches self.old network.now s past
            → result ≡ told_of network.now s past happening.now }
    {
        let old = self.course;
        let given_up = self.given_up(happening);
        self.note(network, now_ms, &Moment::Happened(*happening));
        Told {
            is_ready: becomes(old.phase.is_ready(), self.course.phase.is_ready()),
            is_halted: becomes(old.phase.is_halted(), self.course.phase.is_halted()),
            is_stopped: becomes(old.is_stopped, self.course.is_stopped),
            back: back_while(old.is_stopped, happening),
            unwatched: unwatched_by(network, happening),
            given_up,
        }
    }

    pub(crate) fn slave(&self, id: NodeId) -> Slave
        ensures { result ≡ kept_at self.now.slaves id }
    {
        self.slaves[usize::from(id.get())]
    }

    /// Whether the slave is lost now.
    fn is_late(&self, network: &Network, now: u64, id: NodeId) -> bool
        ensures { result ≡ is_late_by self.now network.now now id }
    {
        let slave = self.slave(id);
        let most_ms = most_silence_of(network, id);
        is_overdue(most_ms, now, slave.heard, slave.booted) && !slave.is_lost
    }

    /// Whether the slave is to be booted now.
    fn is_to_be_booted(&self, network: &Network, now: u64, id: NodeId) -> bool
        ensures { result ≡ is_to_be_booted_by self.now network.now now id }
    {
        let slave = self.slave(id);
        self.course.takes_boots()
            && (!self.course.is_stopped || slave.is_asked)
            && network.listed(id)
            && !slave.news.boot_up
            && slave.is_free(now)
    }

    /// The step by which the slave is booted: it is woken first where it stands stopped.
    fn boot(&self, id: NodeId) -> Step
        ensures { result ≡ boot_by self.now id }
    {
        if self.slave(id).is_stopped {
            Step::Wake(id)
        } else {
            Step::Boot(id)
        }
    }

    /// Whether the manager is to be told of the node now.
    fn is_to_be_told(&self, network: &Network, now: u64, id: NodeId) -> bool
        ensures { result ≡ is_to_be_told_by self.now network.now now id }
    {
        let slave = self.slave(id);
        network.listed(id)
            && slave.news.to_tell().is_some()
            && (slave.news.is_urgent() || slave.budget.is_allowed(now))
            && !self.is_to_be_booted(network, now, id)
    }

    fn signal(&self, id: NodeId) -> Step
        ensures { result ≡ signal_by self.now id }
    {
        Step::Signal(id, self.slave(id).news.to_tell().unwrap_or(0))
    }

    /// Whether changes of state of the node were left out that are to be told now.
    fn is_left_out(&self, network: &Network, now: u64, id: NodeId) -> bool
        ensures { result ≡ is_left_out_by self.now network.now now id }
    {
        let news = self.slave(id).news;
        self.is_to_be_told(network, now, id) && news.pending() < news.changes
    }

    fn left_out(&self, id: NodeId) -> Step
        ensures { result ≡ left_out_by self.now id }
    {
        let news = self.slave(id).news;
        Step::LeftOut(id, news.changes.saturating_sub(news.pending()))
    }

    /// Whether this step of the node is to be given now.
    fn is_given(&self, network: &Network, now: u64, kind: Kind, id: NodeId) -> bool
        ensures { result ≡ is_given_by self.now network.now now kind id }
    {
        match kind {
            Kind::Lost => self.is_late(network, now, id),
            Kind::Boot => self.is_to_be_booted(network, now, id),
            Kind::LeftOut => self.is_left_out(network, now, id),
            Kind::Signal => self.is_to_be_told(network, now, id),
            Kind::Guard => self.is_guard_due(network, now, id),
        }
    }

    /// This step of the node.
    fn step(&self, kind: Kind, id: NodeId) -> Step
        ensures { result ≡ step_by self.now kind id }
    {
        match kind {
            Kind::Lost => Step::Lost(id),
            Kind::Boot => self.boot(id),
            Kind::LeftOut => self.left_out(id),
            Kind::Signal => self.signal(id),
            Kind::Guard => Step::Guard(id),
        }
    }

    /// Adds the steps of this kind, in rising order.
    pub(crate) fn add_steps(
        &self,
        network: &Network,
        now: u64,
        kind: Kind,
        steps: &mut Vec<Step>,
    ) -> Result<(), AllocError>
        ensures { OnOk result (steps.new.items ≡ steps.old.items
            ++ map (step_by self.now kind) (filter (is_given_by self.now network.now now kind) node_ids)) }
    {
        for number in 1..128u8 {
            if let Some(id) = NodeId::new(number) {
                if self.is_given(network, now, kind, id) {
                    steps.push(self.step(kind, id))?;
                }
            }
        }
        Ok(())
    }

    /// Whether the run ends now.
    fn is_run_over(&self, now: u64) -> bool
        ensures { result ≡ is_run_over_by self.now now }
    {
        has_come(now, self.ends)
    }

    fn steps(&self, alloc: Global, network: &Network, now: u64) -> Result<Vec<Step>, AllocError>
        ensures { IfOk result (λ steps. steps.items ≡ steps_by self.now network.now now) }
    {
        let mut steps = Vec::new(alloc);
        self.add_steps(network, now, Kind::Lost, &mut steps)?;
        self.add_steps(network, now, Kind::Boot, &mut steps)?;
        self.add_steps(network, now, Kind::LeftOut, &mut steps)?;
        self.add_steps(network, now, Kind::Signal, &mut steps)?;
        if self.is_time_over(network, now) {
            steps.push(Step::TimeOver(self.elapsed(now)))?;
        }
        if self.is_end(network) {
            steps.push(Step::AllTried(self.elapsed(now)))?;
        }
        if self.is_run_over(now) {
            steps.push(Step::End)?;
        }
        Ok(steps)
    }

    /// Whether the slave is given up, once a worker's attempts at it have ended.
    fn is_given_up(&self, id: NodeId) -> bool
        ensures { result ≡ is_given_up_by self.now id }
    {
        let slave = self.slave(id);
        slave.booted.is_none() && !slave.is_held && slave.schedule.due.is_none()
    }

    /// The slave that the end of a worker's attempts gives up.
    fn given_up(&self, happening: &Happening) -> Option<NodeId>
        ensures { (net : NetworkList) (s : WatchSettings) (past : Past) → Watches self.now net s past
            → result ≡ given_up_of net s past happening.now }
    {
        match happening {
            Happening::Ended(id) => {
                let _in_range = id.get();
                if self.is_given_up(*id) {
                    Some(*id)
                } else {
                    None
                }
            }
            _ => None,
        }
    }

    /// These steps count as given.
    pub(crate) fn give(&mut self, network: &Network, now_ms: u64, steps: &[Step])
        requires { now_ms < 2 ^ 63 }
        ensures { (s : WatchSettings) (past : Past) → Watches self.old network.now s past
            → Watches self.new network.now s (given now_ms steps.now past) }
    {
        for step in steps {
            self.note(network, now_ms, &Moment::Gave(*step));
        }
    }

    /// The steps that are to be made now. They count as given. Where memory is refused nothing is given.
    pub fn turn(
        &mut self,
        alloc: Global,
        network: &Network,
        now_ms: u64,
    ) -> Result<Vec<Step>, AllocError>
        requires { now_ms < 2 ^ 63 }
        ensures steps { (s : WatchSettings) (past : Past) → Watches self.old network.now s past
            → IfOk result (λ steps. steps.items ≡ steps_at network.now s past now_ms) }
        ensures given { (s : WatchSettings) (past : Past) → Watches self.old network.now s past
            → IfOk result (λ steps. Watches self.new network.now s (given now_ms steps.items past)) }
        ensures limited { (s : WatchSettings) (past : Past) (i : ℕ) → Watches self.old network.now s past
            → AreLimited network.now s past i
            → IfOk result (λ steps. AreLimited network.now s (given now_ms steps.items past) i) }
        ensures refused { OnErr result (self.new ≡ self.old) }
    {
        let steps = self.steps(alloc, network, now_ms)?;
        self.give(network, now_ms, steps.as_slice());
        Ok(steps)
    }
}
