ghost use Rattle.std.specs.Prelude.{◌≡◌, ◌<◌, ◌≤◌, ◌==◌, ◌^◌, ◌-◌, ℕ, List, Some};
ghost use Rattle.cm_history.specs.History.{is_empty};
ghost use Rattle.cm_history.specs.declared.call.Call.TheVariants as call;
ghost use Rattle.cm_history.specs.Answering.{is_late, lost_orders, open_less, refusal_number, report_orders};
ghost use Rattle.cm_history.specs.Answering.{request_orders, starts_every, starts_one};
ghost use Rattle.cm_sequential.specs.Standing.{listing_in, still_open, IsAnswer};

use crate::effects::is_fatal;
use crate::manager::Manager;
use crate::slaves::is_reset;
use cm_history::{ALL_NODES, Call, Orders, Refusal, Reply};
use cm_nmt::{Answers, Command, NmtState, NodeId, Signal, Status, judged_by_tables};

/// A refused call has no orders.
#[inline(always)]
fn refused(refusal: Refusal) -> (Reply, Orders)
    ensures reply { result.0 ≡ Reply.Refused (refusal_number refusal) }
    ensures orders { result.1 ≡ Orders.None }
{
    (Reply::Refused(refusal.number()), Orders::None)
}

/// The orders of a request to this target, 1 to 128.
#[inline(always)]
fn request_orders(to_own: bool, target: u8, command: Command) -> Orders
    requires low { 1 ≤ target }
    requires high { target ≤ 128 }
    ensures { result ≡ request_orders to_own (target == 128) target (Some command) }
{
    if to_own {
        return Orders::None;
    }
    match NodeId::new(target) {
        Some(id) => Orders::to_node(command, id),
        None => Orders::to_every(command),
    }
}

// The answer to each call: its refusals in the order in which they are tested, and else its reply
// and orders. Nothing changes.
impl Manager {
    /// Whether every mandatory slave is booted.
    #[inline(always)]
    #[tactic(auto, using(crate::proofs::Standing::open_kept))]
    fn none_open(&self) -> bool
        ensures { result ≡ is_empty (still_open self.now) }
    {
        self.state.slaves.none_open()
    }

    /// Whether every mandatory slave is booted, once a boot of this one came to the status.
    #[inline(always)]
    #[tactic(auto, using(crate::proofs::Standing::open_kept))]
    fn none_left(&self, id: NodeId, status: Status) -> bool
        ensures { result ≡ is_empty (open_less (still_open self.now) id status) }
    {
        if status.is_good() {
            self.state.slaves.none_open_but(id)
        } else {
            self.state.slaves.none_open()
        }
    }

    /// The answer to a start of the network.
    fn answer_start(&self) -> (Reply, Orders)
        ensures { IsAnswer self.now call.StartNetwork result.0 result.1 }
    {
        if !self.listing.startup().is_master() {
            return refused(Refusal::NotMaster);
        }
        if self.state.phase.is_booting() || self.state.phase.is_ready() {
            return refused(Refusal::AlreadyStarted);
        }
        (Reply::Started, Orders::ResetUnkept)
    }

    /// The answer to a begin of a boot.
    #[inline(always)]
    #[tactic(auto, using(crate::proofs::Granting::below_kept))]
    fn answer_begin(&self, id: NodeId) -> (Reply, Orders)
        requires { self.now.state.begun < 2 ^ 64 - 1 }
        ensures { IsAnswer self.now (call.Begin id) result.0 result.1 }
    {
        if self.state.phase.is_idle() || self.state.phase.is_halted() {
            return refused(Refusal::NotStarted);
        }
        if !self.listing.is_listed(id.get()) {
            return refused(Refusal::NotListed);
        }
        if self.state.held.contains(id) {
            return refused(Refusal::Held);
        }
        if self.state.slaves.session(id).is_some() {
            return refused(Refusal::Busy);
        }
        if self.state.slaves.booted(id) {
            return refused(Refusal::AlreadyBooted);
        }
        (Reply::Begun(self.state.begun + 1), Orders::None)
    }

    /// Whether all slaves are to be started at once, where `none_open` says that none is open.
    #[inline(always)]
    fn starts_every(&self, none_open: bool) -> bool
        ensures { (open_slaves : List ℕ) → none_open ≡ is_empty open_slaves
            → result ≡ starts_every (listing_in self.now) self.now.state.phase open_slaves }
    {
        self.state.phase.is_booting()
            && none_open
            && self.listing.startup().starts_all_at_once()
            && !self.listing.startup().leaves_operational_to_application()
            && !self.listing.startup().starts_no_slave()
    }

    /// Whether the slave is to be started alone.
    #[inline(always)]
    fn starts_one(&self, id: NodeId, status: Status) -> bool
        ensures { result ≡ starts_one (listing_in self.now) self.now.state.own id status }
    {
        status.is_ok()
            && self.listing.is_to_be_booted(id)
            && !self.listing.startup().starts_no_slave()
            && (!self.listing.startup().starts_all_at_once()
                || self.state.own == NmtState::Operational)
    }

    /// The orders of a report.
    #[inline(always)]
    fn report_orders(&self, id: NodeId, status: Status) -> Orders
        ensures { result
            ≡ report_orders (listing_in self.now) self.now.state.phase self.now.state.own
            (open_less (still_open self.now) id status) id status }
    {
        if self.state.phase.is_halted() {
            return Orders::None;
        }
        if self.state.phase.is_booting() && is_fatal(&self.listing, id, status) {
            return Orders::None;
        }
        let none_left = self.none_left(id, status);
        if self.starts_every(none_left) {
            return Orders::to_every(Command::Start);
        }
        if self.starts_one(id, status) {
            return Orders::to_node(Command::Start, id);
        }
        Orders::None
    }

    /// The answer to a report of a boot.
    #[inline(always)]
    #[tactic(auto, using(crate::proofs::Granting::below_kept))]
    fn answer_report(&self, id: NodeId, number: u64, answers: &Answers) -> (Reply, Orders)
        ensures { IsAnswer self.now (call.Report id number answers.now) result.0 result.1 }
    {
        if self.state.phase.is_idle() {
            return refused(Refusal::NotStarted);
        }
        let Some(terms) = self.listing.terms(id) else {
            return refused(Refusal::NotListed);
        };
        if self.state.slaves.session(id) != Some(number) {
            return refused(Refusal::Stale);
        }
        match judged_by_tables(Some(terms), answers) {
            Some(status) => (Reply::Reported(status), self.report_orders(id, status)),
            None => refused(Refusal::BadReport),
        }
    }

    /// The answer to an error control message.
    #[inline(always)]
    fn answer_signal(&self, id: NodeId, byte: u8) -> (Reply, Orders)
        ensures { IsAnswer self.now (call.Signal id byte) result.0 result.1 }
    {
        if self.state.phase.is_idle() {
            return refused(Refusal::NotStarted);
        }
        if !self.listing.is_listed(id.get()) {
            return refused(Refusal::NotListed);
        }
        match Signal::read(byte) {
            Some(Signal::BootUp) => (Reply::BootAgain, Orders::None),
            Some(Signal::State(_)) => (Reply::Noted, Orders::None),
            None => refused(Refusal::BadState),
        }
    }

    /// The orders of the error handler, where a booted slave is lost.
    #[inline(always)]
    fn lost_orders(&self, id: NodeId) -> Orders
        ensures { result ≡ lost_orders (listing_in self.now) id }
    {
        let mandatory = self.listing.is_mandatory(id);
        if mandatory && self.listing.startup().stops_all_on_error() {
            return Orders::to_every(Command::Stop);
        }
        if mandatory && self.listing.startup().resets_all_on_error() {
            return Orders::to_every(Command::ResetNode);
        }
        Orders::to_node(Command::ResetNode, id)
    }

    /// The answer to a loss.
    #[inline(always)]
    #[tactic(auto, using(crate::proofs::Granting::below_kept))]
    fn answer_lost(&self, id: NodeId) -> (Reply, Orders)
        ensures { IsAnswer self.now (call.Lost id) result.0 result.1 }
    {
        if self.state.phase.is_idle() {
            return refused(Refusal::NotStarted);
        }
        if !self.listing.is_listed(id.get()) {
            return refused(Refusal::NotListed);
        }
        if self.state.slaves.booted(id) {
            (Reply::Handled, self.lost_orders(id))
        } else {
            (Reply::Noted, Orders::None)
        }
    }

    /// The answer to a request.
    #[inline(always)]
    fn answer_request(&self, target: u8, value: u8) -> (Reply, Orders)
        ensures { IsAnswer self.now (call.Request target value) result.0 result.1 }
    {
        if self.state.phase.is_idle() {
            return refused(Refusal::NotStarted);
        }
        if target == 0 || ALL_NODES < target {
            return refused(Refusal::BadTarget);
        }
        let Some(command) = Command::of_request(value) else {
            return refused(Refusal::BadValue);
        };
        let to_own = target == self.listing.own_id().get();
        let to_self_or_all = to_own || target == ALL_NODES;
        if !to_self_or_all && !self.listing.is_listed(target) {
            return refused(Refusal::NotListed);
        }
        if command == Command::Start && to_self_or_all && !self.none_open() {
            return refused(Refusal::MandatoryOpen);
        }
        if to_own && is_reset(command) {
            return refused(Refusal::OwnReset);
        }
        (Reply::Done, request_orders(to_own, target, command))
    }

    /// The answer to a read.
    #[inline(always)]
    #[tactic(auto, using(crate::proofs::Granting::below_kept))]
    fn answer_read(&self, target: u8) -> (Reply, Orders)
        ensures { IsAnswer self.now (call.Read target) result.0 result.1 }
    {
        if self.state.phase.is_idle() {
            return refused(Refusal::NotStarted);
        }
        match NodeId::new(target) {
            Some(id) => (Reply::State(self.state.shown(id)), Orders::None),
            None => refused(Refusal::BadTarget),
        }
    }

    /// Whether the time for the mandatory slaves is up.
    #[inline(always)]
    fn is_late(&self, ms: u32) -> bool
        ensures { result
            ≡ is_late (listing_in self.now) self.now.state.phase (still_open self.now) ms }
    {
        let limit = self.listing.boot_time();
        let booting = self.state.phase.is_booting();
        booting && limit != 0 && limit < ms && !self.none_open()
    }

    /// The answer to a passing of time.
    #[inline(always)]
    fn answer_elapsed(&self, ms: u32) -> (Reply, Orders)
        ensures { IsAnswer self.now (call.Elapsed ms) result.0 result.1 }
    {
        if self.state.phase.is_idle() {
            return refused(Refusal::NotStarted);
        }
        if self.is_late(ms) {
            return (Reply::TimeUp, Orders::None);
        }
        let none_open = self.none_open();
        if self.starts_every(none_open) {
            return (Reply::InTime, Orders::to_every(Command::Start));
        }
        (Reply::InTime, Orders::None)
    }

    /// The answer to a hold.
    fn answer_hold(&self, id: NodeId) -> (Reply, Orders)
        ensures { IsAnswer self.now (call.Hold id) result.0 result.1 }
    {
        if self.state.phase.is_idle() {
            return refused(Refusal::NotStarted);
        }
        if !self.listing.is_listed(id.get()) {
            return refused(Refusal::NotListed);
        }
        let held = self.state.held.contains(id);
        if held {
            return refused(Refusal::Held);
        }
        (Reply::Done, Orders::to_node(Command::Stop, id))
    }

    /// The answer to a release.
    fn answer_release(&self, id: NodeId) -> (Reply, Orders)
        ensures { IsAnswer self.now (call.Release id) result.0 result.1 }
    {
        if self.state.phase.is_idle() {
            return refused(Refusal::NotStarted);
        }
        if !self.listing.is_listed(id.get()) {
            return refused(Refusal::NotListed);
        }
        let held = self.state.held.contains(id);
        if !held {
            return refused(Refusal::NotHeld);
        }
        (Reply::Done, Orders::None)
    }

    /// The answer to a call.
    #[inline(always)]
    pub(crate) fn answer_by_tables(&self, call: &Call) -> (Reply, Orders)
        requires { self.now.state.begun < 2 ^ 64 - 1 }
        ensures { IsAnswer self.now call.now result.0 result.1 }
    {
        match call {
            Call::StartNetwork => self.answer_start(),
            Call::Begin(id) => self.answer_begin(*id),
            Call::Report(id, number, answers) => self.answer_report(*id, *number, answers),
            Call::Signal(id, byte) => self.answer_signal(*id, *byte),
            Call::Lost(id) => self.answer_lost(*id),
            Call::Request(target, value) => self.answer_request(*target, *value),
            Call::Read(target) => self.answer_read(*target),
            Call::Elapsed(ms) => self.answer_elapsed(*ms),
            Call::Hold(id) => self.answer_hold(*id),
            Call::Release(id) => self.answer_release(*id),
        }
    }
}
