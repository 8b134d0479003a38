ghost use Rattle.std.specs.Prelude.{◌≡◌, ◌<◌, ◌≤◌, ◌+◌, ◌-◌, ◌^◌, ℕ, true, false, None, Some, if◌then◌else◌, unwrap_or, IsTrue};
ghost use Rattle.cm_nmt.specs.Codes.{command_of_request, state_left, state_of_code};
ghost use Rattle.cm_nmt.specs.Listing.{is_listed};
ghost use Rattle.cm_nmt.specs.Status.{is_good};
ghost use Rattle.cm_history.specs.Orders.{is_start_of, is_stop_all, to_every, to_node};
ghost use Rattle.cm_history.specs.History.{becomes_operational, is_empty, is_fatal, state_reported};
ghost use Rattle.cm_history.specs.Machine.{phase_then};
ghost use Rattle.cm_history.specs.NodeSets.{members_of};
ghost use Rattle.cm_sequential.specs.States.{kept_listing};
ghost use Rattle.cm_sequential.specs.Changes.{Goes, IsGranted};

use crate::listing_copy::ListingCopy;
use crate::slaves::{SlaveTable, is_reset};
use crate::state::NetworkState;
use cm_history::{ALL_NODES, Call, MISSING, Orders, Phase, Reply, state_reported};
use cm_nmt::{Answers, Command, NmtState, NodeId, Status};

/// Whether the status halts the boot of the network.
#[inline(always)]
pub(crate) fn is_fatal(listing: &ListingCopy, id: NodeId, status: Status) -> bool
    ensures { result ≡ is_fatal (kept_listing listing.now) id status }
{
    listing.is_mandatory(id) && !(status.is_good() || status.is_retried())
}

/// The state in which a boot leaves its slave, where its report led to these orders.
#[inline(always)]
fn state_left(id: NodeId, status: Status, answers: &Answers, orders: &Orders) -> u8
    ensures { result ≡ (if is_start_of orders.now id then 5
        else state_reported status answers.now) }
{
    if orders.is_start_of(id) {
        Command::Start.state_left()
    } else {
        state_reported(status, answers)
    }
}

/// The manager's own state after a loss that led to these orders.
#[inline(always)]
fn own_after_loss(orders: &Orders, own: NmtState) -> NmtState
    ensures { result ≡ unwrap_or (if is_stop_all orders.now then Some NmtState.Stopped else None)
        own }
{
    if orders.is_stop_all() {
        NmtState::Stopped
    } else {
        own
    }
}

/// The manager's own state after a command to all nodes; a reset leaves it.
#[inline(always)]
fn own_obeying(command: Command, own: NmtState) -> NmtState
    ensures { result ≡ unwrap_or (state_of_code (state_left command)) own }
{
    NmtState::from_code(command.state_left()).unwrap_or(own)
}

// What a granted call makes of the state. Each function goes on as the machine of cm_history does.
impl NetworkState {
    /// The readiness test, or a failure that ends the boot of the network.
    #[inline(always)]
    fn settle(&mut self, listing: &ListingCopy, failed: bool)
        ensures phase { self.new.phase ≡ phase_then self.old.phase
            (if failed then Some Phase.Halted
            else (if is_empty (members_of self.old.slaves.unbooted) then Some Phase.Ready else None)) }
        ensures own { self.new.own ≡ unwrap_or (becomes_operational (kept_listing listing.now)
            self.old.phase self.new.phase) self.old.own }
        ensures slaves { self.new.slaves ≡ self.old.slaves }
        ensures begun { self.new.begun ≡ self.old.begun }
        ensures held { self.new.held ≡ self.old.held }
        ensures own_id { self.new.own_id ≡ self.old.own_id }
    {
        if !self.phase.is_booting() {
            return;
        }
        if failed {
            self.phase = Phase::Halted;
        } else if self.slaves.none_open() {
            self.phase = Phase::Ready;
            if !listing.startup().leaves_operational_to_application() {
                self.own = NmtState::Operational;
            }
        }
    }

    /// The network is started: every slave is cleared, and its state unknown. What is held stays so.
    fn start(&mut self, listing: &ListingCopy)
        ensures { Goes (kept_listing listing.now) self.old Call.StartNetwork Reply.Started
            Orders.ResetUnkept self.new }
    {
        self.phase = Phase::Booting;
        self.own = NmtState::PreOperational;
        self.slaves = SlaveTable::blank(listing);
    }

    /// The boot of a slave begins.
    #[inline(always)]
    fn begin(&mut self, listing: &ListingCopy, id: NodeId)
        requires { self.old.begun < 2 ^ 64 - 1 }
        ensures { Goes (kept_listing listing.now) self.old (Call.Begin id)
            (Reply.Begun (self.old.begun + 1)) Orders.None self.new }
    {
        self.begun += 1;
        self.slaves.begin(id, self.begun);
    }

    /// A boot ended with this status, and led to these orders.
    #[inline(always)]
    fn report(
        &mut self,
        listing: &ListingCopy,
        id: NodeId,
        status: Status,
        answers: &Answers,
        orders: &Orders,
    )
        requires { IsTrue (is_listed (kept_listing listing.now) id) }
        ensures { (number : ℕ) → Goes (kept_listing listing.now) self.old
            (Call.Report id number answers.now) (Reply.Reported status) orders.now self.new }
    {
        let left = state_left(id, status, answers, orders);
        self.slaves.end_boot(id, status.is_good(), left);
        self.slaves.obey(orders.to_all());
        self.settle(listing, is_fatal(listing, id, status));
    }

    /// A slave sent its boot-up message.
    fn boot_up(&mut self, listing: &ListingCopy, id: NodeId)
        requires { IsTrue (is_listed (kept_listing listing.now) id) }
        ensures { (byte : ℕ) → Goes (kept_listing listing.now) self.old (Call.Signal id byte)
            Reply.BootAgain Orders.None self.new }
    {
        let state = NmtState::PreOperational;
        self.slaves.clear(listing, id, state.code());
    }

    /// A slave sent its state.
    #[inline(always)]
    fn note(&mut self, listing: &ListingCopy, id: NodeId, byte: u8)
        requires { IsTrue (is_listed (kept_listing listing.now) id) }
        ensures { Goes (kept_listing listing.now) self.old (Call.Signal id byte) Reply.Noted
            Orders.None self.new }
    {
        self.slaves.set_state(id, byte % 128);
    }

    /// A booted slave is lost, and the error handler gave these orders.
    fn lose(&mut self, listing: &ListingCopy, id: NodeId, orders: &Orders)
        requires { IsTrue (is_listed (kept_listing listing.now) id) }
        ensures { Goes (kept_listing listing.now) self.old (Call.Lost id) Reply.Handled orders.now
            self.new }
    {
        self.own = own_after_loss(orders, self.own);
        self.slaves.clear_all(listing, orders.is_reset_all());
        self.slaves.clear(listing, id, MISSING);
        self.slaves.obey(orders.to_all());
    }

    /// A slave that isn't booted is lost.
    fn miss(&mut self, listing: &ListingCopy, id: NodeId)
        requires { IsTrue (is_listed (kept_listing listing.now) id) }
        ensures { Goes (kept_listing listing.now) self.old (Call.Lost id) Reply.Noted Orders.None
            self.new }
    {
        self.slaves.set_state(id, MISSING);
    }

    /// A request to the manager itself.
    fn request_own(&mut self, listing: &ListingCopy, state: NmtState)
        ensures { (value : ℕ) → state_of_code value ≡ Some state
            → Goes (kept_listing listing.now) self.old
            (Call.Request (kept_listing listing.now).own value) Reply.Done Orders.None self.new }
    {
        self.own = state;
    }

    /// A request to all nodes.
    fn request_all(&mut self, listing: &ListingCopy, command: Command)
        ensures { (value : ℕ) → command_of_request value ≡ Some command
            → Goes (kept_listing listing.now) self.old (Call.Request 128 value) Reply.Done
            (to_every command) self.new }
    {
        self.own = own_obeying(command, self.own);
        self.slaves.clear_all(listing, is_reset(command));
        self.slaves.obey(Some(command));
    }

    /// A request to a slave.
    #[inline(always)]
    fn request_one(&mut self, listing: &ListingCopy, id: NodeId, command: Command)
        requires { IsTrue (is_listed (kept_listing listing.now) id) }
        ensures { (value : ℕ) → command_of_request value ≡ Some command
            → Goes (kept_listing listing.now) self.old (Call.Request id value) Reply.Done
            (to_node command id) self.new }
    {
        self.slaves.obey_alone(listing, id, command);
    }

    /// A request is carried out.
    #[inline(always)]
    fn request(&mut self, listing: &ListingCopy, target: u8, value: u8, orders: &Orders)
        requires { IsGranted (kept_listing listing.now) self.old (Call.Request target value)
            Reply.Done orders.now }
        ensures { Goes (kept_listing listing.now) self.old (Call.Request target value) Reply.Done
            orders.now self.new }
    {
        let Some(command) = Command::of_request(value) else {
            unreachable!()
        };
        if target == listing.own_id().get() {
            if let Some(state) = NmtState::from_code(value) {
                self.request_own(listing, state);
            }
            return;
        }
        match NodeId::new(target) {
            Some(id) => self.request_one(listing, id, command),
            None => self.request_all(listing, command),
        }
    }

    /// The time was up.
    fn time_up(&mut self, listing: &ListingCopy)
        ensures { (ms : ℕ) → Goes (kept_listing listing.now) self.old (Call.Elapsed ms)
            Reply.TimeUp Orders.None self.new }
    {
        self.settle(listing, true);
    }

    /// The time wasn't up, and led to these orders.
    #[inline(always)]
    fn in_time(&mut self, listing: &ListingCopy, orders: &Orders)
        ensures { (ms : ℕ) → Goes (kept_listing listing.now) self.old (Call.Elapsed ms)
            Reply.InTime orders.now self.new }
    {
        self.slaves.obey(orders.to_all());
        self.settle(listing, false);
    }

    /// An operator holds a slave: it is stopped, and cleared.
    fn hold(&mut self, listing: &ListingCopy, id: NodeId)
        requires { IsTrue (is_listed (kept_listing listing.now) id) }
        ensures { Goes (kept_listing listing.now) self.old (Call.Hold id) Reply.Done
            (to_node Command.Stop id) self.new }
    {
        self.slaves.clear(listing, id, Command::Stop.state_left());
        self.held.insert(id);
    }

    /// An operator gives a slave back.
    fn release(&mut self, listing: &ListingCopy, id: NodeId)
        requires { IsTrue (is_listed (kept_listing listing.now) id) }
        ensures { Goes (kept_listing listing.now) self.old (Call.Release id) Reply.Done Orders.None
            self.new }
    {
        self.held.remove(id);
    }

    /// Carries out a call that was granted with this reply and these orders.
    #[inline(always)]
    pub(crate) fn carry_out(
        &mut self,
        listing: &ListingCopy,
        call: &Call,
        reply: Reply,
        orders: &Orders,
    )
        requires few { self.old.begun < 2 ^ 64 - 1 }
        requires answered { IsGranted (kept_listing listing.now) self.old call.now reply orders.now }
        ensures { Goes (kept_listing listing.now) self.old call.now reply orders.now self.new }
    {
        match call {
            Call::StartNetwork => self.start(listing),
            Call::Begin(id) => self.begin(listing, *id),
            Call::Report(id, _number, answers) => match reply {
                Reply::Reported(status) => self.report(listing, *id, status, answers, orders),
                _ => unreachable!(),
            },
            Call::Signal(id, byte) => match reply {
                Reply::BootAgain => self.boot_up(listing, *id),
                _ => self.note(listing, *id, *byte),
            },
            Call::Lost(id) => match reply {
                Reply::Handled => self.lose(listing, *id, orders),
                _ => self.miss(listing, *id),
            },
            Call::Request(target, value) => self.request(listing, *target, *value, orders),
            Call::Read(_target) => {}
            Call::Elapsed(_ms) => match reply {
                Reply::TimeUp => self.time_up(listing),
                _ => self.in_time(listing, orders),
            },
            Call::Hold(id) => self.hold(listing, *id),
            Call::Release(id) => self.release(listing, *id),
        }
    }
}
