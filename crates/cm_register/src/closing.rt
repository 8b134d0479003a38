ghost use Rattle.std.specs.Prelude.{◌≡◌, ◌≤◌, length, map, vec_capacity, vec_len, IfOk, IfErr};
ghost use Rattle.cm_netlist.specs.Network.{listing};
ghost use Rattle.cm_history.specs.Legal.{IsHistory};
ghost use Rattle.cm_history.specs.OrderFrames.{frames_in};
ghost use Rattle.cm_register.specs.Handing.{calls_by, calls_in, count_calls};
ghost use Rattle.cm_register.specs.BookInvariant.{MayClose};
ghost use Rattle.cm_register.specs.Closing.{IsCloseCause, IsClosed, close_number};

use crate::book::Book;
use crate::compare::{are_apart, are_known};
use crate::made::SeatList;
use crate::run_name::RunName;
use crate::seat::Seat;
use cm_growing::Past;
use cm_history::{Entry, Recorder, Unrecorded};
use cm_nmt::Wire;
use cm_sequential::Manager;
use std::sync::ledger::Share;
use thiserror::Error;

/// What a closed register leaves: the history of all calls, the calls of each seat in the order in
/// which the seats were handed in, the wire, and the manager.
#[derive(Drop)]
pub struct Closed<W: Wire> {
    pub history: Vec<Entry>,
    pub lists: Vec<SeatList>,
    pub wire: W,
    pub manager: Manager,
}

/// What a register leaves that is taken apart without its seats: the history of all calls, the wire, and the
/// recorder, which has recorded the history.
#[derive(Drop)]
pub struct Abandoned<W: Wire, J: Recorder> {
    pub history: Vec<Entry>,
    pub wire: W,
    pub recorder: J,
}

/// Why a register isn't closed, the first that applies.
#[derive(Clone, Copy, Debug, PartialEq, Eq, Error)]
pub enum CloseKind {
    /// So many of the register's seats weren't handed in.
    #[error("{0} seats are missing")]
    SeatsMissing(u16),
    /// A seat's number comes twice. This never comes, since a register has one seat of each number,
    /// though no clause says so.
    #[error("a seat comes twice")]
    SeatDiffers,
    /// What a seat saw, or was told, isn't found to be of the history. It is tested before
    /// [`CloseKind::SeatDiffers`], and never comes, though no clause says so.
    #[error("a seat knows of another history")]
    NoVersion,
}

impl CloseKind {
    /// The number of the fault: 1 seats are missing, 2 a seat comes twice, 3 another history is known.
    pub fn number(&self) -> u8
        ensures { result ≡ close_number self.now }
    {
        match self {
            CloseKind::SeatsMissing(_) => 1,
            CloseKind::SeatDiffers => 2,
            CloseKind::NoVersion => 3,
        }
    }
}

/// Why a book isn't closed, with the book and the seats, which go on working.
#[derive(Drop)]
pub struct BookFault<'n, W: Wire, K: RunName, J: Recorder = Unrecorded> {
    pub kind: CloseKind,
    pub book: Book<'n, W, K, J>,
    pub seats: Vec<Seat<K>>,
}

/// The lists of the seats, in order, whose shares are merged.
#[tactic(auto, using(crate::proofs::SeatLists::count_calls_push))]
fn gather<K: RunName>(
    mut lists: Vec<SeatList>,
    seats: Vec<Seat<K>>,
    rest: &mut Share<K>,
) -> Vec<SeatList>
    requires room { (vec_len lists ≡ 0) × (K.parts ≤ vec_capacity lists) }
    requires share { (rest.old.parts ≡ 0) × (rest.old.amount ≡ 0) }
    ensures lists { map calls_in result.items ≡ map calls_by seats.items }
    ensures share { (rest.new.parts ≡ length seats.items) × (rest.new.parts ≤ K.parts)
        × (rest.new.amount ≡ count_calls seats.items) }
{
    for seat in seats {
        lists.push_reserved(seat.end(rest));
    }
    lists
}

impl<'n, W: Wire, K: RunName, J: Recorder> Book<'n, W, K, J> {
    /// Why this book can't be closed with these seats, if anything is in the way. This and the two below
    /// stand apart: a book has over 7 KB, and LLVM takes a minute for a caller that it reads them into.
    #[inline(never)]
    fn close_cause(&self, seats: &[Seat<K>]) -> Result<(), CloseKind>
        ensures may { IfOk result (λ u. MayClose self.now.history K.seats seats.now) }
        ensures fault { IfErr result (IsCloseCause K.seats seats.now) }
    {
        let given = seats.len();
        let wanted = usize::from(self.seats);
        if given < wanted {
            return Err(CloseKind::SeatsMissing((wanted - given) as u16));
        }
        if !are_known(&self.writer.past(), seats) {
            return Err(CloseKind::NoVersion);
        }
        if !are_apart(seats) {
            return Err(CloseKind::SeatDiffers);
        }
        Ok(())
    }

    /// Takes the book apart, and the seats.
    #[inline(never)]
    fn finish(self, seats: Vec<Seat<K>>) -> (Closed<W>, J)
        requires may { MayClose self.history K.seats seats.items }
        ensures history { result.0.history.items ≡ self.entry.history }
        ensures closed { IsClosed W.sent K.net K.seats K.limit seats.items result.0 }
        ensures recorded { J.has_recorded result.1 result.0.history.items }
    {
        let Book {
            net: _,
            seats: _,
            limit: _,
            manager,
            writer: _,
            history,
            counts: _,
            wire,
            recorder,
            mut ledger,
            mut rest,
            lists,
        } = self;
        let lists = gather(lists, seats, &mut rest);
        ledger.audit(&mut rest);
        (
            Closed {
                history,
                lists,
                wire: wire.into_wire(),
                manager,
            },
            recorder,
        )
    }

    /// Closes the book of one thread, as [`crate::Register::close`] closes that of several. It is
    /// refused just where a seat is missing, where what a seat knows isn't found to be of the history,
    /// and where a number comes twice.
    pub fn close(self, seats: Vec<Seat<K>>) -> Result<Closed<W>, BookFault<'n, W, K, J>>
        ensures history { IfOk result (λ c. c.history.items ≡ self.entry.history) }
        ensures closed { IfOk result (IsClosed W.sent K.net K.seats K.limit seats.items) }
        ensures fault { IfErr result
            (λ f. IsCloseCause K.seats seats.items f.kind) }
        ensures back { IfErr result
            (λ f. (f.book ≡ self.entry) × (f.seats.items ≡ seats.items)) }
    {
        match self.close_recorded(seats) {
            Ok((closed, _recorder)) => Ok(closed),
            Err(fault) => Err(fault),
        }
    }

    /// The same, with the recorder, which has recorded the whole history.
    #[inline(never)]
    pub fn close_recorded(
        self,
        seats: Vec<Seat<K>>,
    ) -> Result<(Closed<W>, J), BookFault<'n, W, K, J>>
        ensures history { IfOk result (λ c. c.0.history.items ≡ self.entry.history) }
        ensures closed { IfOk result (λ c. IsClosed W.sent K.net K.seats K.limit seats.items c.0) }
        ensures recorded { IfOk result (λ c. J.has_recorded c.1 c.0.history.items) }
        ensures fault { IfErr result
            (λ f. IsCloseCause K.seats seats.items f.kind) }
        ensures back { IfErr result
            (λ f. (f.book ≡ self.entry) × (f.seats.items ≡ seats.items)) }
    {
        match self.close_cause(seats.as_slice()) {
            Ok(()) => Ok(self.finish(seats)),
            Err(kind) => Err(BookFault {
                kind,
                book: self,
                seats,
            }),
        }
    }

    /// The same, with what is known of the whole history.
    #[inline(never)]
    pub fn close_with_past(
        self,
        seats: Vec<Seat<K>>,
    ) -> Result<(Closed<W>, J, Past<K>), BookFault<'n, W, K, J>>
        ensures past { IfOk result (λ c. c.2 ≡ c.0.history.items) }
        ensures history { IfOk result (λ c. c.0.history.items ≡ self.entry.history) }
        ensures closed { IfOk result (λ c. IsClosed W.sent K.net K.seats K.limit seats.items c.0) }
        ensures recorded { IfOk result (λ c. J.has_recorded c.1 c.0.history.items) }
        ensures fault { IfErr result
            (λ f. IsCloseCause K.seats seats.items f.kind) }
        ensures back { IfErr result
            (λ f. (f.book ≡ self.entry) × (f.seats.items ≡ seats.items)) }
    {
        let past = self.past();
        match self.close_recorded(seats) {
            Ok((closed, recorder)) => Ok((closed, recorder, past)),
            Err(fault) => Err(fault),
        }
    }

    /// Takes the book apart without its seats, for a run that ends where it can't be closed: the wire has sent just
    /// the frames of the history, and the recorder has recorded it.
    #[inline(never)]
    pub fn abandon(self) -> Abandoned<W, J>
        ensures history { IsHistory (listing K.net) K.seats K.limit result.history.items }
        ensures frames { W.sent result.wire ≡ frames_in (listing K.net) result.history.items }
        ensures recorded { J.has_recorded result.recorder result.history.items }
    {
        let Book {
            net: _,
            seats: _,
            limit: _,
            manager: _,
            writer: _,
            history,
            counts: _,
            wire,
            recorder,
            ledger: _,
            rest: _,
            lists: _,
        } = self;
        Abandoned {
            history,
            wire: wire.into_wire(),
            recorder,
        }
    }
}
