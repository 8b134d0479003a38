ghost use Rattle.std.specs.Prelude.{◌≡◌, ◌<◌, ◌≤◌, ◌+◌, ◌++◌, ◌∷◌, [], length, reverse, vec_capacity};
ghost use Rattle.std.specs.Prelude.{vec_len, IfOk, IfErr, OnOk, OnErr, MatchOption};
ghost use mathlib.Core.List.{IsPrefix};
ghost use Rattle.cm_netlist.specs.Network.{listing};
ghost use Rattle.cm_history.specs.History.{shown};
ghost use Rattle.cm_history.specs.Legal.{IsLegal};
ghost use Rattle.cm_register.specs.Causes.{IsReadCause, IsTarget};
ghost use Rattle.cm_register.specs.Handing.{calls_by, calls_in};
ghost use Rattle.cm_register.specs.Knowing.{IsNextCall};
ghost use Rattle.cm_register.specs.SeatOpening.{fresh_seat};
ghost use Rattle.cm_register.specs.Reads.{AllBegin, AllLegal, HasSameCalls, IsKnown, IsToldOf, latest};
ghost use Rattle.cm_register.specs.SeatCalls.{HasCallsOf, made};

use crate::made::{Made, Receipt, SeatList, Seen};
use crate::run_name::RunName;
use crate::seat_fault::ReadFault;
use cm_growing::{HistoryReader, Past};
use cm_history::Entry;
use cm_nmt::NodeId;
use std::alloc::{AllocError, Global};
use std::marker::Model;
use std::sync::ledger::{Book, Share};

/// One who makes calls and reads: a worker that boots slaves, or an operator. It keeps the list of its
/// calls. Its share of the register's ledger, of one part, has that list's length as its amount. It has
/// a reader of the register's history, which keeps the words that it looks at.
#[derive(Drop)]
pub struct Seat<K: RunName> {
    number: u16,
    list: Vec<Made>,
    share: Share<K>,
    reader: HistoryReader<K>,
    /// The longest history that it saw or was told.
    known: Past<K>,
    /// How many entries it saw in its last read.
    viewed: u32,
    /// How many calls it had made before its last read.
    called: usize,
}

impl<K: RunName> Model for Seat<K> {
    ghost use Rattle.std.specs.Prelude.{◌≡◌, ◌<◌, ◌≤◌, length, vec_capacity};
    ghost use Rattle.cm_register.specs.SeatViews.{SeatView};
    ghost use Rattle.cm_register.specs.Knowing.{IsKnowing, seat_view};

    ghost Value = { SeatView };

    ghost view = { λ s. seat_view s.number s.list.items (vec_capacity s.list) s.share.amount s.known
        s.viewed s.called };

    ghost invariant = { λ s. (0 < s.number) × (s.number ≤ K.seats) × (s.number ≤ 64)
        × (s.share.parts ≡ 1) × (s.share.amount ≡ length s.list.items)
        × IsKnowing s.number s.list.items s.known s.viewed s.called };
}

/// Moves the list to the larger one, where there is one.
#[inline(always)]
fn take_room(list: &mut Vec<Made>, room: Option<Vec<Made>>)
    requires { MatchOption room (vec_len list.old < vec_capacity list.old)
        (λ larger. (vec_len larger ≡ 0) × (vec_len list.old < vec_capacity larger)) }
    ensures items { list.new.items ≡ list.old.items }
    ensures room { vec_len list.new < vec_capacity list.new }
{
    if let Some(mut larger) = room {
        let Ok(()) = larger.append(list) else {
            unreachable!()
        };
        *list = larger;
    }
}

impl<K: RunName> Seat<K> {
    /// A seat that has made no call, and has seen nothing.
    pub fn new(
        alloc: Global,
        number: u16,
        share: Share<K>,
        reader: HistoryReader<K>,
        known: Past<K>,
    ) -> Seat<K>
        requires number { (0 < number) × (number ≤ K.seats) × (number ≤ 64) }
        requires share { (share.parts ≡ 1) × (share.amount ≡ 0) }
        requires known { known ≡ [] }
        ensures { result ≡ fresh_seat number }
    {
        Seat {
            number,
            list: Vec::new(alloc),
            share,
            reader,
            known,
            viewed: 0,
            called: 0,
        }
    }

    /// The number of the seat in its register, counted from 1.
    #[inline(always)]
    pub fn number(&self) -> u16
        ensures value { result ≡ self.now.number }
        ensures range { (0 < self.now.number) × (self.now.number ≤ K.seats)
            × (self.now.number ≤ 64) }
    {
        self.number
    }

    /// The calls that it made, in order.
    #[inline(always)]
    pub fn list(&self) -> &[Made]
        ensures { result.now ≡ self.now.list }
    {
        self.list.as_slice()
    }

    /// Its share of the register's ledger: one part, which counts the calls that it made.
    pub fn share(&self) -> &Share<K>
        ensures part { result.now.parts ≡ 1 }
        ensures amount { result.now.amount ≡ self.now.amount }
        ensures count { self.now.amount ≡ length self.now.list }
    {
        &self.share
    }

    /// The longest history that it saw or was told.
    pub(crate) fn known(&self) -> &Past<K>
        ensures known { IsKnown result.now self.now }
        ensures calls { HasCallsOf result.now self.now }
    {
        &self.known
    }

    /// What the type of a seat keeps: the history that it saw in its last read, and those that it was
    /// told by its calls since, are legal histories; and the calls that it made are, in order, the first
    /// of its number in what it knows, with their places and replies.
    pub fn keeps(&self)
        ensures view { IsLegal (listing K.net) (reverse self.now.view) }
        ensures told { AllLegal (listing K.net) self.now.told }
        ensures calls { HasCallsOf (latest self.now) self.now }
    {
        self.known.keeps();
    }

    /// Reads the state of a node, 1 to 127: what the call Read would answer after the history that is
    /// seen, in any phase. It takes no lock, no memory and doesn't wait. That history begins with all
    /// that the seat saw and was told before, and has the calls that the seat made.
    #[inline]
    pub fn read(&mut self, target: u8) -> Result<Seen, ReadFault>
        ensures target { OnOk result (IsTarget target) }
        ensures count { IfOk result (λ s. s.count ≡ length self.new.view) }
        ensures state { IfOk result
            (λ s. s.state ≡ shown (listing K.net) (reverse self.new.view) target) }
        ensures view { OnOk result (IsPrefix self.old.view self.new.view) }
        ensures told { OnOk result (AllBegin self.old.told self.new.view × (self.new.told ≡ [])) }
        ensures calls { HasSameCalls self.old self.new }
        ensures stand { OnOk result (HasCallsOf self.new.view self.new) }
        ensures fault { IfErr result (IsReadCause target) }
        ensures same { OnErr result (self.new ≡ self.old) }
    {
        let Some(id) = NodeId::new(target) else {
            return Err(ReadFault::BadTarget);
        };
        let Some(look) = self.reader.look(&self.known, id) else {
            return Err(ReadFault::NoVersion);
        };
        let count = look.past.len() as u32;
        let state = look.state;
        self.known = look.past;
        self.viewed = count;
        self.called = self.list.len();
        Ok(Seen { count, state })
    }

    /// Memory for one call more, where the list has none left: a larger list, still empty, with eight times
    /// the places, since all calls so far move there.
    #[inline]
    pub fn room_for_call(&self) -> Result<Option<Vec<Made>>, AllocError>
        ensures { IfOk result (λ room. MatchOption room
            (length self.now.list < self.now.capacity)
            (λ larger. (larger.items ≡ []) × (length self.now.list < vec_capacity larger))) }
    {
        let count = self.list.len();
        if count < self.list.capacity() {
            return Ok(None);
        }
        let Some(more) = count.checked_mul(8) else {
            return Err(AllocError);
        };
        Ok(Some(Vec::with_capacity(*self.list.allocator(), more.max(4))?))
    }

    /// Takes in that its call was made, with memory for it by [`Seat::room_for_call`]: the call is added
    /// to the list and counted in the ledger, and the seat is told the history, of which it is the last
    /// entry.
    #[inline(always)]
    pub fn count_call(
        &mut self,
        ledger: &mut Book<K>,
        entry: &Entry,
        position: u32,
        history: &Past<K>,
        room: Option<Vec<Made>>,
    )
        requires next { IsNextCall self.old entry.now history.now }
        requires place { position ≡ length history.now }
        requires room { MatchOption room (length self.old.list < self.old.capacity)
            (λ larger. (larger.items ≡ []) × (length self.old.list < vec_capacity larger)) }
        ensures number { self.new.number ≡ self.old.number }
        ensures list { self.new.list
            ≡ self.old.list ++ made position entry.now.call entry.now.reply ∷ [] }
        ensures share { self.new.amount ≡ self.old.amount + 1 }
        ensures told { (receipt : Receipt) → receipt.position ≡ position
            → receipt.reply ≡ entry.now.reply → IsToldOf self.old self.new entry.now.call receipt }
        ensures total { ledger.new.total ≡ ledger.old.total + 1 }
    {
        take_room(&mut self.list, room);
        ledger.add(&mut self.share, 1);
        self.list.push_reserved(Made {
            position,
            call: entry.call,
            reply: entry.reply,
        });
        self.known = self.known.longer(history);
    }

    /// The calls of the seat, whose share is merged into another.
    pub fn end(self, rest: &mut Share<K>) -> SeatList
        ensures calls { calls_in result ≡ calls_by self }
        ensures parts { rest.new.parts ≡ rest.old.parts + 1 }
        ensures apart { rest.new.parts ≤ K.parts }
        ensures amount { rest.new.amount ≡ rest.old.amount + length self.list }
    {
        let Seat {
            number,
            list,
            share,
            reader: _,
            known: _,
            viewed: _,
            called: _,
        } = self;
        rest.merge(share);
        SeatList { number, made: list }
    }
}
