ghost use Rattle.std.specs.Prelude.{◌≡◌, ◌<◌, ◌≤◌, [], vec_capacity, vec_len, IfOk, IfErr};
ghost use Rattle.cm_history.specs.Legal.{most_entries};
ghost use Rattle.cm_register.specs.SeatOpening.{fresh_seats};
ghost use Rattle.cm_growing.specs.Unnamed.{net_of};
ghost use Rattle.cm_register.specs.Opening.{IsNameCause, IsOpenCause, MayOpen};

use crate::book::{Book, FreshBook};
use crate::fault::OpenFault;
use crate::made::SeatList;
use crate::register::Register;
use crate::run_name::RunName;
use crate::seat::Seat;
use cm_growing::{HistoryWriter, UnnamedHistory};
use cm_history::{Entry, MOST_ENTRIES};
use cm_netlist::Network;
use cm_nmt::Wire;
use cm_sequential::Manager;
use std::alloc::Global;
use std::marker::Brand;
use std::sync::ledger::{Blank, Share};

/// A register that has no name yet. Its memory for the whole history, and for what closing needs, is
/// taken.
#[derive(Drop)]
pub struct Opened<'n, W: Wire> {
    pub net: &'n Network,
    pub seats: u16,
    pub limit: u32,
    pub wire: W,
    /// The ledger that is to be, of which each seat gets a part.
    pub blank: Blank,
    /// The history that is to be, as its log says what it is, and as readers are shown it.
    pub log: UnnamedHistory,
    alloc: Global,
    history: Vec<Entry>,
    lists: Vec<SeatList>,
    pub ghost seats_fit: { (0 < seats) × (seats ≤ 64) },
    pub ghost limit_fits: { (0 < limit) × (limit ≤ most_entries) },
    pub ghost parts: { blank.parts ≡ seats },
    pub ghost unused: { W.sent wire ≡ [] },
    pub ghost net_is: { net_of log ≡ net.now },
    ghost room: { (limit ≤ vec_capacity history) × (seats ≤ vec_capacity lists) },
    ghost empty: { (vec_len history ≡ 0) × (vec_len lists ≡ 0) },
}

/// Why a register isn't opened or named, with its wire.
#[derive(Drop)]
pub struct NotOpened<W: Wire> {
    pub fault: OpenFault,
    pub wire: W,
}

impl<'n, W: Wire> Book<'n, W, Brand> {
    ghost use Rattle.cm_register.specs.Naming.{IsOpened};

    /// Opens a register for one thread, which [`Opened::book`] then names: with this many seats, 1 to
    /// 64, and at most `limit` entries in its history, 1 to 1,048,576. After a refusal the wire is
    /// dropped.
    pub fn open(
        alloc: Global,
        net: &'n Network,
        seats: u16,
        limit: u32,
        wire: W,
    ) -> Result<Opened<'n, W>, OpenFault>
        ensures opened { IfOk result (IsOpened net.now seats limit wire) }
        ensures fault { IfErr result (IsOpenCause seats limit (W.sent wire)) }
    {
        match Book::try_open(alloc, net, seats, limit, wire) {
            Ok(opened) => Ok(opened),
            Err(NotOpened { fault, wire: _ }) => Err(fault),
        }
    }

    /// The same; after a refusal the wire comes back as it was.
    pub fn try_open(
        alloc: Global,
        net: &'n Network,
        seats: u16,
        limit: u32,
        wire: W,
    ) -> Result<Opened<'n, W>, NotOpened<W>>
        ensures opened { IfOk result (IsOpened net.now seats limit wire) }
        ensures fault { IfErr result (λ n. IsOpenCause seats limit (W.sent wire) n.fault) }
        ensures back { IfErr result (λ n. n.wire ≡ wire) }
    {
        if let Err(fault) = may_open(seats, limit, &wire) {
            return Err(NotOpened { fault, wire });
        }
        let (Ok(history), Ok(lists), Ok(log)) = (
            Vec::with_capacity(alloc, limit as usize),
            Vec::with_capacity(alloc, usize::from(seats)),
            UnnamedHistory::new(alloc, net),
        ) else {
            return Err(NotOpened {
                fault: OpenFault::OutOfMemory,
                wire,
            });
        };
        Ok(Opened {
            net,
            seats,
            limit,
            wire,
            blank: Blank::new(u64::from(seats)),
            log,
            alloc,
            history,
            lists,
        })
    }
}

/// Why a register can't be opened, whatever memory there is.
fn may_open<W: Wire>(seats: u16, limit: u32, wire: &W) -> Result<(), OpenFault>
    ensures may { IfOk result (λ u. MayOpen seats limit (W.sent wire.now)) }
    ensures fault { IfErr result (IsOpenCause seats limit (W.sent wire.now)) }
{
    if seats < 1 || seats > 64 {
        return Err(OpenFault::BadSeats);
    }
    if limit < 1 || limit > MOST_ENTRIES {
        return Err(OpenFault::BadLimit);
    }
    if wire.used() {
        return Err(OpenFault::WireUsed);
    }
    Ok(())
}

/// The seats in order, each with one part of the ledger and a reader of its own.
fn make_seats<K: RunName>(
    alloc: Global,
    seats: u16,
    writer: &HistoryWriter<K>,
    rest: &mut Share<K>,
) -> Result<Vec<Seat<K>>, OpenFault>
    requires share { (rest.old.parts ≡ seats) × (rest.old.amount ≡ 0) }
    requires seats { (seats ≡ K.seats) × (seats ≤ 64) }
    requires writer { writer.now ≡ [] }
    ensures seats { IfOk result (λ v. v.items ≡ fresh_seats K.seats) }
    ensures rest { IfOk result (λ v. (rest.new.parts ≡ 0) × (rest.new.amount ≡ 0)) }
    ensures fault { IfErr result IsNameCause }
{
    let Ok(mut all) = Vec::with_capacity(alloc, usize::from(seats)) else {
        return Err(OpenFault::OutOfMemory);
    };
    for number in 0..seats {
        let Ok(reader) = writer.reader() else {
            return Err(OpenFault::OutOfMemory);
        };
        let share = rest.split_off(1, 0);
        let known = writer.past();
        all.push_reserved(Seat::new(alloc, number + 1, share, reader, known));
    }
    Ok(all)
}

impl<'n, W: Wire> Opened<'n, W> {
    ghost use Rattle.cm_register.specs.Naming.{Names};

    /// The book and the seats in order, which have made no call and seen nothing: a register for one
    /// thread. The condition says that `K` names this register; [`std::marker::Brand`] is passed for
    /// it. Refused where memory is; the wire is dropped then.
    pub fn book<K: RunName>(self) -> Result<(Book<'n, W, K>, Vec<Seat<K>>), OpenFault>
        requires { Names K.RunName self }
        ensures book { IfOk result (λ r. (r.0.history ≡ []) × (r.0.sent ≡ [])
            × (r.0.room ≡ W.room_of self.entry.wire)) }
        ensures seats { IfOk result (λ r. r.1.items ≡ fresh_seats K.seats) }
        ensures fault { IfErr result IsNameCause }
    {
        match self.try_book::<K>() {
            Ok(named) => Ok(named),
            Err(NotOpened { fault, wire: _ }) => Err(fault),
        }
    }

    /// The same; after a refusal the wire comes back as it was.
    pub fn try_book<K: RunName>(self) -> Result<(Book<'n, W, K>, Vec<Seat<K>>), NotOpened<W>>
        requires { Names K.RunName self }
        ensures book { IfOk result (λ r. (r.0.history ≡ []) × (r.0.sent ≡ [])
            × (r.0.room ≡ W.room_of self.entry.wire)) }
        ensures seats { IfOk result (λ r. r.1.items ≡ fresh_seats K.seats) }
        ensures fault { IfErr result (λ n. IsNameCause n.fault) }
        ensures back { IfErr result (λ n. n.wire ≡ self.entry.wire) }
    {
        let Opened {
            net,
            seats,
            limit,
            wire,
            blank,
            log,
            alloc,
            history,
            lists,
        } = self;
        let Ok(writer) = log.named::<K>(alloc) else {
            return Err(NotOpened {
                fault: OpenFault::OutOfMemory,
                wire,
            });
        };
        let (ledger, mut rest) = blank.open::<K>();
        let all = match make_seats(alloc, seats, &writer, &mut rest) {
            Ok(all) => all,
            Err(fault) => return Err(NotOpened { fault, wire }),
        };
        let manager = Manager::new(net);
        let book = Book::fresh(FreshBook {
            net,
            seats,
            limit,
            manager,
            wire,
            history,
            lists,
            ledger,
            rest,
            writer,
        });
        Ok((book, all))
    }

    /// The register, which threads share, and the seats in order, which have made no call and seen
    /// nothing. The condition says that `K` names this register; [`std::marker::Brand`] is passed for
    /// it. Refused where memory is; the wire is dropped then.
    pub fn named<K: RunName>(self) -> Result<(Register<'n, W, K>, Vec<Seat<K>>), OpenFault>
        requires { Names K.RunName self }
        ensures seats { IfOk result (λ r. r.1.items ≡ fresh_seats K.seats) }
        ensures fault { IfErr result IsNameCause }
    {
        let net = self.net;
        let made = self.seats;
        let (book, seats) = self.book::<K>()?;
        Ok((Register::around(net, made, book), seats))
    }
}
