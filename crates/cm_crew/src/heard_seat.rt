ghost use Rattle.std.specs.Prelude.{◌≡◌};
ghost use Rattle.cm_crew.specs.ReceivedCalls.{IsReceivedList};
ghost use Rattle.cm_crew.specs.Typing.{BootsAlone};
ghost use Rattle.cm_crew.specs.Workers.{AreOfItsSeat};

use cm_receiving::BusName;
use cm_register::{RunName, Seat};
use std::marker::{Model, PhantomData};

/// A worker's seat, each of whose reports has its answers among the frames that were received on the bus that `B` names,
/// in their order, and is on a slave of this worker, and which has made the calls of boots alone. Contracts see the seat.
#[derive(Drop)]
pub struct HeardSeat<K: RunName, B: BusName> {
    seat: Seat<K>,
    of: PhantomData<B>,
}

impl<K: RunName, B: BusName> Model for HeardSeat<K, B> {
    ghost use Rattle.cm_register.specs.SeatViews.{SeatView};
    ghost use Rattle.cm_crew.specs.ReceivedCalls.{IsReceivedList};
    ghost use Rattle.cm_crew.specs.Typing.{BootsAlone};
    ghost use Rattle.cm_crew.specs.Workers.{AreOfItsSeat};

    ghost Value = { SeatView };

    ghost view = { λ h. h.seat };

    ghost invariant = { λ h. IsReceivedList B.format B.text K.net h.seat.list × BootsAlone h.seat.list
        × AreOfItsSeat K.net K.seats h.seat.number h.seat.list };
}

impl<K: RunName, B: BusName> HeardSeat<K, B> {
    /// A seat of whose calls that is known.
    pub fn around(seat: Seat<K>) -> HeardSeat<K, B>
        requires received { IsReceivedList B.format B.text K.net seat.list }
        requires boots { BootsAlone seat.list }
        requires own { AreOfItsSeat K.net K.seats seat.number seat.list }
        ensures { result ≡ seat }
    {
        HeardSeat {
            seat,
            of: PhantomData,
        }
    }

    /// The seat.
    pub fn into_seat(self) -> Seat<K>
        ensures same { result ≡ self }
        ensures received { IsReceivedList B.format B.text K.net result.list }
        ensures boots { BootsAlone result.list }
        ensures own { AreOfItsSeat K.net K.seats result.number result.list }
    {
        self.seat
    }
}
