ghost use Rattle.std.specs.Prelude.{◌≡◌, ℕ, IfNone, IfSome};
ghost use Rattle.cm_can.specs.Remarks.{IsRemark};
ghost use Rattle.cm_can.specs.declared.remark.Remark.{Remark as Told};
ghost use Rattle.cm_receiving.specs.Remarks.{IsErrorAt, IsRemarkAt};
ghost use Rattle.cm_receiving.specs.Routing.{IsDoubledOf};

use crate::bus_name::BusName;
use crate::doubling::answering;
use crate::received::Received;
use cm_can::{CanError, Remark, read_remark};
use cm_netlist::place_of;
use cm_nmt::NodeId;
use std::marker::{Model, PhantomData};

/// What the bus says beside the answers and the states of slaves, as it was received: it stands, as a line, in what the reader of received
/// frames holds, at its place. It is made of what was received, and of nothing else. Contracts see the place and the remark.
#[derive(Drop)]
pub struct HeardRemark<B: BusName> {
    place: u64,
    remark: Remark,
    of: PhantomData<B>,
}

impl<B: BusName> Model for HeardRemark<B> {
    ghost use Rattle.cm_receiving.specs.Remarks.{IsRemarkAt, PlacedRemark};

    ghost Value = { PlacedRemark };

    ghost view = { λ r. record { place = r.place; remark = r.remark } };

    ghost invariant = { λ r. IsRemarkAt B.format B.text r.place r.remark };
}

impl<B: BusName> HeardRemark<B> {
    /// What the frame says beside answers and states, if it says something.
    pub(crate) fn of(received: &Received<B>) -> Option<HeardRemark<B>>
        ensures some { IfSome result (λ r. (r.place ≡ received.now.place) × IsRemark received.now.frame r.remark) }
        ensures none { IfNone result ((r : Told) → IsRemark received.now.frame r → ⊥) }
    {
        let remark = read_remark(&received.frame())?;
        Some(HeardRemark {
            place: received.place(),
            remark,
            of: PhantomData,
        })
    }

    /// That two devices have the node-ID of a listed node, where the frame is an answer of it that contradicts the one before: it alone of
    /// all answers stands at the last place from which on another device may be its node.
    pub(crate) fn doubled(received: &Received<B>, listed: &[NodeId]) -> Option<HeardRemark<B>>
        ensures { IfSome result (λ r. (r.place ≡ received.now.place) × IsDoubledOf listed.now received.now.frame r.remark) }
    {
        if received.since() != received.place() {
            return None;
        }
        let node = answering(&received.frame())?;
        let _listed = place_of(listed, node)?;
        Some(HeardRemark {
            place: received.place(),
            remark: Remark::Doubled(node),
            of: PhantomData,
        })
    }

    /// What the interface says of the bus, by the line at this place.
    pub(crate) fn error(place: u64, error: CanError) -> HeardRemark<B>
        requires stands { IsErrorAt B.format B.text place error }
        ensures { result ≡ record { place = place; remark = Told.Error error } }
    {
        HeardRemark {
            place,
            remark: Remark::Error(error),
            of: PhantomData,
        }
    }

    /// What is said.
    pub fn remark(&self) -> Remark
        ensures remark { result ≡ self.now.remark }
        ensures stands { IsRemarkAt B.format B.text self.now.place result }
    {
        self.remark
    }
}
