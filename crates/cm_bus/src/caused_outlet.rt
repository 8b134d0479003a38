ghost use Rattle.std.specs.Prelude.{◌≡◌, IfSome, vec_len};
ghost use Rattle.cm_bus.specs.Sent.{AreWrittenFrom};

use crate::outlet::Outlet;
use cm_can::Caused;
use cm_receiving::BusName;
use std::alloc::Global;
use std::io::Write;
use std::marker::{Model, PhantomData};

/// Where frames of one kind are written, by a worker or for error control. It is made round an outlet by which nothing was written, and
/// takes such frames alone: so at each moment what its writer got, behind what `B` knows that it had, is lines of such frames, and no
/// NMT message leaves by it. Where a write has failed, the last line may be its first bytes alone. Contracts see the outlet, and whose it
/// is.
#[derive(Drop)]
pub struct CausedOutlet<W: Write + Drop, B: BusName, F: Caused> {
    outlet: Outlet<W>,
    /// The worker whose it is, counted from 0; it is that of error control where there is none.
    worker: Option<usize>,
    of: PhantomData<B>,
    kind: PhantomData<F>,
}

impl<W: Write + Drop, B: BusName, F: Caused> Model for CausedOutlet<W, B, F> {
    ghost use Rattle.cm_bus.specs.Sent.{CausedOutletView, HasWritten};
    ghost use Rattle.cm_bus.specs.declared.outlet.Outlet.{Outlet};

    ghost Value = { CausedOutletView (Outlet W) };

    ghost view = { λ o. record { outlet = o.outlet; worker = o.worker } };

    ghost invariant = { λ o. HasWritten F.causes W.contents B.format (B.had o.worker) o.outlet };
}

impl<W: Write + Drop, B: BusName, F: Caused> CausedOutlet<W, B, F> {
    ghost use Rattle.std.specs.Prelude.{◌≡◌, IsFalse, IsTrue};
    ghost use Rattle.cm_bus.specs.Outlets.{Writes};
    ghost use Rattle.cm_bus.specs.Sent.{HasWritten};

    /// An outlet by which nothing was written. The conditions say that `B` knows in what lines frames are written, and what the writer
    /// has.
    pub fn new(outlet: Outlet<W>, worker: Option<usize>) -> CausedOutlet<W, B, F>
        requires format { outlet.format ≡ B.format }
        requires had { W.contents outlet.writer ≡ B.had worker }
        ensures outlet { result.outlet ≡ outlet }
        ensures worker { result.worker ≡ worker }
    {
        CausedOutlet {
            outlet,
            worker,
            of: PhantomData,
            kind: PhantomData,
        }
    }

    /// Writes a frame, in its line. Where that fails, the first bytes of the line were written, and nothing else.
    pub fn send(&mut self, frame: &F)
        ensures written { IsFalse self.new.outlet.failed → Writes self.old.outlet.format (F.of frame.now)
            (W.contents self.old.outlet.writer) (W.contents self.new.outlet.writer) }
        ensures stopped { IsTrue self.old.outlet.failed → self.new.outlet ≡ self.old.outlet }
        ensures format { self.new.outlet.format ≡ self.old.outlet.format }
        ensures worker { self.new.worker ≡ self.old.worker }
    {
        self.outlet.send(&frame.frame());
    }

    /// Whether a write has failed.
    pub fn has_failed(&self) -> bool
        ensures { result ≡ self.now.outlet.failed }
    {
        self.outlet.has_failed()
    }

    /// Whether it is this worker's, counted from 0; without a number, whether it is that of error control.
    pub fn is_of(&self, worker: Option<usize>) -> bool
        ensures { IsTrue result → self.now.worker ≡ worker }
    {
        match (self.worker, worker) {
            (Some(own), Some(other)) => own == other,
            (own, other) => own.is_none() && other.is_none(),
        }
    }

    /// The outlet: its writer got lines of such frames alone.
    pub fn into_outlet(self) -> Outlet<W>
        ensures same { result ≡ self.outlet }
        ensures written { HasWritten F.causes W.contents B.format (B.had self.worker) result }
    {
        self.outlet
    }
}

/// The outlets of workers, in their order: by each just such frames were written, behind what its worker's writer had. `None` where memory
/// is refused, or where they aren't those of worker 0, worker 1 and so on.
pub fn outlets_of<W: Write + Drop, B: BusName, F: Caused>(
    alloc: Global,
    outlets: Vec<CausedOutlet<W, B, F>>,
) -> Option<Vec<Outlet<W>>>
    ensures written { IfSome result (λ v. AreWrittenFrom F.causes W.contents B.format B.had 0 v.items) }
    ensures all { IfSome result (λ v. vec_len v ≡ vec_len outlets) }
{
    let mut plain = Vec::new(alloc);
    for outlet in outlets {
        if !outlet.is_of(Some(plain.len())) {
            return None;
        }
        let Ok(()) = plain.push(outlet.into_outlet()) else {
            return None;
        };
    }
    Some(plain)
}
