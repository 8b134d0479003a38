//! The register of a live run, as its threads see it.

ghost use Rattle.std.specs.Prelude.{◌≡◌, ◌++◌, [], IfNone, IfSome};

use cm_growing::Past;
use cm_history::{Entry, Recorder};
use cm_nmt::Wire;
use cm_register::{Register, RunName, SharedManager};
use std::sync::Wait;

/// A manager that the threads of a live run share, whose entries the one that watches takes in batches.
pub trait LiveRegister<K: RunName, R: Wait>: SharedManager<K, R> {
    /// The history up to now, as what is known of it from now on. It waits for the lock.
    fn past(&self, rt: &R) -> Past<K>;

    /// Copies of the entries behind what is known already, as many as the buffer has room for, and what is known with
    /// them. It waits for the lock, and holds it for these copies alone.
    fn entries_from(&self, rt: &R, known: &Past<K>, buffer: &mut Vec<Entry>) -> Option<Past<K>>
        requires { buffer.old.items ≡ [] }
        ensures taken { IfSome result (λ p. p ≡ known.now ++ buffer.new.items) }
        ensures none { IfNone result (buffer.new ≡ buffer.old) };
}

impl<'n, W: Wire, K: RunName, J: Recorder, R: Wait> LiveRegister<K, R> for Register<'n, W, K, J> {
    fn past(&self, rt: &R) -> Past<K> {
        Register::past(self, rt)
    }

    fn entries_from(&self, rt: &R, known: &Past<K>, buffer: &mut Vec<Entry>) -> Option<Past<K>> {
        Register::entries_from(self, rt, known, buffer)
    }
}
