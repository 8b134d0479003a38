ghost use Rattle.std.specs.Prelude.{◌≡◌, ◌++◌, ◌∷◌, ◌<◌, ◌^◌, [], IfErr, IfOk, OnOk, OnErr};
ghost use mathlib.Core.List.{IsPrefix};
ghost use Rattle.cm_versions.specs.Telling.{IsTellCause};

use crate::fault::TellFault;
use crate::next::Next;
use crate::reader::VersionReader;
use crate::version::Version;
use cm_growing::{HistoryName, Past};
use cm_history::Entry;
use cm_netlist::Network;
use left_right::{Absorb, WriteHandle};
use std::alloc::{AllocError, Global};
use std::marker::Model;
use std::sync::Wait;

/// The one who is told the entries of a history, and who shows readers versions of it.
#[derive(Drop)]
pub struct Publisher<K: HistoryName, R: Wait + Drop>
where
    Version<K>: Absorb<Next<K>, State = [Entry; 0]>,
{
    versions: WriteHandle<Version<K>, Next<K>, R>,
    told: Past<K>,
}

impl<K: HistoryName, R: Wait + Drop> Model for Publisher<K, R>
where
    Version<K>: Absorb<Next<K>, State = [Entry; 0]>,
{
    ghost use Rattle.std.specs.Prelude.{◌≡◌, ◌++◌};
    ghost use Rattle.left_right.specs.Handles.{pending, published};
    ghost use Rattle.cm_versions.specs.Versions.{PublisherView, entries_of};

    ghost Value = { PublisherView };

    ghost view = { λ p. record { shown = published p.versions; told = p.told } };

    ghost invariant = { λ p. p.told ≡ published p.versions ++ entries_of (pending p.versions) };
}

impl<K: HistoryName, R: Wait + Drop> Publisher<K, R> {
    /// A publisher that was told nothing, with places for so many readers at once. What is known then is any
    /// past's first 0 entries. Refused where memory is.
    pub fn new(
        alloc: Global,
        rt: R,
        net: &Network,
        start: Past<K>,
        readers: usize,
    ) -> Result<Publisher<K, R>, AllocError>
        requires name { (net.now ≡ K.net) × (start ≡ []) }
        requires readers { (0 < readers) × (readers < 2 ^ 32) }
        ensures { IfOk result (λ p. (p.shown ≡ []) × (p.told ≡ [])) }
    {
        let first = Version::new(alloc, net, start.again());
        let second = Version::new(alloc, net, start.again());
        let versions = WriteHandle::new(alloc, rt, first, second, readers)?;
        Ok(Publisher {
            versions,
            told: start,
        })
    }

    /// What it was told, as what is known of the history.
    pub fn told(&self) -> Past<K>
        ensures { result ≡ self.now.told }
    {
        self.told.again()
    }

    /// A reader to whom so much is known. Refused where each place has a reader, and where memory is.
    pub fn reader(&self, known: Past<K>) -> Result<VersionReader<K>, AllocError>
        ensures { IfOk result (λ r. r ≡ known) }
    {
        Ok(VersionReader::of(self.versions.handle()?, known))
    }

    /// Is told the entry that follows; readers aren't shown it yet. Where it is refused nothing has changed.
    pub fn tell(&mut self, next: Next<K>) -> Result<(), TellFault>
        ensures told { OnOk result (self.new.told ≡ self.old.told ++ next.entry ∷ []) }
        ensures shown { self.new.shown ≡ self.old.shown }
        ensures fault { IfErr result (IsTellCause self.old.told next) }
        ensures same { OnErr result (self.new ≡ self.old) }
    {
        if !next.follows(&self.told) {
            return Err(TellFault::NotNext);
        }
        let longer = next.after().again();
        if self.versions.append(next).is_err() {
            return Err(TellFault::OutOfMemory);
        }
        self.told = longer;
        Ok(())
    }

    /// Is told the entries that follow, the oldest first, and what is known with all of them; readers aren't shown them
    /// yet. Refused where memory is: it was told some of the first then, and [`Publisher::told`] says how many.
    pub fn tell_all(&mut self, after: &Past<K>, entries: &[Entry]) -> Result<(), AllocError>
        requires { after.now ≡ self.old.told ++ entries.now }
        ensures told { OnOk result (self.new.told ≡ after.now) }
        ensures shown { self.new.shown ≡ self.old.shown }
        ensures part { OnErr result (IsPrefix self.old.told self.new.told × IsPrefix self.new.told after.now) }
    {
        let base = self.told.len();
        let end = after.len();
        for (place, entry) in entries.iter().enumerate() {
            let count = base + place as u64 + 1;
            if count > end {
                unreachable!();
            }
            if let Err(_refused) = self.tell(Next::new(after.first(count), entry)) {
                return Err(AllocError);
            }
        }
        Ok(())
    }

    /// Shows readers all that it was told. It waits for those who are still in the version before the last one.
    /// Refused where memory is: readers see then what they saw, and the next publication shows them all.
    pub fn publish(&mut self) -> Result<(), AllocError>
        ensures shown { OnOk result (self.new.shown ≡ self.old.told) }
        ensures told { self.new.told ≡ self.old.told }
        ensures later { IsPrefix self.old.shown self.new.shown }
        ensures same { OnErr result (self.new ≡ self.old) }
    {
        self.versions.publish()?;
        Ok(())
    }
}
