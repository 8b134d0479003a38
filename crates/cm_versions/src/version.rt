ghost use Rattle.std.specs.Prelude.{◌≡◌, ◌++◌, ◌∷◌, [], reverse, OnOk, OnErr};
ghost use Rattle.std.specs.Io.KnownBytes.{Appends};
ghost use Rattle.cm_format.specs.Report.{report_text};
ghost use Rattle.cm_format.specs.ReportJson.{report_json};
ghost use Rattle.cm_sequential.specs.Standing.{Stands};
ghost use Rattle.cm_versions.specs.Telling.{Follows};

use crate::next::Next;
use cm_growing::{HistoryName, Past};
use cm_history::Entry;
use cm_netlist::Network;
use cm_report::{replay_json, replay_report};
use cm_sequential::{Cause, CompactReplay, Manager, Untaken};
use left_right::Absorb;
use std::alloc::{AllocError, Global};
use std::io::{self, Write};
use std::marker::Model;

/// What the history of the name `K` comes to, up to some entry: its manager, its orders, and each slave's last status.
/// Contracts see it as the entries up to there, which were the whole history at some moment.
#[derive(Drop)]
pub struct Version<K: HistoryName> {
    replay: CompactReplay,
    past: Past<K>,
}

impl<K: HistoryName> Model for Version<K> {
    ghost use Rattle.std.specs.Prelude.{List};
    ghost use Rattle.cm_history.specs.declared.call.Entry.{Entry};
    ghost use Rattle.cm_sequential.specs.Compact.{IsReplayOf};

    ghost Value = { List Entry };

    ghost view = { λ v. v.past };

    ghost invariant = { λ v. IsReplayOf v.replay K.net v.past };
}

impl<K: HistoryName> Version<K> {
    /// The version of no entry. What is known then is any past's first 0 entries.
    pub fn new(alloc: Global, net: &Network, past: Past<K>) -> Version<K>
        requires { (net.now ≡ K.net) × (past ≡ []) }
        ensures { result ≡ [] }
    {
        Version {
            replay: CompactReplay::new(alloc, net),
            past,
        }
    }

    /// The entries whose version it is, as what is known of the history.
    pub fn past(&self) -> Past<K>
        ensures { result ≡ self.now }
    {
        self.past.again()
    }

    /// The manager that these entries leave.
    pub fn manager(&self) -> &Manager
        ensures { Stands result.now K.net (reverse self.now) }
    {
        self.replay.manager()
    }

    /// Writes the report of just these entries. Where a write fails, a part of it may have been written.
    pub fn report<W: Write>(&self, net: &Network, out: &mut W) -> io::Result<()>
        requires { net.now ≡ K.net }
        ensures { OnOk result
            (Appends (W.contents out.old) (W.contents out.new) (report_text K.net self.now)) }
    {
        replay_report(net, &self.replay, out)
    }

    /// Writes the report of just these entries as one JSON object, in one line. Where a write fails, a part of it may
    /// have been written.
    pub fn json<W: Write>(&self, net: &Network, out: &mut W) -> io::Result<()>
        requires { net.now ≡ K.net }
        ensures { OnOk result
            (Appends (W.contents out.old) (W.contents out.new) (report_json K.net self.now)) }
    {
        replay_json(net, &self.replay, out)
    }

    /// Takes in the entry that follows. Where memory is refused nothing has changed.
    fn take(&mut self, next: &Next<K>) -> Result<(), AllocError>
        requires { Follows self.old next.now }
        ensures taken { OnOk result (self.new ≡ self.old ++ next.now.entry ∷ []) }
        ensures same { OnErr result (self.new ≡ self.old) }
    {
        next.after().keeps();
        match self.replay.take_all(&[*next.entry()]) {
            Ok(()) => {
                self.past = next.after().again();
                Ok(())
            }
            Err(Untaken { place: _, cause }) => match cause {
                Cause::OutOfMemory => Err(AllocError),
                Cause::WrongReply => unreachable!(),
            },
        }
    }
}

impl<K: HistoryName> Absorb<Next<K>> for Version<K> {
    type State = [Entry; 0];

    ghost state = { λ v. v };

    ghost applied = { λ h n. h ++ n.entry ∷ [] };

    /// Takes in an entry. One that doesn't follow never comes, since a publisher tests it before.
    fn absorb_first(&mut self, operation: &Next<K>, _other: &Version<K>) -> Result<(), AllocError> {
        if !operation.follows(&self.past) {
            return Err(AllocError);
        }
        self.take(operation)
    }
}
