ghost use Rattle.std.specs.Prelude.{◌≡◌, reverse, IfSome, IfNone, IsFalse, IsTrue, OnOk};
ghost use mathlib.Core.List.{IsPrefix};
ghost use Rattle.std.specs.Io.KnownBytes.{Appends};
ghost use Rattle.cm_format.specs.Report.{report_text};
ghost use Rattle.cm_format.specs.ReportJson.{report_json};
ghost use Rattle.cm_sequential.specs.Standing.{Stands};

use crate::version::Version;
use cm_growing::{HistoryName, Past};
use cm_netlist::Network;
use cm_sequential::Manager;
use left_right::ReadHandle;
use std::io::{self, Write};
use std::marker::Model;

/// One who enters versions, without a lock and without waiting. Contracts see it as the history that it saw last.
#[derive(Drop)]
pub struct VersionReader<K: HistoryName> {
    handle: ReadHandle<Version<K>>,
    known: Past<K>,
}

impl<K: HistoryName> Model for VersionReader<K> {
    ghost use Rattle.std.specs.Prelude.{List};
    ghost use Rattle.cm_history.specs.declared.call.Entry.{Entry};

    ghost Value = { List Entry };

    ghost view = { λ r. r.known };
}

/// Keeps what is seen, where it begins with what was known; where it doesn't, this stays.
fn keep<K: HistoryName>(known: &mut Past<K>, seen: &Past<K>) -> bool
    ensures later { IsPrefix known.old known.new }
    ensures seen { IsTrue result → known.new ≡ seen.now }
    ensures same { IsFalse result → known.new ≡ known.old }
{
    if !known.begins(seen) {
        return false;
    }
    *known = seen.again();
    true
}

impl<K: HistoryName> VersionReader<K> {
    /// The reader of a handle, to whom so much is known.
    pub(crate) fn of(handle: ReadHandle<Version<K>>, known: Past<K>) -> VersionReader<K>
        ensures { result ≡ known }
    {
        VersionReader { handle, known }
    }

    /// What it saw last, as what is known of the history.
    pub fn known(&self) -> Past<K>
        ensures { result ≡ self.now }
    {
        self.known.again()
    }

    /// A copy of the manager of a version: it stands for a history that begins with all that was seen before.
    /// `None` where the publisher is gone, and where the version is shorter than what was seen before, which never comes,
    /// though no clause says so; nothing has changed then.
    pub fn look(&mut self) -> Option<Manager>
        ensures later { IsPrefix self.old self.new }
        ensures stands { IfSome result (λ m. Stands m K.net (reverse self.new)) }
        ensures none { IfNone result (self.new ≡ self.old) }
    {
        let guard = self.handle.enter()?;
        let version: &Version<K> = &*guard;
        if !keep(&mut self.known, &version.past()) {
            return None;
        }
        Some(*version.manager())
    }

    /// Writes the report of a version: that of a history that begins with all that was seen before. `None` as for a look.
    /// It stays in the version until all is written, so that a publisher may wait for `out`; where a write fails, a part
    /// of the report may have been written, and the version was seen.
    pub fn report<W: Write>(&mut self, net: &Network, out: &mut W) -> Option<io::Result<()>>
        requires { net.now ≡ K.net }
        ensures later { IsPrefix self.old self.new }
        ensures written { IfSome result (λ r. OnOk r
            (Appends (W.contents out.old) (W.contents out.new) (report_text K.net self.new))) }
        ensures none { IfNone result (self.new ≡ self.old) }
    {
        let guard = self.handle.enter()?;
        let version: &Version<K> = &*guard;
        if !keep(&mut self.known, &version.past()) {
            return None;
        }
        Some(version.report(net, out))
    }

    /// Writes the report of a version as one JSON object, in one line: that of a history that begins with all that was
    /// seen before. What holds of [`VersionReader::report`] holds of it too.
    pub fn json<W: Write>(&mut self, net: &Network, out: &mut W) -> Option<io::Result<()>>
        requires { net.now ≡ K.net }
        ensures later { IsPrefix self.old self.new }
        ensures written { IfSome result (λ r. OnOk r
            (Appends (W.contents out.old) (W.contents out.new) (report_json K.net self.new))) }
        ensures none { IfNone result (self.new ≡ self.old) }
    {
        let guard = self.handle.enter()?;
        let version: &Version<K> = &*guard;
        if !keep(&mut self.known, &version.past()) {
            return None;
        }
        Some(version.json(net, out))
    }
}
