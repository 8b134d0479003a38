ghost use Rattle.std.specs.Prelude.{◌≡◌, ◌↔◌, IsTrue};
ghost use Rattle.cm_versions.specs.Telling.{Follows};
ghost use Rattle.cm_versions.specs.Versions.{EndsWith};

use cm_growing::{HistoryName, Past};
use cm_history::Entry;
use std::marker::Model;

/// An entry of the history of the name `K`, and what is known with it: the history up to it.
#[derive(Drop)]
pub struct Next<K: HistoryName> {
    after: Past<K>,
    entry: Entry,
}

impl<K: HistoryName> Model for Next<K> {
    ghost use Rattle.cm_versions.specs.Versions.{EndsWith, NextView};

    ghost Value = { NextView };

    ghost view = { λ n. record { after = n.after; entry = n.entry } };

    ghost invariant = { λ n. EndsWith n.after n.entry };
}

impl<K: HistoryName> Next<K> {
    /// The entry with which what is known ends.
    pub fn new(after: Past<K>, entry: &Entry) -> Next<K>
        requires { EndsWith after entry.now }
        ensures { (result.after ≡ after) × (result.entry ≡ entry.now) }
    {
        Next {
            after,
            entry: *entry,
        }
    }

    /// The history up to the entry.
    pub fn after(&self) -> &Past<K>
        ensures value { result.now ≡ self.now.after }
        ensures ends { EndsWith self.now.after self.now.entry }
    {
        &self.after
    }

    /// The entry.
    pub fn entry(&self) -> &Entry
        ensures { result.now ≡ self.now.entry }
    {
        &self.entry
    }

    /// Whether it is the entry that follows what is known.
    pub fn follows(&self, known: &Past<K>) -> bool
        ensures { IsTrue result ↔ (Follows known.now self.now) }
    {
        let _both = known.longer(&self.after);
        let before = known.len();
        let after = self.after.len();
        if before >= after {
            return false;
        }
        if after - before != 1 {
            return false;
        }
        true
    }
}
