//! How the words of nodes are looked at and stored.
ghost use Rattle.std.specs.Prelude.{◌≡◌, ◌≤◌, ◌+◌, length, IsTrue};
ghost use mathlib.Core.List.{IsPrefix};
ghost use Rattle.cm_netlist.specs.Network.{listing};
ghost use Rattle.cm_history.specs.Legal.{most_entries};
ghost use Rattle.cm_growing.specs.Growing.{IsMoving, Stores};
ghost use Rattle.cm_growing.specs.Items.{IsOf, IsSame, entries_in};
ghost use Rattle.cm_growing.specs.Row.{IsCurrent, IsFound};

use crate::change::Change;
use crate::current::Current;
use crate::history_name::HistoryName;
use crate::row::Row;
use crate::row_rule::SeenLog;
use crate::status::NodeWord;
use cm_nmt::NodeId;

/// A node's word, and what it says.
#[inline(always)]
pub(crate) fn find<K: HistoryName>(
    row: &Row<K>,
    own: NodeId,
    id: NodeId,
    seen: &mut SeenLog,
) -> (u64, NodeWord)
    requires of { (seen.old.book ≡ K.log) × IsOf K.net seen.old.log }
    requires own { own ≡ K.net.own }
    ensures book { seen.new.book ≡ seen.old.book }
    ensures later { IsPrefix seen.old.log seen.new.log }
    ensures found { IsFound (listing K.net) seen.new.log id result.0 result.1.since result.1.state }
{
    let word = row.look(usize::from(id.get()), seen);
    (word, NodeWord::found(word, id == own))
}

/// Stores the word of the node whose state the first word has: the words of all nodes are right then. `false` where
/// it isn't as it was found.
pub(crate) fn put_away<K: HistoryName>(
    row: &Row<K>,
    own: NodeId,
    count: u64,
    current: &Current,
    seen: &mut SeenLog,
) -> bool
    requires of { (seen.old.book ≡ K.log) × IsOf K.net seen.old.log }
    requires own { own ≡ K.net.own }
    requires count { (count ≤ most_entries) × (count ≤ length (entries_in seen.old.log)) }
    requires current { IsCurrent (listing K.net) seen.old.log count current.now }
    ensures { Stores (listing K.net) seen.old seen.new count result }
{
    let Some(id) = current.node else {
        return true;
    };
    let (word, found) = find(row, own, id, seen);
    if current.since <= found.since {
        return true;
    }
    let stored = NodeWord {
        since: current.since,
        state: current.state,
        before: current.before,
    };
    row.store(id, word, stored, seen)
}

/// Stores what is shown of a node with the entry, where it was another before. `false` where its word
/// isn't as it was found.
#[inline(always)]
fn refresh<K: HistoryName>(
    row: &Row<K>,
    change: &Change<'_>,
    id: NodeId,
    seen: &mut SeenLog,
) -> bool
    requires { IsMoving K.net K.log seen.old change.now }
    ensures book { seen.new.book ≡ seen.old.book }
    ensures later { IsPrefix seen.old.log seen.new.log }
    ensures same { IsTrue result → IsSame (listing K.net) seen.new.log (change.now.count + 1) id }
{
    let (word, found) = find(row, change.own, id, seen);
    if found.since > change.count {
        return true;
    }
    let state = change.state(id, found.state);
    if state == found.state {
        return true;
    }
    let stored = NodeWord {
        since: change.count + 1,
        state,
        before: found.state,
    };
    row.store(id, word, stored, seen)
}

/// [`refresh`] for every node.
#[inline(never)]
fn refresh_all<K: HistoryName>(row: &Row<K>, change: &Change<'_>, seen: &mut SeenLog) -> bool
    requires { IsMoving K.net K.log seen.old change.now }
    ensures { Stores (listing K.net) seen.old seen.new (change.now.count + 1) result }
{
    for number in 1..128 {
        let Some(id) = NodeId::new(number) else {
            return false;
        };
        if !refresh(row, change, id, seen) {
            return false;
        }
    }
    true
}

/// Stores what is shown with the entry of each node of which another state was shown before. `false`
/// where a word isn't as it was found.
#[inline(always)]
pub(crate) fn store_states<K: HistoryName>(
    row: &Row<K>,
    change: &Change<'_>,
    seen: &mut SeenLog,
) -> bool
    requires { IsMoving K.net K.log seen.old change.now }
    ensures { Stores (listing K.net) seen.old seen.new (change.now.count + 1) result }
{
    if change.is_of_all() {
        return refresh_all(row, change, seen);
    }
    refresh(row, change, change.node, seen) && refresh(row, change, change.own, seen)
}
