ghost use Rattle.std.specs.Prelude.{◌≡◌, ◌≤◌, length, reverse, IfSome};
ghost use mathlib.Core.List.{IsPrefix};
ghost use Rattle.cm_netlist.specs.Network.{listing};
ghost use Rattle.cm_nmt.specs.Listing.{Listing};
ghost use Rattle.cm_history.specs.History.{shown};
ghost use Rattle.cm_history.specs.Legal.{most_entries};
ghost use Rattle.cm_growing.specs.Row.{IsLooked};
ghost use Rattle.cm_growing.specs.Items.{IsOf};

use crate::history_name::HistoryName;
use crate::past::Past;
use crate::row::Row;
use crate::row_rule::SeenLog;
use crate::status::{GONE, NodeWord, Status};
use cm_nmt::NodeId;
use std::marker::Model;
use std::sync::Arc;

/// What a reader saw: a history, and what it shows of a node.
#[derive(Drop)]
pub struct Look<K: HistoryName> {
    pub past: Past<K>,
    /// The state of the node, as object 1F82h reads it.
    pub state: u8,
}

/// How many entries are shown, and the state of the node with them.
#[inline(always)]
fn see<K: HistoryName>(
    row: &Row<K>,
    own: NodeId,
    id: NodeId,
    seen: &mut SeenLog,
) -> Option<(u64, u8)>
    requires own { own ≡ K.net.own }
    requires of { (seen.old.book ≡ K.log) × IsOf K.net seen.old.log }
    ensures book { seen.new.book ≡ seen.old.book }
    ensures later { IsPrefix seen.old.log seen.new.log }
    ensures looked { IfSome result (λ r. IsLooked K.net seen.new.log id r.1 r.0) }
{
    let word = row.look(0, seen);
    if word == GONE {
        return None;
    }
    let status = Status::of(word);
    if status.node == id.get() {
        return Some((status.done, status.state));
    }
    let node_word = row.look(usize::from(id.get()), seen);
    let found = NodeWord::found(node_word, id == own);
    if found.since <= status.done {
        Some((status.done, found.state))
    } else {
        Some((found.since - 1, found.before))
    }
}

/// One who sees the history of the name `K` while it grows, without a lock and without waiting.
#[derive(Drop)]
pub struct HistoryReader<K: HistoryName> {
    row: Arc<Row<K>>,
    own: NodeId,
    ghost own_is: { own ≡ K.net.own },
}

impl<K: HistoryName> HistoryReader<K> {
    pub(crate) fn of(row: Arc<Row<K>>, own: NodeId) -> HistoryReader<K>
        requires { own ≡ K.net.own }
    {
        HistoryReader { row, own }
    }

    /// Looks at the history that is shown now, which has what was known before as its beginning, and at
    /// what it shows of this node. `None` where the writer is gone; or where the history that is shown
    /// is shorter than what was known, which never comes, though no clause says so.
    #[inline(always)]
    pub fn look(&self, known: &Past<K>, id: NodeId) -> Option<Look<K>>
        ensures later { IfSome result (λ l. IsPrefix known.now l.past) }
        ensures state { IfSome result
            (λ l. l.state ≡ shown (listing K.net) (reverse l.past) id) }
        ensures few { IfSome result (λ l. length l.past ≤ most_entries) }
    {
        let mut seen = known.seen.again();
        let (count, state) = see(&self.row, self.own, id, &mut seen)?;
        if count < known.count {
            return None;
        }
        let past = Past::of(count, seen);
        Some(Look { past, state })
    }
}
