//! How a call that was answered is carried out: by the one manager, and in what readers see.
ghost use Rattle.std.specs.Prelude.{◌≡◌, ◌<◌, ◌≤◌, ◌==◌, ◌++◌, ◌∷◌, [], ℕ, false, length, reverse, OnOk, OnErr};
ghost use Rattle.cm_netlist.specs.Network.{listing};
ghost use Rattle.cm_history.specs.Legal.{IsAnswered, IsLegal, most_entries};
ghost use Rattle.cm_sequential.specs.Standing.{Stands};

use cm_growing::{HistoryName, HistoryWriter, NotShown};
use cm_history::Entry;
use cm_netlist::Network;
use cm_sequential::{Manager, replay};

/// Makes the manager anew from the calls of a legal history. It stands apart, since a manager has over
/// 6 KB, which is cleared first, and this never comes, though no clause says so.
#[cold]
#[inline(never)]
fn go_back(manager: &mut Manager, net: &Network, history: &[Entry])
    requires { IsLegal (listing net.now) (reverse history.now) }
    ensures { Stands manager.new net.now (reverse history.now) }
{
    match replay(net, history) {
        Some(before) => *manager = before,
        None => unreachable!(),
    }
}

/// Carries out the call of the next entry, and shows it to readers. Where they can't be shown it nothing
/// has changed: the manager is made anew then from the history.
#[inline(always)]
pub(crate) fn carry_out<K: HistoryName>(
    manager: &mut Manager,
    writer: &mut HistoryWriter<K>,
    net: &Network,
    history: &[Entry],
    entry: &Entry,
) -> Result<(), NotShown>
    requires name { net.now ≡ K.net }
    requires stands { Stands manager.old K.net (reverse history.now) }
    requires shown { writer.old ≡ history.now }
    requires few { length history.now < most_entries }
    requires legal { IsLegal (listing K.net) (reverse history.now) }
    requires answered { IsAnswered (listing K.net) entry.now (reverse history.now) }
    ensures shown { OnOk result (writer.new ≡ history.now ++ entry.now ∷ []) }
    ensures stands { OnOk result (Stands manager.new K.net (entry.now ∷ reverse history.now)) }
    ensures same { OnErr result (writer.new ≡ history.now) }
    ensures again { OnErr result (Stands manager.new K.net (reverse history.now)) }
{
    manager.carry_out(&entry.call, entry.reply, &entry.orders);
    let own = net.own_id();
    let node = entry.call.node_or(own);
    let value = manager.shown(node);
    let own_value = manager.shown(own);
    if let Err(not_shown) = writer.show_entry(entry, node, value, own_value) {
        go_back(manager, net, history);
        return Err(not_shown);
    }
    Ok(())
}
