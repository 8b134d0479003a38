//! What the one who watches a live run reads of versions of its history, without the lock.

ghost use Rattle.std.specs.Prelude.{◌≡◌, ◌++◌, reverse, IfSome, IsTrue};
ghost use Rattle.cm_format.specs.Report.{report_text};
ghost use Rattle.cm_history.specs.Legal.{IsLegal};
ghost use Rattle.cm_netlist.specs.Network.{listing};
ghost use Rattle.cm_register.specs.Reads.{IsKnown};
ghost use Rattle.cm_sequential.specs.Standing.{Stands};

use cm_netlist::Network;
use cm_register::{RunName, Seat, is_known};
use cm_sequential::Manager;
use cm_versions::VersionReader;

/// A copy of the manager of the newest version, where that has all that the seat saw and was told; none else, as where memory was
/// refused for it.
pub(crate) fn manager_seen<K: RunName>(
    reader: &mut VersionReader<K>,
    seat: &Seat<K>,
) -> Option<Manager>
    ensures { IfSome result (λ m. (h : _) × IsLegal (listing K.net) (reverse h)
        × IsKnown h seat.now × Stands m K.net (reverse h)) }
{
    let manager = reader.look()?;
    let seen = reader.known();
    seen.keeps();
    if is_known(&seen, seat) {
        Some(manager)
    } else {
        None
    }
}

/// Puts the report of a history that begins with all that the seat saw and was told behind this text, that of the newest version.
/// Whether it did: it doesn't where memory is refused.
pub(crate) fn report_seen<K: RunName>(
    reader: &mut VersionReader<K>,
    network: &Network,
    seat: &Seat<K>,
    text: &mut Vec<u8>,
) -> bool
    requires { network.now ≡ K.net }
    ensures { IsTrue result → (h : _) × IsKnown h seat.now
        × (text.new.items ≡ text.old.items ++ report_text K.net h) }
{
    let Some(written) = reader.report(network, text) else {
        return false;
    };
    written.is_ok() && is_known(&reader.known(), seat)
}
