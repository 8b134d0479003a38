//! Which worker boots which slave: the workers take the listed slaves in turn.

ghost use Rattle.std.specs.Prelude.{◌≡◌, ◌<◌, IfSome};
ghost use Rattle.cm_netlist.specs.Workers.{place_of, worker_at, worker_of};

use cm_nmt::NodeId;

/// The place of a node among the listed ones, counted from 0.
pub fn place_of(listed: &[NodeId], node: NodeId) -> Option<usize>
    ensures { result ≡ place_of node listed.now }
{
    listed.iter().position(|listed| *listed == node)
}

/// Of so many workers, at least one, the worker of what stands at this place, both counted from 0 (own).
pub fn worker_at(workers: usize, place: usize) -> usize
    requires { 0 < workers }
    ensures value { result ≡ worker_at workers place }
    ensures range { result < workers }
{
    place % workers
}

/// Of so many workers, the one that boots the node, counted from 0: the k-th listed node, counted from 0, is that of worker k
/// modulo their number (own). A node that isn't listed is nobody's.
pub fn worker_of(listed: &[NodeId], workers: usize, node: NodeId) -> Option<usize>
    ensures value { result ≡ worker_of listed.now workers node }
    ensures range { IfSome result (λ worker. worker < workers) }
{
    if workers == 0 {
        return None;
    }
    let place = place_of(listed, node)?;
    Some(worker_at(workers, place))
}
