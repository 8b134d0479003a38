//! What is compared where a register closes: the seats' numbers, and what the seats know with the
//! history.
ghost use Rattle.std.specs.Prelude.{◌↔◌, IsTrue};
ghost use Rattle.cm_register.specs.Handing.{AreApart};
ghost use Rattle.cm_register.specs.Knowing.{AllHaveCallsOf};
ghost use Rattle.cm_register.specs.Reads.{AllKnown, IsKnown};
ghost use Rattle.cm_register.specs.SeatCalls.{HasCallsOf};

use crate::run_name::RunName;
use crate::seat::Seat;
use cm_growing::Past;

/// Whether no number comes twice.
pub fn are_apart<K: RunName>(seats: &[Seat<K>]) -> bool
    ensures { IsTrue result ↔ AreApart seats.now }
{
    match seats {
        [] => true,
        [first, rest @ ..] => {
            let number = first.number();
            rest.iter().all(|seat| seat.number() != number) && are_apart(rest)
        }
    }
}

/// Whether the history has what the seat saw and was told as its beginning, and so the calls that it made.
pub fn is_known<K: RunName>(history: &Past<K>, seat: &Seat<K>) -> bool
    ensures known { IsTrue result → IsKnown history.now seat.now }
    ensures calls { IsTrue result → HasCallsOf history.now seat.now }
{
    history.longer(seat.known()).len() <= history.len()
}

/// Whether it has what each seat knows, and so the calls that each made.
pub fn are_known<K: RunName>(history: &Past<K>, seats: &[Seat<K>]) -> bool
    ensures known { IsTrue result → AllKnown history.now seats.now }
    ensures calls { IsTrue result → AllHaveCallsOf history.now seats.now }
{
    match seats {
        [] => true,
        [first, rest @ ..] => is_known(history, first) && are_known(history, rest),
    }
}
