//! The heartbeat of the manager itself (CiA 301).

ghost use Rattle.std.specs.Prelude.{◌≡◌};
ghost use Rattle.cm_watched.specs.Beats.{beat_by, beat_byte, is_beat_due};

use crate::happening::{Moment, Step};
use cm_nmt::NmtState;

/// When a heartbeat of the manager was given, where the moment is that.
pub fn beat_by(now: u64, moment: &Moment) -> Option<u64>
    ensures { result ≡ beat_by now moment.now }
{
    match moment {
        Moment::Gave(Step::Beat(_)) => Some(now),
        _ => None,
    }
}

/// Whether one is due, where the last was given then.
pub fn is_beat_due(heartbeat_ms: u16, now: u64, last: Option<u64>) -> bool
    ensures { result ≡ is_beat_due heartbeat_ms now last }
{
    if heartbeat_ms == 0 {
        return false;
    }
    let every = u64::from(heartbeat_ms);
    match last {
        Some(last) => last / every < now / every,
        None => true,
    }
}

/// Its byte: boot-up in the first, else the manager's own state.
pub fn beat_byte(last: Option<u64>, own: NmtState) -> u8
    ensures { result ≡ beat_byte last own }
{
    match last {
        Some(_) => own.code(),
        None => 0,
    }
}
