//! When the run is to end.

ghost use Rattle.std.specs.Prelude.{◌≡◌};
ghost use Rattle.cm_watch.specs.Ends.{ends_by, has_come};

use cm_watched::{Happening, Moment, Step};

/// When the run is to end, where it was to end then before the moment.
pub(crate) fn ends_by(moment: &Moment, before: Option<u64>) -> Option<u64>
    ensures { result ≡ ends_by moment.now before }
{
    match moment {
        Moment::Happened(Happening::Ends(at)) => Some(*at),
        Moment::Gave(Step::End) => None,
        _ => before,
    }
}

/// Whether there is such a time, and it has come.
pub(crate) fn has_come(now: u64, ends: Option<u64>) -> bool
    ensures { result ≡ has_come now ends }
{
    match ends {
        Some(at) => at <= now,
        None => false,
    }
}
