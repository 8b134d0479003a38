//! A picture before it is written.

ghost use Rattle.std.specs.Prelude.{◌<◌, ◌^◌, length};

use crate::mark::Mark;
use crate::scale::Scale;
use cm_sequential::Manager;

/// A picture of a history.
#[derive(Drop)]
pub struct Picture {
    pub(crate) scale: Scale,
    /// The manager of each column.
    pub(crate) managers: Vec<Manager>,
    pub(crate) marks: Vec<Mark>,
    ghost few: { length managers.items < 2 ^ 32 },
}
