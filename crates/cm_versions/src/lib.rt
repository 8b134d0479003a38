//! Versions of what a history comes to, for readers who take no lock and don't wait.
//!
//! A [`Version`] is a legal history's manager, its orders and the last status of each slave, with the
//! [`cm_growing::Past`] that says of which entries they are: these were the whole history of the name `K` at some
//! moment, and so the history begins with them from then on. It keeps no entry.
//!
//! A [`Publisher`] is told entries, each as a [`Next`], which is the entry with what is known of the history up to
//! it. It takes just the one that follows what it was told, and shows readers all of them at once where it publishes.
//! Whoever tells it needn't be trusted: no other entry is taken, and none of another history, since that has
//! another name. A [`VersionReader`] enters the newest version that it finds. What it sees begins with all that it saw
//! before, it takes a copy of the manager or writes the report of just this beginning, and while it is inside nothing
//! changes.
//!
//! Two copies of the version are kept, of which readers enter the one while the other takes what is new.
//! So a publisher waits for those who are still in the version before the last one, and a reader that goes to
//! a device while it is inside holds it up: a report is written to memory, and from there to a device.
//!
//! [`Version::json`] writes the report of a version as one JSON object.
#![tactic(auto)]

mod fault;
mod next;
mod publisher;
mod reader;
mod version;

pub use fault::TellFault;
pub use next::Next;
pub use publisher::Publisher;
pub use reader::VersionReader;
pub use version::Version;
