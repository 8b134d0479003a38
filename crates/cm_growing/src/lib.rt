//! What is known of a history that grows, by whoever doesn't hold its lock, and how it is shown.
//!
//! A [`Past`] says: these entries were the whole history at some moment. So the history begins with
//! them from then on, and of two pasts of one history one begins the other. It has no entry in memory and
//! takes no lock. Each past is a legal history.
//!
//! A [`HistoryWriter`], of which each history has one, makes the history longer by an entry and shows what
//! is changed by it: in a row of words that threads share, one for each node, with the node's state as a
//! read of it is answered, and a first one, which has how many entries there are and the state of the node
//! that changed last. A [`HistoryReader`] looks at the first word and at a node's. It takes no lock, no
//! memory and doesn't wait, and what it sees has all that it knew before as its beginning.
//!
//! [`UnnamedHistory::new`] makes the row, and [`UnnamedHistory::named`] gives the writer.
#![tactic(auto)]

mod change;
mod current;
mod history_name;
mod log_item;
mod past;
mod reader;
mod row;
mod row_rule;
mod status;
mod storing;
mod unnamed_history;
mod writer;

pub use history_name::HistoryName;
pub use past::Past;
pub use reader::{HistoryReader, Look};
pub use unnamed_history::UnnamedHistory;
pub use writer::{HistoryWriter, NotShown};
