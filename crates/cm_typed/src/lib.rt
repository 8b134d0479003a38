//! Numbers, node-IDs and lists of nodes as people type them, in a command line or while a network runs.
//!
//! [`number_of`] and [`typed_node`] read what an operator types: a number of 0 to 255, and a node-ID. [`node_in`], [`value_in`] and
//! [`index_in`] read what stands in the words of a command line, where [`pair_in`] parts a word in two; [`node_list`] and
//! [`with_nodes`] read a list of nodes, as `2,5-9`. Each says exactly where a word spells none. It stands on the texts of cm_text,
//! the node-IDs of cm_nmt, and the sets of nodes of cm_history.
#![tactic(auto)]

mod node_lists;
mod numbers;

pub use node_lists::{index_in, node_in, node_list, pair_in, value_in, with_nodes};
pub use numbers::{number_of, typed_node};
