use crate::log_item::LogItem;
use cm_history::Entry;
use cm_netlist::Network;
use cm_nmt::NodeId;
use logbook::{Gain, Opening, Plain, Play, Rule, Seen};

/// The rule of a row: its words are those of the log.
pub struct RowRule;

impl Rule<LogItem, u64> for RowRule {
    ghost use Rattle.std.specs.Prelude.{[]};
    ghost use base.Fml.{ftrue};
    ghost use Rattle.cm_growing.specs.Row.{HasRow};

    ghost holds = { HasRow };

    ghost first = { [] };

    ghost hinted = { λ number log. Unit {0} };

    ghost shows = { λ log. [] };

    ghost keeps = { λ names log. ftrue };

    ghost moves = { λ ask before after answer. Unit {0} };
}

/// What a step gains beside its item: nothing.
pub struct NoGain;

impl Gain<LogItem, u64> for NoGain {
    ghost use base.Fml.{ftrue};

    ghost after = { λ names about answer. ftrue };
}

/// A row opens with its network list.
pub struct OpenRow;

impl Opening<Network, LogItem> for OpenRow {
    ghost use Rattle.std.specs.Prelude.{[], ◌∷◌};
    ghost use Rattle.cm_growing.specs.declared.log_item.LogItem.TheVariants as item;

    ghost log = { λ count net. item.Opened net ∷ [] };
}

/// A step that finds the number in a word.
pub struct Look;

impl Play<LogItem, u64> for Look {
    ghost use Rattle.cm_growing.specs.Row.{Looks};

    ghost then = { Looks };
}

/// A step that ends the row.
pub struct End;

impl Play<LogItem, u64> for End {
    ghost use Rattle.cm_growing.specs.Row.{Ends};

    ghost then = { Ends };
}

/// A step that changes a word, and adds the item that it asks for.
pub struct Put;

impl Play<LogItem, u64> for Put {
    ghost use Rattle.cm_growing.specs.Row.{Puts};

    ghost then = { Puts };
}

/// Asks for an entry.
pub struct AskEntry;

impl Plain<Entry, LogItem, u64> for AskEntry {
    ghost use Rattle.std.specs.Prelude.{None};
    ghost use Rattle.cm_growing.specs.declared.log_item.LogItem.TheVariants as item;

    ghost ask = { λ entry. item.Entry entry };

    ghost state = { λ entry. None };
}

/// An entry that is added, how many there are with it, and the node whose state the first word has then.
#[derive(Clone, Copy)]
pub struct Adding<'e> {
    pub entry: &'e Entry,
    pub count: u64,
    pub node: Option<NodeId>,
}

/// Asks for an entry with which no node's word changes.
pub struct AskMoved;

impl<'e> Plain<Adding<'e>, LogItem, u64> for AskMoved {
    ghost use Rattle.std.specs.Prelude.{None};
    ghost use Rattle.cm_growing.specs.declared.log_item.LogItem.TheVariants as item;

    ghost ask = { λ a. item.Moved a.entry.now a.count a.node };

    ghost state = { λ a. None };
}

/// The node whose word is stored, and with how many entries.
#[derive(Clone, Copy)]
pub struct Storing {
    pub node: NodeId,
    pub since: u64,
}

/// Asks for a stored word.
pub struct AskStored;

impl Plain<Storing, LogItem, u64> for AskStored {
    ghost use Rattle.std.specs.Prelude.{None};
    ghost use Rattle.cm_growing.specs.declared.log_item.LogItem.TheVariants as item;

    ghost ask = { λ s. item.Stored s.node s.since };

    ghost state = { λ s. None };
}

/// Asks for words that are right up to so many entries.
pub struct AskShown;

impl Plain<u64, LogItem, u64> for AskShown {
    ghost use Rattle.std.specs.Prelude.{None};
    ghost use Rattle.cm_growing.specs.declared.log_item.LogItem.TheVariants as item;

    ghost ask = { λ count. item.Shown count };

    ghost state = { λ count. None };
}

/// What is known of a log.
pub type SeenLog = Seen<LogItem, u64, RowRule>;
