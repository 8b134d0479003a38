//! A history in the words of a live run.

ghost use Rattle.std.specs.Prelude.{◌≡◌, ◌-◌, ◌<◌, ◌^◌, List, [], ◌∷◌, if◌then◌else◌, None, OnOk, Some, option_map, reverse};
ghost use Rattle.std.specs.Io.KnownBytes.{Appends};
ghost use Rattle.cm_history.specs.Legal.{IsAnswered, IsLegal};
ghost use Rattle.cm_history.specs.declared.call.Entry.{Entry as AnEntry};
ghost use Rattle.cm_netlist.specs.Network.{listing};
ghost use Rattle.cm_sequential.specs.Standing.{Stands, sessions_begun};
ghost use Rattle.cm_words.specs.ToldLines.{running_in};
ghost use Rattle.canboot_tell.specs.ToldHistory.{concerns, history_told, is_of, words_behind};
ghost use Rattle.canboot_tell.specs.Tellers.{Knows, SaysBehind};

use cm_history::{Call, Entry};
use cm_netlist::Network;
use cm_nmt::NodeId;
use cm_sequential::Manager;
use cm_telling::Tried;
use cm_watch::{Told, Watch};
use cm_watched::{Happening, Settings};
use cm_words::{EntryWords, Nodes, has_words, running_by, say_if, started_too, tell_told};
use std::io::{self, Write};

/// Whether the call names the node.
fn is_of(id: NodeId, call: &Call) -> bool
    ensures { result ≡ is_of id call.now }
{
    match call {
        Call::Begin(other)
        | Call::Report(other, _, _)
        | Call::Signal(other, _)
        | Call::Lost(other)
        | Call::Hold(other)
        | Call::Release(other) => *other == id,
        Call::Request(target, _) | Call::Read(target) => *target == id.get(),
        Call::StartNetwork | Call::Elapsed(_) => false,
    }
}

/// Whether the call is of the node, if one is asked for.
fn concerns(node: &Option<NodeId>, call: &Call) -> bool
    ensures { result ≡ concerns node.now call.now }
{
    match node {
        Some(id) => is_of(*id, call),
        None => true,
    }
}

/// What is said of an entry.
#[derive(Drop)]
struct Said<'a> {
    words: EntryWords<'a>,
    told: Told,
    /// The nodes that were started with all nodes though they aren't booted.
    too: Nodes,
    /// The nodes that run on, where the network was halted with it.
    running: Option<Nodes>,
}

impl<'a> Said<'a> {
    /// Writes it.
    fn write<W: Write>(&self, out: &mut W) -> io::Result<()>
        ensures { (before : List AnEntry) → SaysBehind self.now before
            → OnOk result (Appends (W.contents out.old) (W.contents out.new)
            (words_behind self.now.words.network.now before self.now.words.entry.now)) }
    {
        say_if(out, has_words(self.words.entry), &self.words)?;
        tell_told(out, &self.too, &self.running, self.words.entry, &self.told)
    }

    /// Writes it, if it is to be told.
    fn write_if<W: Write>(&self, out: &mut W, is_told: bool) -> io::Result<()>
        ensures { (before : List AnEntry) → SaysBehind self.now before
            → OnOk result (Appends (W.contents out.old) (W.contents out.new)
            (if is_told then words_behind self.now.words.network.now before self.now.words.entry.now else [])) }
    {
        if is_told { self.write(out) } else { Ok(()) }
    }
}

/// What is known behind the entries of a history that were taken.
#[derive(Drop)]
struct HistoryTeller<'a> {
    network: &'a Network,
    manager: Manager,
    watch: Watch,
    tried: Tried,
    /// How many were taken.
    count: u64,
}

impl<'a> HistoryTeller<'a> {
    /// None was taken.
    fn new(network: &'a Network) -> HistoryTeller<'a>
        ensures { Knows result network.now [] }
    {
        let settings = Settings {
            settle_ms: 0,
            heartbeat_ms: 0,
        };
        HistoryTeller {
            network,
            manager: Manager::new(network),
            watch: Watch::new(settings),
            tried: Tried::new(),
            count: 0,
        }
    }

    /// The nodes that run on, where the network was halted.
    fn running_if(&self, is_halted: bool) -> Option<Nodes>
        ensures { (h : List AnEntry) → Stands self.now.manager self.now.network.now h
            → option_map (λ n. n.0.items) result
            ≡ (if is_halted then Some (running_in self.now.network.now h) else None) }
    {
        if is_halted {
            Some(running_by(self.network, &self.manager))
        } else {
            None
        }
    }

    /// Takes the entry that comes next; the answer is what is said of it.
    fn take(&mut self, entry: &'a Entry) -> Said<'a>
        requires few { (self.old.count < 2 ^ 64 - 1) × (sessions_begun self.old.manager < 2 ^ 64 - 1) }
        ensures network { result.words.network.now ≡ self.old.network.now }
        ensures entry { result.words.entry.now ≡ entry.now }
        ensures says { (before : List AnEntry) → Knows self.old self.old.network.now before
            → IsAnswered (listing self.old.network.now) entry.now before → SaysBehind result before }
        ensures knows { (before : List AnEntry) → Knows self.old self.old.network.now before
            → IsAnswered (listing self.old.network.now) entry.now before
            → Knows self.new self.old.network.now (entry.now ∷ before) }
    {
        let is_halted = self.watch.phase().is_halted();
        let unbooted = self.tried.unbooted(entry, &self.watch);
        let told = self.watch.take(self.network, 0, &Happening::Called(*entry));
        self.tried.count(entry);
        self.manager.apply(entry.call);
        self.count += 1;
        let words = EntryWords {
            network: self.network,
            entry,
            is_handed: true,
            is_halted,
            place: self.count,
            unbooted,
        };
        let too = started_too(self.network, &self.watch, &self.tried, &entry.orders, true);
        let running = self.running_if(told.is_halted);
        Said {
            words,
            told,
            too,
            running,
        }
    }
}

/// Writes a legal history in words, the oldest entry first: each entry as a live run tells it once its frames were sent, and what
/// became of the network and of slaves with it. Where a node is asked for, just the calls of that node are told. It takes no
/// memory, and fails only where the writer does.
pub fn tell_history<'a, W: Write>(
    network: &'a Network,
    entries: &'a [Entry],
    node: Option<NodeId>,
    out: &mut W,
) -> io::Result<()>
    requires { IsLegal (listing network.now) (reverse entries.now) }
    ensures { OnOk result (Appends (W.contents out.old) (W.contents out.new)
        (history_told network.now node (reverse entries.now))) }
{
    let mut teller = HistoryTeller::new(network);
    for entry in entries {
        let said = teller.take(entry);
        let is_told = concerns(&node, &entry.call);
        said.write_if(out, is_told)?;
    }
    Ok(())
}
