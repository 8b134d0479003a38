//! What a live run tells of its history, entry by entry.

ghost use Rattle.std.specs.Prelude.{◌≡◌, IfSome, OnOk, option_map};
ghost use Rattle.cm_watched.specs.Pasts.{Past};
ghost use Rattle.cm_telling.specs.Tried.{Tries, attempts_in, status_in};
ghost use Rattle.std.specs.Fmt.{with_newline};
ghost use Rattle.std.specs.Io.KnownBytes.{Appends};
ghost use Rattle.cm_words.specs.ToldLines.{back_words, entry_lines, line_if, line_of, told_lines, too_line, unwatched_words};

use crate::lines::{Back, GivenUp, Halted, NearlyFull, StoppedBy, Unwatched};
use crate::nodes::{Nodes, StartedToo};
use crate::words::{EntryWords, has_words};
use cm_history::{Entry, MOST_ENTRIES};
use cm_netlist::Network;
use cm_nmt::NodeId;
use cm_telling::Tried;
use cm_watch::Told;
use std::fmt::Display;
use std::io::{self, Write};

/// Behind how many entries it is told that the journal is nearly full: nine tenths of the most that there may be.
pub const NEARLY_FULL: u64 = MOST_ENTRIES as u64 / 10 * 9;

/// How many entries are left then.
pub const ENTRIES_LEFT: u64 = MOST_ENTRIES as u64 - NEARLY_FULL;

/// That a slave was given up, with what came of its boots.
pub fn given_up<'a>(tried: &Tried, network: &'a Network, id: NodeId) -> GivenUp<'a>
    ensures slave { (result.network.now ≡ network.entry.now) × (result.id ≡ id) }
    ensures boots { (past : Past) → Tries tried.now past
        → (result.attempts ≡ attempts_in past id) × (result.status ≡ status_in past id) }
{
    GivenUp {
        network,
        id,
        attempts: tried.attempts(id),
        status: tried.status(id),
    }
}

/// Writes a line.
pub fn say<E: Write, D: Display>(err: &mut E, what: &D) -> io::Result<()>
    ensures { OnOk result (IfSome (with_newline (D.output what.now))
        (Appends (E.contents err.old) (E.contents err.new))) }
{
    writeln!(err, "{what}")
}

/// Writes a line, if it is to be told.
pub fn say_if<E: Write, D: Display>(err: &mut E, is_said: bool, what: &D) -> io::Result<()>
    ensures { OnOk result (IfSome (D.output what.now) (λ text.
        Appends (E.contents err.old) (E.contents err.new) (line_if is_said text))) }
{
    if is_said { say(err, what) } else { Ok(()) }
}

/// Tells that a slave is back, if there is one.
fn say_back<E: Write>(err: &mut E, back: Option<NodeId>) -> io::Result<()>
    ensures { OnOk result (Appends (E.contents err.old) (E.contents err.new) (line_of back_words back)) }
{
    match back {
        Some(id) => say(err, &Back::new(id)),
        None => Ok(()),
    }
}

/// Tells that a slave isn't watched, if there is one.
fn say_unwatched<E: Write>(err: &mut E, unwatched: Option<NodeId>) -> io::Result<()>
    ensures { OnOk result (Appends (E.contents err.old) (E.contents err.new) (line_of unwatched_words unwatched)) }
{
    match unwatched {
        Some(id) => say(err, &Unwatched::new(id)),
        None => Ok(()),
    }
}

/// Tells which slaves were started with all nodes though they aren't booted, if there are any.
fn say_too<E: Write>(err: &mut E, too: &Nodes) -> io::Result<()>
    ensures { OnOk result (Appends (E.contents err.old) (E.contents err.new) (too_line too.now.0.items)) }
{
    say_if(err, !(too.0.len() == 0), &StartedToo(too))
}

/// Tells an entry in words, and behind it that the journal is nearly full, if it then is. Behind a failed write nothing more
/// is told of it.
pub fn tell_entry<E: Write>(err: &mut E, words: &EntryWords<'_>) -> io::Result<()>
    ensures { OnOk result (Appends (E.contents err.old) (E.contents err.new) (entry_lines words.now)) }
{
    say_if(err, has_words(words.entry), words)?;
    let left = NearlyFull(ENTRIES_LEFT);
    say_if(err, words.place == NEARLY_FULL, &left)
}

/// Tells which slaves an entry started too though they aren't booted, and what became of the network and of slaves with it. Behind a failed write nothing more is told of it.
pub fn tell_told<E: Write>(
    err: &mut E,
    too: &Nodes,
    running: &Option<Nodes>,
    entry: &Entry,
    told: &Told,
) -> io::Result<()>
    ensures { OnOk result (Appends (E.contents err.old) (E.contents err.new)
        (told_lines told.now entry.now too.now.0.items (option_map (λ n. n.0.items) running.now))) }
{
    say_too(err, too)?;
    say_if(err, told.is_stopped, &StoppedBy(entry))?;
    say_if(err, told.is_halted, &Halted { by: entry, running })?;
    say_if(err, told.is_ready, &"network ready")?;
    say_back(err, told.back)?;
    say_unwatched(err, told.unwatched)
}
