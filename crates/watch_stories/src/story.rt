//! Stories of a watch. A story is a journal, and behind it when what of it happened.

ghost use Rattle.std.specs.Prelude.{◌<◌, ◌^◌};

use cm_can::{BusState, Emergency, Remark, read_error, read_frame, read_remark};
use cm_history::Entry;
use cm_journal::{Journal, journal_read};
use cm_nmt::{Frame, NodeId};
use cm_sequential::frames;
use cm_telling::{ErrorNotice, Notice, Notices};
use cm_watch::{Told, Watch};
use cm_watched::{Happening, Settings, Step};
use std::alloc::Global;
use std::io::{self, ErrorKind, Write};
use std::str;

/// The greatest time of a story, in ms: a watch is told none from 2 to the 63rd on.
const LATEST: u64 = 1 << 63;

/// A story as far as it was told.
#[derive(Drop)]
struct Story<'a> {
    watch: Watch,
    notices: Notices,
    journal: &'a Journal,
    /// How many entries were told.
    told: usize,
}

/// What a line of a story says.
#[derive(Clone, Copy)]
enum Line {
    Happened(Happening),
    /// The bus says this; a frame that says nothing of its kind is told to nobody.
    Said(Option<Remark>),
    Turn,
    /// So many turns as each limit of what is told is looked at in.
    Round,
}

/// How many turns a round has.
const TURNS: u8 = 129;

/// What a frame says, or an error frame.
fn read_said(text: &[u8]) -> Option<Remark> {
    match read_frame(text) {
        Some(frame) => read_remark(&frame),
        None => Some(Remark::Error(read_error(text)?)),
    }
}

/// The journal of a story, to the end of its `end` line, and the lines behind it.
fn split_story(bytes: &[u8]) -> Option<(&[u8], &str)> {
    let mut from: usize = 0;
    for line in bytes.split(|byte| *byte == b'\n') {
        from = from.checked_add(line.len())?.checked_add(1)?;
        if line.starts_with(b"end ") {
            let (journal, rest) = bytes.split_at_checked(from)?;
            return Some((journal, str::from_utf8(rest).ok()?));
        }
    }
    None
}

/// A node, in decimal.
fn story_node(field: Option<&str>) -> Option<NodeId> {
    NodeId::new(field?.parse::<u8>().ok()?)
}

impl<'a> Story<'a> {
    /// The next entry of the journal.
    fn next_entry(&mut self) -> Option<Entry> {
        let entry = self.journal.entries.as_slice().get(self.told)?;
        self.told = self.told.saturating_add(1);
        Some(*entry)
    }

    /// What a line says behind its time.
    fn read_line(&mut self, word: &str, first: Option<&str>, second: Option<&str>) -> Option<Line> {
        match word {
            "turn" => Some(Line::Turn),
            "round" => Some(Line::Round),
            "said" => Some(Line::Said(read_said(first?.as_bytes()))),
            "doubled" => Some(Line::Said(Some(Remark::Doubled(story_node(first)?)))),
            "entry" => Some(Line::Happened(Happening::Called(self.next_entry()?))),
            "ended" => Some(Line::Happened(Happening::Ended(story_node(first)?))),
            "asked" => Some(Line::Happened(Happening::Asked(story_node(first)?))),
            "ends" => Some(Line::Happened(Happening::Ends(first?.parse::<u64>().ok()?))),
            "heard" => {
                let byte = u8::from_str_radix(second?, 16).ok()?;
                Some(Line::Happened(Happening::Heard(story_node(first)?, byte)))
            }
            _ => None,
        }
    }

    /// This happened: it is told to the watch, an error control message where it counts.
    fn happen<W: Write>(
        &mut self,
        now_ms: u64,
        happening: &Happening,
        out: &mut W,
    ) -> io::Result<()>
        requires { now_ms < 2 ^ 63 }
    {
        let network = &self.journal.network;
        match happening {
            Happening::Heard(id, byte) => {
                self.watch.hear(network, now_ms, *id, *byte);
                Ok(())
            }
            _ => {
                if let Happening::Called(entry) = happening {
                    let sent = frames(network, entry.orders);
                    self.notices.send(sent.as_slice());
                }
                let told = self.watch.take(network, now_ms, happening);
                put_told(now_ms, told, out)
            }
        }
    }

    /// The bus says this.
    fn hear<W: Write>(&mut self, now_ms: u64, remark: &Remark, out: &mut W) -> io::Result<()> {
        match self.notices.hear(&self.journal.network, now_ms, remark) {
            Some(notice) => put_notice(now_ms, &notice, out),
            None => Ok(()),
        }
    }

    /// The manager's own boot-up message is counted as sent.
    fn count_beat(&mut self, step: Step) {
        if let Step::Beat(0) = step {
            self.notices.boot_up();
        }
    }

    /// What was left out by now is told, where it is to be.
    fn count_left_out<W: Write>(&mut self, now_ms: u64, out: &mut W) -> io::Result<()> {
        for _turn in 0..TURNS {
            if let Some(notice) = self.notices.turn(now_ms) {
                put_notice(now_ms, &notice, out)?;
            }
        }
        Ok(())
    }

    /// Tells the watch a line; of a turn the steps are written.
    fn tell<W: Write>(&mut self, alloc: Global, line: &str, out: &mut W) -> io::Result<bool> {
        let mut fields = line.split(' ');
        let now_ms = fields.next().and_then(|field| field.parse::<u64>().ok());
        let word = fields.next().unwrap_or("");
        let (first, second) = (fields.next(), fields.next());
        let Some(now_ms) = now_ms.filter(|ms| *ms < LATEST) else {
            return Ok(false);
        };
        let network = &self.journal.network;
        match self.read_line(word, first, second) {
            Some(Line::Happened(happening)) => self.happen(now_ms, &happening, out)?,
            Some(Line::Said(Some(remark))) => self.hear(now_ms, &remark, out)?,
            Some(Line::Said(None)) => {}
            Some(Line::Round) => self.count_left_out(now_ms, out)?,
            Some(Line::Turn) => {
                for step in &self.watch.error_control(alloc, network, now_ms)? {
                    self.count_beat(*step);
                    put_step(now_ms, *step, out)?;
                }
                for step in &self.watch.turn(alloc, network, now_ms)? {
                    put_step(now_ms, *step, out)?;
                }
            }
            None => return Ok(false),
        }
        Ok(true)
    }
}

/// Writes a step, in words.
fn put_step<W: Write>(now_ms: u64, step: Step, out: &mut W) -> io::Result<()> {
    match step {
        Step::Lost(id) => writeln!(out, "{now_ms} lost {}", id.get()),
        Step::Boot(id) => writeln!(out, "{now_ms} boot {}", id.get()),
        Step::Wake(id) => writeln!(out, "{now_ms} wake {}", id.get()),
        Step::LeftOut(id, count) => writeln!(out, "{now_ms} left-out {} {count}", id.get()),
        Step::Signal(id, byte) => writeln!(out, "{now_ms} signal {} {byte:02X}", id.get()),
        Step::TimeOver(ms) => writeln!(out, "{now_ms} time-over {ms}"),
        Step::AllTried(ms) => writeln!(out, "{now_ms} all-tried {ms}"),
        Step::Beat(byte) => writeln!(out, "{now_ms} beat {byte:02X}"),
        Step::Guard(id) => writeln!(out, "{now_ms} guard {}", id.get()),
        Step::End => writeln!(out, "{now_ms} end"),
    }
}

/// The word of a state of the controller.
fn state_word(state: BusState) -> &'static str {
    match state {
        BusState::Active => "active",
        BusState::Warning => "warning",
        BusState::Passive => "passive",
        BusState::Off => "off",
        BusState::Restarted => "restarted",
    }
}

/// Writes what is told of an error of the bus.
fn put_error<W: Write>(now_ms: u64, error: ErrorNotice, out: &mut W) -> io::Result<()> {
    match error {
        ErrorNotice::Unacknowledged => writeln!(out, "{now_ms} unacknowledged"),
        ErrorNotice::State(state) => writeln!(out, "{now_ms} bus {}", state_word(state)),
    }
}

/// Writes how many changes of the bus were left out, and the state of its controller, where there is one.
fn put_bus_left_out<W: Write>(
    now_ms: u64,
    count: u32,
    state: Option<BusState>,
    out: &mut W,
) -> io::Result<()> {
    match state {
        Some(state) => writeln!(out, "{now_ms} bus-left-out {count} {}", state_word(state)),
        None => writeln!(out, "{now_ms} bus-left-out {count}"),
    }
}

/// Writes an emergency message, in words.
fn put_emergency<W: Write>(
    now_ms: u64,
    id: NodeId,
    emergency: &Emergency,
    out: &mut W,
) -> io::Result<()> {
    let (id, code, register) = (id.get(), emergency.code, emergency.register);
    writeln!(out, "{now_ms} emergency {id} {code:04X} {register:02X}")
}

/// Writes a message of another master.
fn put_message<W: Write>(now_ms: u64, message: Frame, out: &mut W) -> io::Result<()> {
    let [specifier, node] = message.bytes();
    writeln!(out, "{now_ms} master {specifier:02X} {node:02X}")
}

/// Writes what is told of what the bus says, in words.
fn put_notice<W: Write>(now_ms: u64, notice: &Notice, out: &mut W) -> io::Result<()> {
    match notice {
        Notice::Emergency(id, emergency) => put_emergency(now_ms, *id, emergency, out),
        Notice::EmergenciesLeftOut(id, count) => {
            writeln!(out, "{now_ms} emergencies-left-out {} {count}", id.get())
        }
        Notice::Master(message) => put_message(now_ms, *message, out),
        Notice::MastersLeftOut(count) => writeln!(out, "{now_ms} masters-left-out {count}"),
        Notice::Unlisted(id) => writeln!(out, "{now_ms} unlisted {}", id.get()),
        Notice::OwnNodeId(id) => writeln!(out, "{now_ms} own-node-id {}", id.get()),
        Notice::Bus(error) => put_error(now_ms, *error, out),
        Notice::BusLeftOut(count, state) => put_bus_left_out(now_ms, *count, *state, out),
        Notice::Doubled(id) => writeln!(out, "{now_ms} doubled {}", id.get()),
    }
}

/// Writes a word and a node, where there is one.
fn put_node<W: Write>(
    now_ms: u64,
    word: &str,
    node: Option<NodeId>,
    out: &mut W,
) -> io::Result<()> {
    match node {
        Some(id) => writeln!(out, "{now_ms} {word} {}", id.get()),
        None => Ok(()),
    }
}

/// Writes what an operator is told, in words.
fn put_told<W: Write>(now_ms: u64, told: Told, out: &mut W) -> io::Result<()> {
    let states = [
        (told.is_ready, "ready"),
        (told.is_halted, "halted"),
        (told.is_stopped, "stopped"),
    ];
    for (is, word) in states {
        if is {
            writeln!(out, "{now_ms} {word}")?;
        }
    }
    put_node(now_ms, "back", told.back, out)?;
    put_node(now_ms, "unwatched", told.unwatched, out)?;
    put_node(now_ms, "given-up", told.given_up, out)
}

/// What the first line behind a journal says: `settle MS`, and `heartbeat MS` behind it where the manager sends its own.
fn read_settings(line: &str) -> Option<Settings> {
    let mut fields = line.strip_prefix("settle ")?.split(' ');
    let settle_ms = fields.next()?.parse::<u32>().ok()?;
    let heartbeat_ms = match fields.next() {
        Some("heartbeat") => fields.next()?.parse::<u16>().ok()?,
        Some(_) => return None,
        None => 0,
    };
    Some(Settings {
        settle_ms,
        heartbeat_ms,
    })
}

/// Tells the story of these bytes; what is told of it and the steps of its turns are written. The first
/// line behind the journal has the settings. `false` where something isn't as it has to be.
pub fn tell_story<W: Write>(alloc: Global, bytes: &[u8], out: &mut W) -> io::Result<bool> {
    let Some((journal, rest)) = split_story(bytes) else {
        return Ok(false);
    };
    let Ok(journal) = journal_read(alloc, journal) else {
        return Err(io::Error::from(ErrorKind::InvalidData));
    };
    let mut lines = rest.lines();
    let Some(settings) = lines.next().and_then(read_settings) else {
        return Ok(false);
    };
    let mut story = Story {
        watch: Watch::new(settings),
        notices: Notices::new(),
        journal: &journal,
        told: 0,
    };
    for line in lines {
        if !story.tell(alloc, line, out)? {
            return Ok(false);
        }
    }
    Ok(story.told == journal.entries.len())
}
