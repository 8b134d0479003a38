//! Marks: what stands beside the spans.

ghost use Rattle.std.specs.Prelude.{◌≡◌, ◌++◌, OnOk, codes, decimal, flat_map};
ghost use Rattle.std.specs.Io.KnownBytes.{Appends};
ghost use Rattle.canboot_picture.specs.Marks.{beside, beside_head, class_words, command_words, entry_text, label_of, legend_words, letter_words, mark_head, mark_text, mark_title, node_text, outcome_text, outcome_words, sample_words, state_class, subject_text, subject_words};
ghost use Rattle.canboot_picture.specs.Xml.{escaped};

use crate::spans::state_words;
use crate::xml::put_escaped;
use cm_nmt::{Command, Status};
use std::io::{self, Write};

/// What a mark says.
#[derive(Clone, Copy)]
pub enum MarkKind {
    /// A boot, from its begin to its report.
    Boot(Status),
    /// A begin behind which no report came.
    Unreported,
    Held,
    Released,
    Lost,
    /// A frame to one node.
    Ordered(Command),
    /// A frame to all nodes.
    OrderedAll(Command),
    Halted,
    Ready,
    /// A place in the history.
    Place,
    /// How a state is drawn.
    Sample(u8),
}

/// What stands beside a mark.
#[derive(Clone, Copy)]
pub enum Label {
    Nothing,
    /// The letter of the status.
    Letter,
    /// What the mark says.
    Subject,
    /// What such marks are.
    Legend,
    /// The number of the entry.
    Number,
}

/// A mark. Places and sizes are in pixels, from the left and from the top.
#[derive(Clone, Copy)]
pub struct Mark {
    pub kind: MarkKind,
    /// Its entry, counted from 1; 0: none.
    pub entry: u32,
    /// Its node; 0: none.
    pub node: u8,
    pub x: u32,
    pub y: u32,
    pub width: u32,
    pub height: u32,
    pub label: Label,
    /// Where the text beside it stands.
    pub text_x: u32,
    pub text_y: u32,
}

/// The class of a state.
fn state_class(state: u8) -> &'static str
    ensures { result.now ≡ state_class state }
{
    match state {
        0 => "s0",
        1 => "s1",
        4 => "s4",
        5 => "s5",
        _ => "s127",
    }
}

/// The class of a mark.
fn class_words(kind: &MarkKind) -> &'static str
    ensures { result.now ≡ class_words kind.now }
{
    match kind {
        MarkKind::Boot(status) => { if status.is_good() { "booted" } else { "failed" } }
        MarkKind::Unreported => "open",
        MarkKind::Held => "held",
        MarkKind::Released => "released",
        MarkKind::Lost => "lost",
        MarkKind::Ordered(_) => "frame",
        MarkKind::OrderedAll(_) => "all",
        MarkKind::Halted => "halted",
        MarkKind::Ready => "ready",
        MarkKind::Place => "place",
        MarkKind::Sample(state) => state_class(*state),
    }
}

/// What a command does.
fn command_words(command: Command) -> &'static str
    ensures { result.now ≡ command_words command }
{
    match command {
        Command::Start => ": start",
        Command::Stop => ": stop",
        Command::EnterPre => ": enter pre-operational",
        Command::ResetNode => ": reset node",
        Command::ResetComm => ": reset communication",
    }
}

/// What was called or sent.
fn subject_words(kind: &MarkKind) -> &'static str
    ensures { result.now ≡ subject_words kind.now }
{
    match kind {
        MarkKind::Boot(_) => "report of node",
        MarkKind::Unreported => "begin of node",
        MarkKind::Held => "hold of node",
        MarkKind::Released => "release of node",
        MarkKind::Lost => "loss of node",
        MarkKind::Ordered(_) => "frame to node",
        MarkKind::OrderedAll(_) => "frame to all nodes",
        MarkKind::Halted => "network halted",
        MarkKind::Ready => "network ready",
        MarkKind::Place => "a column begins",
        MarkKind::Sample(state) => state_words(*state),
    }
}

/// A state in the legend: its letter, and what it is.
fn sample_words(state: u8) -> &'static str
    ensures { result.now ≡ sample_words state }
{
    match state {
        0 => "? unknown",
        1 => "M missing",
        4 => "S stopped",
        5 => "O operational",
        _ => "P pre-operational",
    }
}

/// What a mark is, in the legend.
fn legend_words(kind: &MarkKind) -> &'static str
    ensures { result.now ≡ legend_words kind.now }
{
    match kind {
        MarkKind::Boot(status) => {
            if status.is_good() {
                "boot to Ok or L"
            } else {
                "boot to another status"
            }
        }
        MarkKind::Unreported => "begin without report",
        MarkKind::Held => "hold",
        MarkKind::Released => "release",
        MarkKind::Lost => "loss",
        MarkKind::Ordered(_) => "frame to the node",
        MarkKind::OrderedAll(_) => "frame to all nodes",
        MarkKind::Halted => "network halted",
        MarkKind::Ready => "network ready",
        MarkKind::Place => "entry",
        MarkKind::Sample(state) => sample_words(*state),
    }
}

/// What came of it.
fn outcome_words(kind: &MarkKind) -> &'static str
    ensures { result.now ≡ outcome_words kind.now }
{
    match kind {
        MarkKind::Boot(_) => ": status ",
        MarkKind::Unreported => ": no report",
        MarkKind::Ordered(command) => command_words(*command),
        MarkKind::OrderedAll(command) => command_words(*command),
        _ => "",
    }
}

/// The letter of a boot's status.
fn letter_words(kind: &MarkKind) -> &'static str
    ensures { result.now ≡ letter_words kind.now }
{
    match kind {
        MarkKind::Boot(status) => status.letter(),
        _ => "",
    }
}

/// Writes the element of a mark up to its content.
fn put_head<W: Write>(
    class: &str,
    x: u32,
    y: u32,
    width: u32,
    height: u32,
    out: &mut W,
) -> io::Result<()>
    ensures { OnOk result (Appends (W.contents out.old) (W.contents out.new) (mark_head class.now x y width height)) }
{
    write!(
        out,
        "<rect class=\"{class}\" x=\"{x}\" y=\"{y}\" width=\"{width}\" height=\"{height}\">"
    )
}

/// Writes the entry of a mark, if it has one.
fn put_entry<W: Write>(entry: u32, out: &mut W) -> io::Result<()>
    ensures { OnOk result (Appends (W.contents out.old) (W.contents out.new) (entry_text entry)) }
{
    if entry == 0 {
        return Ok(());
    }
    write!(out, "entry {entry}: ")
}

/// Writes the node of a mark, if it has one.
fn put_node<W: Write>(node: u8, out: &mut W) -> io::Result<()>
    ensures { OnOk result (Appends (W.contents out.old) (W.contents out.new) (node_text node)) }
{
    if node == 0 {
        return Ok(());
    }
    write!(out, " {node}")
}

/// Writes entry, call and node of a mark.
fn put_subject<W: Write>(mark: &Mark, out: &mut W) -> io::Result<()>
    ensures { OnOk result (Appends (W.contents out.old) (W.contents out.new) (subject_text mark.now)) }
{
    put_entry(mark.entry, out)?;
    put_escaped(subject_words(&mark.kind), out)?;
    put_node(mark.node, out)
}

/// Writes what came of a mark's call.
fn put_outcome<W: Write>(kind: &MarkKind, out: &mut W) -> io::Result<()>
    ensures { OnOk result (Appends (W.contents out.old) (W.contents out.new) (outcome_text kind.now)) }
{
    put_escaped(outcome_words(kind), out)?;
    put_escaped(letter_words(kind), out)
}

/// Writes the title of a mark, and the end of its element.
fn put_title<W: Write>(mark: &Mark, out: &mut W) -> io::Result<()>
    ensures { OnOk result (Appends (W.contents out.old) (W.contents out.new) (mark_title mark.now)) }
{
    out.write_all(b"<title>")?;
    put_subject(mark, out)?;
    put_outcome(&mark.kind, out)?;
    out.write_all(b"</title></rect>\n")
}

/// Writes where a text beside a mark stands.
fn put_beside_head<W: Write>(x: u32, y: u32, out: &mut W) -> io::Result<()>
    ensures { OnOk result (Appends (W.contents out.old) (W.contents out.new) (beside_head x y)) }
{
    write!(out, "<text class=\"m\" x=\"{x}\" y=\"{y}\">")
}

/// Writes a text beside a mark.
fn put_beside<W: Write>(x: u32, y: u32, text: &str, out: &mut W) -> io::Result<()>
    ensures { OnOk result (Appends (W.contents out.old) (W.contents out.new) (beside x y (escaped text.now))) }
{
    put_beside_head(x, y, out)?;
    put_escaped(text, out)?;
    out.write_all(b"</text>\n")
}

/// Writes a number, and the end of the text.
fn put_last_number<W: Write>(number: u32, out: &mut W) -> io::Result<()>
    ensures { OnOk result (Appends (W.contents out.old) (W.contents out.new) (decimal number ++ codes "</text>\n")) }
{
    writeln!(out, "{number}</text>")
}

/// Writes a number beside a mark.
fn put_number<W: Write>(x: u32, y: u32, number: u32, out: &mut W) -> io::Result<()>
    ensures { OnOk result (Appends (W.contents out.old) (W.contents out.new) (beside x y (decimal number))) }
{
    put_beside_head(x, y, out)?;
    put_last_number(number, out)
}

/// Writes what stands beside a mark.
fn put_label<W: Write>(mark: &Mark, out: &mut W) -> io::Result<()>
    ensures { OnOk result (Appends (W.contents out.old) (W.contents out.new) (label_of mark.now mark.now.label)) }
{
    match &mark.label {
        Label::Nothing => Ok(()),
        Label::Letter => put_beside(mark.text_x, mark.text_y, letter_words(&mark.kind), out),
        Label::Subject => put_beside(mark.text_x, mark.text_y, subject_words(&mark.kind), out),
        Label::Legend => put_beside(mark.text_x, mark.text_y, legend_words(&mark.kind), out),
        Label::Number => put_number(mark.text_x, mark.text_y, mark.entry, out),
    }
}

/// Writes a mark.
fn put_mark<W: Write>(mark: &Mark, out: &mut W) -> io::Result<()>
    ensures { OnOk result (Appends (W.contents out.old) (W.contents out.new) (mark_text mark.now)) }
{
    put_head(
        class_words(&mark.kind),
        mark.x,
        mark.y,
        mark.width,
        mark.height,
        out,
    )?;
    put_title(mark, out)?;
    put_label(mark, out)
}

/// Writes marks.
pub(crate) fn put_marks<W: Write>(marks: &[Mark], out: &mut W) -> io::Result<()>
    ensures { OnOk result (Appends (W.contents out.old) (W.contents out.new) (flat_map mark_text marks.now)) }
{
    for mark in marks {
        put_mark(mark, out)?;
    }
    Ok(())
}
