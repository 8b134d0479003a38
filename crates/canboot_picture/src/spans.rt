//! Lanes and their spans.

ghost use Rattle.std.specs.Prelude.{◌≡◌, ◌<◌, ◌≤◌, ◌^◌, ◌-◌, ◌∷◌, ℕ, List, OnOk, length};
ghost use Rattle.std.specs.Io.KnownBytes.{Appends};
ghost use Rattle.cm_history.specs.declared.call.Entry.{Entry as AnEntry};
ghost use Rattle.cm_netlist.specs.Network.{Network as AnyNetwork, listed_ids};
ghost use Rattle.canboot_picture.specs.Columns.{AreColumns, shown_at};
ghost use Rattle.canboot_picture.specs.Spans.{IsRun, WritesLane, WritesLanes, WritesSpans, label_end, label_head, label_text, lane_text, lane_words, letter_head, letter_text, span_at, span_head, span_letter, span_text, span_title, state_letter, state_words, title_end, title_head};

use crate::scale::{Scale, Span, product, top_of};
use crate::xml::put_escaped;
use cm_netlist::Network;
use cm_nmt::NodeId;
use cm_sequential::Manager;
use std::io::{self, Write};

/// A state in words.
pub(crate) fn state_words(state: u8) -> &'static str
    ensures { result.now ≡ state_words state }
{
    match state {
        0 => "unknown",
        1 => "missing",
        4 => "stopped",
        5 => "operational",
        127 => "pre-operational",
        _ => "of another state",
    }
}

/// The letter that stands for a state.
fn state_letter(state: u8) -> &'static str
    ensures { result.now ≡ state_letter state }
{
    match state {
        0 => "?",
        1 => "M",
        4 => "S",
        5 => "O",
        127 => "P",
        _ => "-",
    }
}

/// Writes the element of a span up to its content.
fn put_head<W: Write>(state: u8, x: u64, y: u64, width: u64, out: &mut W) -> io::Result<()>
    ensures { OnOk result (Appends (W.contents out.old) (W.contents out.new) (span_head state x y width)) }
{
    write!(
        out,
        "<rect class=\"s{state}\" x=\"{x}\" y=\"{y}\" width=\"{width}\" height=\"16\">"
    )
}

/// Writes the title of a span up to its state.
fn put_title_head<W: Write>(node: u8, out: &mut W) -> io::Result<()>
    ensures { OnOk result (Appends (W.contents out.old) (W.contents out.new) (title_head node)) }
{
    write!(out, "<title>node {node}: ")
}

/// Writes behind which entries a span is shown, and the end of its element.
fn put_title_end<W: Write>(from: u64, to: u64, out: &mut W) -> io::Result<()>
    ensures { OnOk result (Appends (W.contents out.old) (W.contents out.new) (title_end from to)) }
{
    writeln!(out, ", behind entries {from} to {to}</title></rect>")
}

/// Writes the title of a span, and the end of its element.
fn put_title<W: Write>(node: u8, state: u8, from: u64, to: u64, out: &mut W) -> io::Result<()>
    ensures { OnOk result (Appends (W.contents out.old) (W.contents out.new) (span_title node state from to)) }
{
    put_title_head(node, out)?;
    put_escaped(state_words(state), out)?;
    put_title_end(from, to, out)
}

/// Writes where a letter stands.
fn put_letter_head<W: Write>(x: u64, y: u64, out: &mut W) -> io::Result<()>
    ensures { OnOk result (Appends (W.contents out.old) (W.contents out.new) (letter_head x y)) }
{
    write!(out, "<text class=\"l\" x=\"{x}\" y=\"{y}\">")
}

/// Writes the letter of a state.
fn put_letter_at<W: Write>(state: u8, x: u64, y: u64, out: &mut W) -> io::Result<()>
    ensures { OnOk result (Appends (W.contents out.old) (W.contents out.new) (letter_text state x y)) }
{
    put_letter_head(x, y, out)?;
    put_escaped(state_letter(state), out)?;
    out.write_all(b"</text>\n")
}

/// Writes the letter in a span, where that is wide enough.
fn put_letter<W: Write>(state: u8, x: u64, y: u64, width: u64, out: &mut W) -> io::Result<()>
    requires left { x < 2 ^ 64 - 6 }
    requires high { y < 2 ^ 64 - 12 }
    ensures { OnOk result (Appends (W.contents out.old) (W.contents out.new) (span_letter state x y width)) }
{
    if width < 14 {
        return Ok(());
    }
    put_letter_at(state, x + 6, y + 12, out)
}

/// Where a span stands in the picture.
#[derive(Clone, Copy)]
struct SpanPlace {
    /// Its left edge.
    x: u64,
    /// Its upper edge.
    y: u64,
    width: u64,
}

/// Writes a span of the node at this place, which is shown behind the entries from the one to the other.
fn put_span_at<W: Write>(
    state: u8,
    node: u8,
    place: SpanPlace,
    entries: (u64, u64),
    out: &mut W,
) -> io::Result<()>
    requires left { place.x < 2 ^ 64 - 6 }
    requires high { place.y < 2 ^ 64 - 12 }
    ensures { OnOk result (Appends (W.contents out.old) (W.contents out.new)
        (span_at state node place.x place.y place.width entries.0 entries.1)) }
{
    let SpanPlace { x, y, width } = place;
    let (from, to) = entries;
    put_head(state, x, y, width, out)?;
    put_title(node, state, from, to, out)?;
    put_letter(state, x, y, width, out)
}

/// Writes a span of the node in this lane.
fn put_span<W: Write>(scale: &Scale, row: u32, node: u8, span: Span, out: &mut W) -> io::Result<()>
    requires { span.first < span.end }
    ensures { OnOk result (Appends (W.contents out.old) (W.contents out.new) (span_text scale.now row node span)) }
{
    let x = scale.left_of(span.first);
    let y = top_of(row);
    let width = product(span.end - span.first, scale.pitch);
    let from = product(span.first, scale.width) + 1;
    let to = product(span.end, scale.width).min(scale.entries as u64);
    let place = SpanPlace { x, y, width };
    put_span_at(span.state, node, place, (from, to), out)
}

/// The end of the columns beside each other, from this one on, in which the node is shown in one state.
fn run_end(managers: &[Manager], id: NodeId, first: usize) -> usize
    requires { first < length managers.now }
    ensures longer { first < result }
    ensures inside { result ≤ length managers.now }
    ensures run { (net : AnyNetwork) (entries : List AnEntry) (width : ℕ)
        → AreColumns net entries width managers.now
        → IsRun (shown_at net entries width id) (length managers.now) first result }
{
    let state = managers[first].shown(id);
    for column in first + 1..managers.len() {
        if managers[column].shown(id) != state {
            return column;
        }
    }
    managers.len()
}

/// Writes the spans of a node.
fn put_spans<W: Write>(
    scale: &Scale,
    row: u32,
    managers: &[Manager],
    id: NodeId,
    out: &mut W,
) -> io::Result<()>
    requires { length managers.now < 2 ^ 32 }
    ensures { (net : AnyNetwork) (entries : List AnEntry) → AreColumns net entries scale.now.width managers.now
        → OnOk result (WritesSpans net entries scale.now row id (length managers.now)
        (W.contents out.old) (W.contents out.new)) }
{
    let mut first = 0;
    while first < managers.len() {
        let end = run_end(managers, id, first);
        let span = Span {
            first: first as u32,
            end: end as u32,
            state: managers[first].shown(id),
        };
        put_span(scale, row, id.get(), span, out)?;
        first = end;
    }
    Ok(())
}

/// Who stands left of a lane.
fn lane_words(row: u32) -> &'static str
    ensures { result.now ≡ lane_words row }
{
    if row == 0 { "manager" } else { "node" }
}

/// Writes where the label of a lane stands.
fn put_label_head<W: Write>(y: u64, out: &mut W) -> io::Result<()>
    ensures { OnOk result (Appends (W.contents out.old) (W.contents out.new) (label_head y)) }
{
    write!(out, "<text class=\"n\" x=\"8\" y=\"{y}\">")
}

/// Writes the node of a label, and its end.
fn put_label_end<W: Write>(node: u8, out: &mut W) -> io::Result<()>
    ensures { OnOk result (Appends (W.contents out.old) (W.contents out.new) (label_end node)) }
{
    writeln!(out, " {node}</text>")
}

/// Writes who a lane is of, left of it.
fn put_label<W: Write>(row: u32, node: u8, out: &mut W) -> io::Result<()>
    ensures { OnOk result (Appends (W.contents out.old) (W.contents out.new) (label_text row node)) }
{
    put_label_head(top_of(row) + 12, out)?;
    put_escaped(lane_words(row), out)?;
    put_label_end(node, out)
}

/// Writes a lane.
fn put_lane<W: Write>(
    scale: &Scale,
    row: u32,
    managers: &[Manager],
    id: NodeId,
    out: &mut W,
) -> io::Result<()>
    requires { length managers.now < 2 ^ 32 }
    ensures { (net : AnyNetwork) (entries : List AnEntry) → AreColumns net entries scale.now.width managers.now
        → OnOk result (WritesLane net entries scale.now row id (length managers.now)
        (W.contents out.old) (W.contents out.new)) }
{
    put_label(row, id.get(), out)?;
    put_spans(scale, row, managers, id, out)
}

/// Writes the lanes of the manager and of each listed slave.
pub(crate) fn put_lanes<W: Write>(
    scale: &Scale,
    network: &Network,
    managers: &[Manager],
    out: &mut W,
) -> io::Result<()>
    requires { length managers.now < 2 ^ 32 }
    ensures { (entries : List AnEntry) → AreColumns network.now entries scale.now.width managers.now
        → OnOk result (WritesLanes network.now entries scale.now (network.now.own ∷ listed_ids network.now)
        (length managers.now) (W.contents out.old) (W.contents out.new)) }
{
    put_lane(scale, 0, managers, network.own_id(), out)?;
    let mut row: u32 = 0;
    for id in network.listed_ids().as_slice() {
        row += 1;
        put_lane(scale, row, managers, *id, out)?;
    }
    Ok(())
}
