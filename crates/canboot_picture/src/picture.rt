//! A picture, made and written.

ghost use Rattle.std.specs.Prelude.{◌≡◌, ◌*◌, ◌<◌, ◌≤◌, ◌^◌, List, IfOk, OnOk, length, reverse};
ghost use Rattle.std.specs.Io.KnownBytes.{Appends};
ghost use Rattle.cm_history.specs.Legal.{IsLegal, most_entries};
ghost use Rattle.cm_history.specs.declared.call.Entry.{Entry as AnEntry};
ghost use Rattle.cm_netlist.specs.Network.{listed_ids, listing};
ghost use Rattle.canboot_picture.specs.Columns.{AreColumns};
ghost use Rattle.canboot_picture.specs.Drawn.{IsPictureOf};
ghost use Rattle.canboot_picture.specs.Pictures.{WritesPicture, head_text, heading_text, style_text, tail_text};
ghost use Rattle.canboot_picture.specs.Spans.{height_of, width_of};

use crate::columns::columns_of;
use crate::drawn::Picture;
use crate::mark::put_marks;
use crate::marks::marks_of;
use crate::scale::{Scale, product};
use crate::spans::put_lanes;
use cm_history::Entry;
use cm_netlist::Network;
use cm_nmt::NodeId;
use cm_sequential::Manager;
use std::alloc::{AllocError, Global};
use std::io::{self, Write};

/// The greatest length of the text, in bytes, by an estimate that is too high.
const LONGEST: usize = 1_900_000;

/// How many spans a node has, and one more.
fn count_spans(managers: &[Manager], id: NodeId) -> usize {
    let mut count: usize = 1;
    let mut state: u8 = 255;
    for manager in managers {
        let shown = manager.shown(id);
        if shown != state {
            count = count.saturating_add(1);
        }
        state = shown;
    }
    count
}

/// Whether the text is short enough.
fn fits(picture: &Picture, network: &Network) -> bool {
    let mut spans = count_spans(picture.managers.as_slice(), network.own_id());
    for id in network.listed_ids().as_slice() {
        spans = spans.saturating_add(count_spans(picture.managers.as_slice(), *id));
    }
    let length = spans
        .saturating_mul(190)
        .saturating_add(picture.marks.len().saturating_mul(200));
    length <= LONGEST
}

/// How wide a column is, in pixels, where there are so many.
fn pitch_of(columns: u32) -> u32
    ensures seen { 1 ≤ result }
    ensures narrow { result ≤ 40 }
{
    match 1000u32.checked_div(columns) {
        Some(pitch) => pitch.clamp(1, 40),
        None => 40,
    }
}

/// The picture with so many columns at most.
fn picture_with(
    alloc: Global,
    network: &Network,
    entries: &[Entry],
    most: u32,
) -> Result<Picture, AllocError>
    requires some { 0 < most }
    requires few { length entries.now ≤ most_entries }
    requires legal { IsLegal (listing network.now) (reverse entries.now) }
    ensures { IfOk result (λ p. IsPictureOf p network.now entries.now) }
{
    let count = entries.len() as u32;
    let width = count / most + 1;
    let managers = columns_of(alloc, network, entries, width as usize)?;
    let scale = Scale {
        width,
        pitch: pitch_of(managers.len() as u32),
        entries: count,
    };
    let marks = marks_of(alloc, network, entries, scale, managers.as_slice())?;
    Ok(Picture {
        scale,
        managers,
        marks,
    })
}

/// The picture of a legal history, whose entries are given with the oldest first, and its marks. It fails only where memory
/// is refused.
pub fn picture_of(
    alloc: Global,
    network: &Network,
    entries: &[Entry],
) -> Result<Picture, AllocError>
    requires few { length entries.now ≤ most_entries }
    requires legal { IsLegal (listing network.now) (reverse entries.now) }
    ensures { IfOk result (λ p. IsPictureOf p network.now entries.now) }
{
    for most in [1000u32, 500, 250, 120, 60, 30] {
        let picture = picture_with(alloc, network, entries, most)?;
        if fits(&picture, network) {
            return Ok(picture);
        }
    }
    picture_with(alloc, network, entries, 10)
}

/// How wide the document of so many columns is, in pixels: so wide that each of them lies in it.
fn width_of(scale: &Scale, columns: u32) -> u64
    ensures { result ≡ width_of scale.now columns }
{
    (product(columns, scale.pitch) + 190).max(900)
}

/// How high the document is, in pixels: so high that each lane lies in it, the manager's and those of the listed slaves.
fn height_of(network: &Network) -> u64
    ensures { result ≡ height_of (length (listed_ids network.now)) }
{
    network.listed_ids().len() as u64 * 30 + 180
}

/// Writes what stands before the content of the document.
fn put_head<W: Write>(width: u64, height: u64, out: &mut W) -> io::Result<()>
    ensures { OnOk result (Appends (W.contents out.old) (W.contents out.new) (head_text width height)) }
{
    writeln!(
        out,
        "<?xml version=\"1.0\" encoding=\"UTF-8\"?>\n\
<svg xmlns=\"http://www.w3.org/2000/svg\" version=\"1.1\" width=\"{width}\" height=\"{height}\" viewBox=\"0 0 {width} {height}\">"
    )
}

/// Writes the colours and the letters.
fn put_style<W: Write>(out: &mut W) -> io::Result<()>
    ensures { OnOk result (Appends (W.contents out.old) (W.contents out.new) style_text) }
{
    out.write_all(
        b"<style type=\"text/css\">\n\
rect{fill:#bbbbbb}text{font-family:sans-serif;font-size:11px;fill:#222222}.l{font-size:10px}.m{font-size:10px}.h{font-size:13px}\n\
.s0{fill:#dddddd}.s1{fill:#e88a8a}.s4{fill:#f2bc6b}.s5{fill:#8fce8f}.s127{fill:#9cc3ee}\n\
.booted{fill:#3cc2a0}.failed{fill:#ff6b6b}.open{fill:#b0b0b0}.held{fill:#5b2c8a}.released{fill:#b48ad8}.lost{fill:#000000}\n\
.frame{fill:#1d4f91}.all{fill:#1d4f91;fill-opacity:0.55}.halted{fill:#c01818}.ready{fill:#2a7d2a}.place{fill:#666666}\n\
</style>\n",
    )
}

/// Writes how many entries there are, and how many stand in a column.
fn put_heading<W: Write>(scale: &Scale, out: &mut W) -> io::Result<()>
    ensures { OnOk result (Appends (W.contents out.old) (W.contents out.new)
        (heading_text scale.now.entries scale.now.width)) }
{
    let (entries, width) = (scale.entries, scale.width);
    writeln!(
        out,
        "<text class=\"h\" x=\"8\" y=\"20\">history of {entries} entries, in columns of {width}</text>"
    )
}

/// Writes the picture as an SVG document: what it shows of the history of this network of which it is the picture. It fails only
/// where the writer does, and then says nothing of how much was written.
pub fn put_picture<W: Write>(picture: &Picture, network: &Network, out: &mut W) -> io::Result<()>
    ensures { (entries : List AnEntry) → IsPictureOf picture.now network.now entries
        → OnOk result (WritesPicture network.now entries (W.contents out.old) (W.contents out.new)) }
{
    let columns = picture.managers.len() as u32;
    let width = width_of(&picture.scale, columns);
    let height = height_of(network);
    put_head(width, height, out)?;
    put_style(out)?;
    put_heading(&picture.scale, out)?;
    put_lanes(&picture.scale, network, picture.managers.as_slice(), out)?;
    put_marks(picture.marks.as_slice(), out)?;
    out.write_all(b"</svg>\n")
}
