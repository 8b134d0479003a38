//! Numbers, pairs of words and lists of node-IDs that stand in the words of a command line.

ghost use Rattle.std.specs.Prelude.{◌≡◌, ◌==◌, ◌≤◌, ◌||◌, ℕ, IfNone, IfSome, MatchOption, None, Some, false, true};
ghost use Rattle.cm_nmt.specs.NodeId.{IsNodeId};
ghost use Rattle.cm_history.specs.NodeSets.{has};
ghost use Rattle.cm_typed.specs.NodeLists.{covers, digit_more, index_in, is_node_list, lists, node_in, number_in, pair_in};
ghost use Rattle.cm_typed.specs.NodeLists.{range_in, value_in};

use cm_history::NodeSet;
use cm_nmt::NodeId;
use cm_text::Fields;

/// The nodes from the first to the last.
#[derive(Clone, Copy)]
struct NodeRange {
    first: NodeId,
    last: NodeId,
}

/// The two parts of a text between which the separator stands; `None` exactly where it stands in it not once, or more than once (own).
pub fn pair_in(text: &[u8], separator: u8) -> Option<(&[u8], &[u8])>
    ensures { MatchOption result (pair_in separator text.now ≡ None)
        (λ p. pair_in separator text.now ≡ Some (p.0.now, p.1.now)) }
{
    let mut parts = Fields::new(text, separator);
    let first = parts.next_field()?;
    let second = parts.next_field()?;
    if parts.is_done() {
        Some((first, second))
    } else {
        None
    }
}

/// The number with one digit more behind it, in this base.
fn digit_more(base: u32, number: u32, digit: u8) -> Option<u32>
    requires { (2 ≤ base) × (base ≤ 16) }
    ensures { result ≡ digit_more base number digit }
{
    let digit = char::from(digit).to_digit(base)?;
    number.checked_mul(base)?.checked_add(digit)
}

/// The number of 32 bits that one digit or more are in this base.
fn number_in(base: u32, digits: &[u8]) -> Option<u32>
    requires { (2 ≤ base) × (base ≤ 16) }
    ensures { result ≡ number_in base digits.now }
{
    if digits.is_empty() {
        return None;
    }
    let mut number = 0;
    for digit in digits {
        number = digit_more(base, number, *digit)?;
    }
    Some(number)
}

/// The node-ID that a word spells in decimal, 1 to 127 (CiA 301); zeros may stand in front. `None` exactly where it spells none.
pub fn node_in(word: &[u8]) -> Option<NodeId>
    ensures { result ≡ node_in word.now }
{
    let number = number_in(10, word)?;
    NodeId::new(u8::try_from(number).ok()?)
}

/// The value of 32 bits that a word spells, in hexadecimal behind `0x` and else in decimal; `None` exactly where it spells none (own).
pub fn value_in(word: &[u8]) -> Option<u32>
    ensures { result ≡ value_in word.now }
{
    match word {
        [b'0', b'x', digits @ ..] => number_in(16, digits),
        _ => number_in(10, word),
    }
}

/// The index of an object (CiA 301) that a word spells in four hexadecimal digits; `None` exactly where it spells none.
pub fn index_in(word: &[u8]) -> Option<u16>
    ensures { result ≡ index_in word.now }
{
    if word.len() != 4 {
        return None;
    }
    u16::try_from(number_in(16, word)?).ok()
}

/// The nodes of one part of a list: one, or all from one to another.
fn range_in(part: &[u8]) -> Option<NodeRange>
    ensures value { result ≡ range_in part.now }
    ensures order { IfSome result (λ r. r.first ≤ r.last) }
{
    let mut ends = Fields::new(part, b'-');
    let first = node_in(ends.next_field()?)?;
    let Some(last) = ends.next_field() else {
        return Some(NodeRange { first, last: first });
    };
    let last = node_in(last)?;
    if ends.is_done() && first.get() <= last.get() {
        Some(NodeRange { first, last })
    } else {
        None
    }
}

/// Puts the node of this number into a set.
fn insert_number(set: &mut NodeSet, number: u8)
    requires { IsNodeId number }
    ensures { (i : ℕ) → has set.new i ≡ (number == i || has set.old i) }
{
    if let Some(id) = NodeId::new(number) {
        set.insert(id);
    }
}

/// Puts the nodes of a range into a set.
fn insert_range(set: &mut NodeSet, range: &NodeRange)
    requires { range.now.first ≤ range.now.last }
    ensures { (i : ℕ) → has set.new i ≡ (covers range.now i || has set.old i) }
{
    let first = range.first.get();
    let last = range.last.get();
    for number in first..last + 1 {
        insert_number(set, number);
    }
}

/// The nodes of a set, and those of a list: node-IDs in decimal, and ranges of them, as `3` or `2,5-9`. `None` exactly where the text
/// is no such list (own).
pub fn with_nodes(nodes: NodeSet, text: &[u8]) -> Option<NodeSet>
    ensures none { IfNone result (is_node_list text.now ≡ false) }
    ensures list { IfSome result (λ _. is_node_list text.now ≡ true) }
    ensures nodes { IfSome result (λ set. (i : ℕ) → has set i ≡ (has nodes i || lists text.now i)) }
{
    let mut all = nodes;
    let mut parts = Fields::new(text, b',');
    while let Some(part) = parts.next_field() {
        let range = range_in(part)?;
        insert_range(&mut all, &range);
    }
    Some(all)
}

/// The nodes of a list: node-IDs in decimal, and ranges of them, as `3` or `2,5-9`. `None` exactly where the text is no such list (own).
pub fn node_list(text: &[u8]) -> Option<NodeSet>
    ensures none { IfNone result (is_node_list text.now ≡ false) }
    ensures list { IfSome result (λ _. is_node_list text.now ≡ true) }
    ensures nodes { IfSome result (λ set. (i : ℕ) → has set i ≡ lists text.now i) }
{
    with_nodes(NodeSet::empty(), text)
}
