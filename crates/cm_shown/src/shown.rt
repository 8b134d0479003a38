//! How the lines of a live run are shown: each with its time, on a terminal with words in colour, and with names of nodes.

ghost use Rattle.std.specs.Prelude.{◌≡◌, ◌++◌, [], ℕ, IfOk, None, OnOk, Some, option_copied};
ghost use Rattle.cm_shown.specs.Names.{name_among, name_of};
ghost use Rattle.cm_shown.specs.Shown.{IsShown, bare, before_feed, bracketed, closing_of, colour_in, colour_of, is_bad, is_denial, is_fault};
ghost use Rattle.cm_shown.specs.Shown.{is_good, is_mark, is_object, leads_on, mark_of, name_behind, opening_of};
ghost use Rattle.cm_shown.specs.Shown.{shown_line, shown_whole, shown_word};

use crate::names::{Names, node_of};
use cm_text::{Fields, is_word};
use jiff::Timestamp;
use std::alloc::{AllocError, Global};
use std::io::{self, Write};
use std::time::Clock;

/// The colour of a word on a terminal.
#[derive(Clone, Copy)]
enum Colour {
    /// What it says is bad.
    Red,
    /// What it says is good.
    Green,
}

/// Whether the word says something bad.
fn is_bad(word: &[u8]) -> bool
    ensures { result ≡ is_bad word.now }
{
    is_word(word, b"lost")
        || is_word(word, b"halted")
        || is_word(word, b"stopped")
        || is_word(word, b"refused")
        || is_word(word, b"failed")
        || is_word(word, b"emergency")
        || is_word(word, b"another")
        || is_word(word, b"passive")
        || is_word(word, b"off")
}

/// Whether the word says something good.
fn is_good(word: &[u8]) -> bool
    ensures { result ≡ is_good word.now }
{
    is_word(word, b"ready") || is_word(word, b"started")
}

/// Whether the word denies the next one.
fn is_denial(word: &[u8]) -> bool
    ensures { result ≡ is_denial word.now }
{
    is_word(word, b"isn't") || is_word(word, b"not")
}

/// The colour of a word, by the word before it.
fn colour_of(before: &[u8], word: &[u8]) -> Option<Colour>
    ensures { result ≡ colour_of before.now word.now }
{
    if is_denial(before) {
        None
    } else if is_word(before, b"status") {
        if is_word(word, b"Ok") {
            Some(Colour::Green)
        } else {
            Some(Colour::Red)
        }
    } else if is_bad(word) {
        Some(Colour::Red)
    } else if is_good(word) {
        Some(Colour::Green)
    } else {
        None
    }
}

/// Whether the byte is a mark that may stand behind a word.
fn is_mark(byte: u8) -> bool
    ensures { result ≡ is_mark byte }
{
    byte == b',' || byte == b';' || byte == b':'
}

/// The word without the mark behind it.
fn bare(word: &[u8]) -> &[u8]
    ensures { result.now ≡ bare word.now }
{
    if word.is_empty() {
        return word;
    }
    let end = word.len() - 1;
    if is_mark(word[end]) {
        &word[..end]
    } else {
        word
    }
}

/// What a terminal is told before a word of this colour (ECMA-48, select graphic rendition).
fn opening_of(colour: Option<Colour>) -> &'static [u8]
    ensures { result.now ≡ opening_of colour }
{
    match colour {
        Some(Colour::Red) => b"\x1b[31m",
        Some(Colour::Green) => b"\x1b[32m",
        None => b"",
    }
}

/// What it is told behind it.
fn closing_of(colour: Option<Colour>) -> &'static [u8]
    ensures { result.now ≡ closing_of colour }
{
    match colour {
        Some(_) => b"\x1b[0m",
        None => b"",
    }
}

/// The colour of a word where words are coloured, by the word before it, each without its mark.
fn colour_in(is_coloured: bool, before: &[u8], word: &[u8]) -> Option<Colour>
    ensures { result ≡ colour_in is_coloured before.now word.now }
{
    if is_coloured {
        colour_of(bare(before), bare(word))
    } else {
        None
    }
}

/// The mark behind the word, if there is one.
fn mark_of(word: &[u8]) -> &[u8]
    ensures { result.now ≡ mark_of word.now }
{
    if word.is_empty() {
        return word;
    }
    let end = word.len() - 1;
    if is_mark(word[end]) {
        &word[end..]
    } else {
        b""
    }
}

/// Whether a number behind this word is a node's, by whether one in its place is.
fn leads_on(leads: bool, word: &[u8]) -> bool
    ensures { result ≡ leads_on leads word.now }
{
    is_word(word, b"node")
        || is_word(word, b"nodes")
        || leads && node_of(bare(word)).is_some() && is_word(mark_of(word), b",")
}

/// The name that stands behind a word, by whether a number in its place is a node's.
fn name_behind<'a>(names: &'a Names, leads: bool, word: &[u8]) -> Option<&'a str>
    ensures { option_copied result ≡ name_behind (name_of names.now) leads word.now }
{
    if leads {
        names.name(node_of(bare(word))?)
    } else {
        None
    }
}

/// Puts a word with no name behind a text, in this colour.
fn put_plain(text: &mut Vec<u8>, colour: Option<Colour>, word: &[u8]) -> Result<(), AllocError>
    ensures { OnOk result (text.new.items ≡ text.old.items ++ shown_word colour None word.now) }
{
    text.extend_from_slice(opening_of(colour))?;
    text.extend_from_slice(word)?;
    text.extend_from_slice(closing_of(colour))
}

/// Puts a name in brackets behind a text.
fn put_name(text: &mut Vec<u8>, name: &str) -> Result<(), AllocError>
    ensures { OnOk result (text.new.items ≡ text.old.items ++ bracketed name.now) }
{
    text.extend_from_slice(b" (")?;
    text.extend_from_slice(name.as_bytes())?;
    text.extend_from_slice(b")")
}

/// Puts a word behind a text, in this colour, with this name before its mark.
fn put_named(
    text: &mut Vec<u8>,
    colour: Option<Colour>,
    name: &str,
    word: &[u8],
) -> Result<(), AllocError>
    ensures { OnOk result (text.new.items ≡ text.old.items ++ shown_word colour (Some name.now) word.now) }
{
    put_plain(text, colour, bare(word))?;
    put_name(text, name)?;
    text.extend_from_slice(mark_of(word))
}

/// Puts a word behind a text, in this colour, and with this name, if there is one.
fn put_word(
    text: &mut Vec<u8>,
    colour: Option<Colour>,
    name: Option<&str>,
    word: &[u8],
) -> Result<(), AllocError>
    ensures { OnOk result (text.new.items ≡ text.old.items ++ shown_word colour (option_copied name.entry) word.now) }
{
    match name {
        Some(name) => put_named(text, colour, name, word),
        None => put_plain(text, colour, word),
    }
}

/// Puts the words of a line behind a text, each as it is shown.
fn put_words(
    text: &mut Vec<u8>,
    is_coloured: bool,
    names: &Names,
    line: &[u8],
) -> Result<(), AllocError>
    ensures { OnOk result (text.new.items ≡ text.old.items ++ shown_line is_coloured (name_of names.now) line.now) }
{
    let mut words = Fields::new(line, b' ');
    let mut before: &[u8] = b"";
    let mut leads = false;
    while let Some(word) = words.next_field() {
        let colour = colour_in(is_coloured, before, word);
        put_word(text, colour, name_behind(names, leads, word), word)?;
        if !words.is_done() {
            text.push(b' ')?;
        }
        leads = leads_on(leads, word);
        before = word;
    }
    Ok(())
}

/// The line without the line feed at its end.
fn before_feed(line: &[u8]) -> &[u8]
    ensures { result.now ≡ before_feed line.now }
{
    if line.is_empty() {
        return line;
    }
    let end = line.len() - 1;
    if line[end] == b'\n' {
        &line[..end]
    } else {
        line
    }
}

/// Puts a line behind a text as it is shown, without its time.
fn put_shown(
    text: &mut Vec<u8>,
    is_coloured: bool,
    names: &Names,
    line: &[u8],
) -> Result<(), AllocError>
    ensures { OnOk result (text.new.items ≡ text.old.items ++ shown_whole is_coloured (name_of names.now) line.now) }
{
    put_words(text, is_coloured, names, before_feed(line))?;
    text.extend_from_slice(b"\n")
}

/// Puts the time behind a text, if it can be told.
fn put_time<R: Clock>(rt: &R, text: &mut Vec<u8>) -> io::Result<()> {
    match Timestamp::now(rt) {
        Ok(now) => write!(text, "{now:.3} "),
        Err(_) => Ok(()),
    }
}

/// The names, if there are any, and else these, which are none.
fn names_or<'a>(names: Option<&'a Names>, none: &'a Names) -> &'a Names
    requires { (id : ℕ) → name_of none.now id ≡ None }
    ensures { (id : ℕ) → name_of result.now id ≡ name_among names.entry id }
{
    match names {
        Some(names) => names,
        None => none,
    }
}

/// Whether the line is an object of JSON, which stands as it is.
fn is_object(line: &[u8]) -> bool
    ensures { result ≡ is_object line.now }
{
    !line.is_empty() && line[0] == b'{'
}

/// Whether the line is one of fault, which stands as that of any command does.
fn is_fault(line: &[u8]) -> bool
    ensures { result ≡ is_fault line.now }
{
    9 <= line.len() && is_word(&line[..9], b"canboot: ")
}

/// A writer that puts the time before each line but one of fault (UTC, to the millisecond), and writes each by one write; on a
/// terminal some words are coloured by what they mean. With names, a line but one of fault has behind the number of a node the name
/// of that node in brackets. A line that is an object of JSON stands as it is. What is written to it is to end with a line feed, or to
/// have none.
#[derive(Drop)]
pub struct ShownLines<'e, R: Clock, E: Write> {
    rt: &'e R,
    alloc: Global,
    inner: &'e mut E,
    is_coloured: bool,
    names: Option<&'e Names>,
    /// The line that has come so far.
    line: Vec<u8>,
}

impl<'e, R: Clock, E: Write> ShownLines<'e, R, E> {
    /// A writer to this one.
    pub fn new(
        rt: &'e R,
        alloc: Global,
        inner: &'e mut E,
        is_coloured: bool,
        names: Option<&'e Names>,
    ) -> ShownLines<'e, R, E>
        ensures line { result.line.items ≡ [] }
        ensures coloured { result.is_coloured ≡ is_coloured }
        ensures names { result.names ≡ names.entry }
    {
        ShownLines {
            rt,
            alloc,
            inner,
            is_coloured,
            names,
            line: Vec::new(alloc),
        }
    }

    /// The line that has come, as it is shown.
    fn shown(&self) -> io::Result<Vec<u8>>
        ensures { IfOk result (λ text. IsShown self.now.is_coloured (name_among self.now.names) self.now.line.items text.items) }
    {
        let none = Names::new(self.alloc);
        let mut text = Vec::new(self.alloc);
        if is_object(&self.line) {
            text.extend_from_slice(&self.line)?;
        } else if is_fault(&self.line) {
            put_shown(&mut text, self.is_coloured, &none, &self.line)?;
        } else {
            put_time(self.rt, &mut text)?;
            let names = names_or(self.names, &none);
            put_shown(&mut text, self.is_coloured, names, &self.line)?;
        }
        Ok(text)
    }

    /// Writes the line that has come, by itself where there is no memory to show it.
    fn put_line(&mut self) -> io::Result<()> {
        let shown = self.shown();
        let written = match &shown {
            Ok(text) => self.inner.write_all(text),
            Err(_) => self.inner.write_all(&self.line),
        };
        self.line.clear();
        written
    }
}

impl<'e, R: Clock, E: Write> Write for ShownLines<'e, R, E> {
    fn write(&mut self, buf: &[u8]) -> io::Result<usize> {
        self.line.extend_from_slice(buf)?;
        if self.line.last() == Some(&b'\n') {
            self.put_line()?;
        }
        Ok(buf.len())
    }

    fn flush(&mut self) -> io::Result<()> {
        self.inner.flush()
    }
}
