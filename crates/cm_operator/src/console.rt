//! What an operator types, and what it asks for.
ghost use Rattle.std.specs.Prelude.{◌≡◌, ◌∷◌, [], None, Some, MatchOption, IfOk, IfErr, IfSome};
ghost use Rattle.cm_text.specs.Left.{left};
ghost use Rattle.cm_text.specs.Words.{split};
ghost use Rattle.cm_operator.specs.Console.{AsksPlainly, asked_by, command_with, request_to, some_words, usage_of};

use crate::verb::{Verb, verb_of};
use cm_history::Call;
use cm_nmt::NodeId;
use cm_text::Fields;
use cm_typed::{number_of, typed_node};

/// What a line of an operator asks for.
#[derive(Clone, Copy)]
pub enum Command {
    /// This call is to be made; it is no request.
    Make(Call),
    /// A request of this target and value is to be made (CiA 302-2, request NMT).
    Request(u8, u8),
    /// This slave is to be booted now.
    Boot(NodeId),
    /// The network is to be started.
    Start,
    /// The report of what has happened so far.
    Status,
    /// What there is to type.
    Help,
    /// The run is to end.
    Quit,
}

/// What is wrong with a line of an operator.
#[derive(Clone, Copy)]
pub enum BadLine {
    /// It has no words.
    Empty,
    /// Its first word is none that there is.
    NoSuchWord,
    /// The words behind the first are not those that it takes: this is what to type.
    Wants(&'static str),
}

/// What there is to type with this first word.
fn usage(verb: Verb) -> &'static str
    ensures { result.now ≡ usage_of verb }
{
    match verb {
        Verb::Request => "request TARGET VALUE, two numbers of 0 to 255",
        Verb::Read => "read NODE, a number of 0 to 255",
        Verb::Hold => "hold NODE, 1 to 127",
        Verb::Release => "release NODE, 1 to 127",
        Verb::Lost => "lost NODE, 1 to 127",
        Verb::Boot => "boot NODE, 1 to 127",
        Verb::Start => "start, or start NODE, 1 to 127",
        Verb::Stop => "stop, or stop NODE, 1 to 127",
        Verb::Reset => "reset NODE, 1 to 127",
        Verb::PreOperational => "preop NODE, 1 to 127",
        Verb::Status => "status alone",
        Verb::Help => "help alone",
        Verb::Quit => "quit alone",
    }
}

/// The next word: what stands between spaces.
fn next_word<'a>(fields: &mut Fields<'a>) -> Option<&'a [u8]>
    ensures { MatchOption result
        ((some_words (left fields.old) ≡ []) × (left fields.new ≡ []))
        (λ w. some_words (left fields.old) ≡ w.now ∷ some_words (left fields.new)) }
{
    while let Some(word) = fields.next_field() {
        if !word.is_empty() {
            return Some(word);
        }
    }
    None
}

/// The request to the node that a word spells, with this value.
fn request_to(value: u8, word: &[u8]) -> Option<Command>
    ensures value { result ≡ request_to value word.now }
    ensures plain { IfSome result AsksPlainly }
{
    let node = typed_node(word)?;
    Some(Command::Request(node.get(), value))
}

/// What a line asks for whose first word is this, with no word behind it.
fn command_alone(verb: Verb) -> Option<Command>
    ensures value { result ≡ command_with verb [] }
    ensures plain { IfSome result AsksPlainly }
{
    match verb {
        Verb::Start => Some(Command::Start),
        Verb::Stop => Some(Command::Request(128, 4)),
        Verb::Status => Some(Command::Status),
        Verb::Help => Some(Command::Help),
        Verb::Quit => Some(Command::Quit),
        _ => None,
    }
}

/// What a line asks for whose first word is this, with one word behind it.
fn command_with_one(verb: Verb, word: &[u8]) -> Option<Command>
    ensures value { result ≡ command_with verb (word.now ∷ []) }
    ensures plain { IfSome result AsksPlainly }
{
    match verb {
        Verb::Read => Some(Command::Make(Call::Read(number_of(word)?))),
        Verb::Hold => Some(Command::Make(Call::Hold(typed_node(word)?))),
        Verb::Release => Some(Command::Make(Call::Release(typed_node(word)?))),
        Verb::Lost => Some(Command::Make(Call::Lost(typed_node(word)?))),
        Verb::Boot => Some(Command::Boot(typed_node(word)?)),
        Verb::Start => request_to(5, word),
        Verb::Stop => request_to(4, word),
        Verb::Reset => request_to(6, word),
        Verb::PreOperational => request_to(127, word),
        _ => None,
    }
}

/// What a line asks for whose first word is this, with two words behind it.
fn command_with_two(verb: Verb, first: &[u8], second: &[u8]) -> Option<Command>
    ensures value { result ≡ command_with verb (first.now ∷ second.now ∷ []) }
    ensures plain { IfSome result AsksPlainly }
{
    match verb {
        Verb::Request => {
            let target = number_of(first)?;
            Some(Command::Request(target, number_of(second)?))
        }
        _ => None,
    }
}

/// What a line asks for whose first word is this, by the words behind it.
fn command_with(verb: Verb, words: &mut Fields<'_>) -> Option<Command>
    ensures value { result ≡ command_with verb (some_words (left words.old)) }
    ensures plain { IfSome result AsksPlainly }
{
    let Some(first) = next_word(words) else {
        return command_alone(verb);
    };
    let Some(second) = next_word(words) else {
        return command_with_one(verb, first);
    };
    if next_word(words).is_some() {
        return None;
    }
    command_with_two(verb, first, second)
}

/// What a line asks for: words with spaces around and between them. A call that it asks for is neither a report nor a
/// request; a request is [`Command::Request`].
pub fn read_command(line: &[u8]) -> Result<Command, BadLine>
    ensures taken { IfOk result (λ command. asked_by line.now ≡ Some command) }
    ensures plain { IfOk result AsksPlainly }
    ensures bad { IfErr result (λ bad. asked_by line.now ≡ None) }
{
    let mut words = Fields::new(line, b' ');
    let Some(word) = next_word(&mut words) else {
        return Err(BadLine::Empty);
    };
    let Some(verb) = verb_of(word) else {
        return Err(BadLine::NoSuchWord);
    };
    match command_with(verb, &mut words) {
        Some(command) => Ok(command),
        None => Err(BadLine::Wants(usage(verb))),
    }
}
