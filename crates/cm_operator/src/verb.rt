ghost use Rattle.std.specs.Prelude.{◌≡◌};
ghost use Rattle.cm_operator.specs.Console.{call_verb_of, order_verb_of, run_verb_of, verb_of};

use cm_text::is_word;

/// The first word of what an operator types.
#[derive(Clone, Copy)]
pub(crate) enum Verb {
    Request,
    Read,
    Hold,
    Release,
    Lost,
    Boot,
    Start,
    Stop,
    Reset,
    PreOperational,
    Status,
    Help,
    Quit,
}

/// The first word of a line that spells a call as a journal does.
fn call_verb_of(word: &[u8]) -> Option<Verb>
    ensures { result ≡ call_verb_of word.now }
{
    if is_word(word, b"request") {
        return Some(Verb::Request);
    }
    if is_word(word, b"read") {
        return Some(Verb::Read);
    }
    if is_word(word, b"hold") {
        return Some(Verb::Hold);
    }
    if is_word(word, b"release") {
        return Some(Verb::Release);
    }
    if is_word(word, b"lost") {
        return Some(Verb::Lost);
    }
    None
}

/// The first word of a line that asks one slave or all to do something.
fn order_verb_of(word: &[u8]) -> Option<Verb>
    ensures { result ≡ order_verb_of word.now }
{
    if is_word(word, b"boot") {
        return Some(Verb::Boot);
    }
    if is_word(word, b"start") {
        return Some(Verb::Start);
    }
    if is_word(word, b"stop") {
        return Some(Verb::Stop);
    }
    if is_word(word, b"reset") {
        return Some(Verb::Reset);
    }
    if is_word(word, b"preop") {
        return Some(Verb::PreOperational);
    }
    None
}

/// The first word of a line that is for the run.
fn run_verb_of(word: &[u8]) -> Option<Verb>
    ensures { result ≡ run_verb_of word.now }
{
    if is_word(word, b"status") {
        return Some(Verb::Status);
    }
    if is_word(word, b"help") {
        return Some(Verb::Help);
    }
    if is_word(word, b"quit") || is_word(word, b"exit") {
        return Some(Verb::Quit);
    }
    None
}

/// The first word of a line; `None` exactly where it is none.
pub(crate) fn verb_of(word: &[u8]) -> Option<Verb>
    ensures { result ≡ verb_of word.now }
{
    if let Some(verb) = call_verb_of(word) {
        return Some(verb);
    }
    if let Some(verb) = order_verb_of(word) {
        return Some(verb);
    }
    run_verb_of(word)
}
