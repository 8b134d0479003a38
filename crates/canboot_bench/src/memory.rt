//! Makes calls that want memory, and says on a line where memory was refused, so that `tests/sweep` can
//! refuse its requests one by one.
//!
//! Standard input has the word of what is called, and is read without memory:
//!
//! - `add`, `list`, `journal`: a network list slave by slave, one in TOML, a journal;
//! - `register`, `book`: one is opened, named, called until its history is full, read and closed;
//! - `operate`, `boot`: an operator's calls, two workers that boot.
//!
//! A call that was refused is made again, and is answered then, as memory is refused once. `None` where an
//! answer is one that the call's promise doesn't allow.

mod lists;
mod registers;
mod runs;
mod saying;

use std::io::Read;
use std::sync::Wait;
use std::thread::Threads;

/// What the word asks for; `None` where an answer isn't allowed, or there is no such word.
fn call<R: Print + AllocGlobal + Wait + Threads + Send + Sync>(rt: &R, word: &[u8]) -> Option<()> {
    match word {
        b"add" => lists::add(rt),
        b"list" => lists::read_list(rt),
        b"journal" => lists::read_journal(rt),
        b"register" => registers::register(rt),
        b"book" => registers::book(rt),
        b"operate" => runs::operate_often(rt),
        b"boot" => runs::boot(rt),
        _ => None,
    }
}

/// Each of them.
pub fn call_each<R: Print + AllocGlobal + Wait + Threads + Send + Sync>(rt: &R) -> Option<()> {
    lists::add(rt)?;
    lists::read_list(rt)?;
    lists::read_journal(rt)?;
    registers::register(rt)?;
    registers::book(rt)?;
    runs::operate_often(rt)?;
    runs::boot(rt)
}

/// What the word on standard input asks for, which is one line.
pub fn call_one<R: Print + Input + AllocGlobal + Wait + Threads + Send + Sync>(
    rt: &R,
) -> Option<()> {
    let mut line = [0; 16];
    let count = rt.reader().read(&mut line).ok()?;
    call(rt, line.get(..count)?.strip_suffix(b"\n")?)
}
