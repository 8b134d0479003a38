//! watch_stories: stories of a watch.
//!
//! `watch_stories` reads a story from standard input (a journal, the settings, and when what happened), tells it to a watch,
//! and writes the steps that it gives and what an operator is told. The status is 1 where a line is none of a story's, or
//! entries are left. `tests/README.md` says what a story looks like; `tests/cases` has them told.
#![tactic(auto)]

mod story;

use std::io::{self, BufWriter, Read, Write};
use std::process::ExitCode;

fn main(rt: HostRuntime) -> io::Result<ExitCode> {
    let mut bytes = Vec::new(rt.alloc());
    rt.reader().read_to_end(&mut bytes)?;
    let mut out = BufWriter::new(rt.alloc(), io::writer(&rt))?;
    let is_told = story::tell_story(rt.alloc(), bytes.as_slice(), &mut out)?;
    out.flush()?;
    Ok(if is_told {
        ExitCode::SUCCESS
    } else {
        ExitCode::FAILURE
    })
}
