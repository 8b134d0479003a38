//! Where the operator types: on standard input, or in a FIFO that others open and close.

use std::fs::{self, File, OpenOptions};
use std::io::{self, ErrorKind, Read, StdinLock};
use std::os::unix::fs::FileTypeExt;
use std::rt::Files;

/// Where the operator types.
#[derive(Drop)]
pub enum OperatorInput {
    /// On standard input.
    Standard(StdinLock<'static>),
    /// In a FIFO that is held open both ways, so that it has no end when whoever wrote to it goes.
    Fifo(File),
}

impl Read for OperatorInput {
    fn read(&mut self, buf: &mut [u8]) -> io::Result<usize> {
        match self {
            OperatorInput::Standard(input) => input.read(buf),
            OperatorInput::Fifo(fifo) => fifo.read(buf),
        }
    }
}

/// Opens the FIFO of this path, where there is one; else the operator types on standard input. What is no FIFO is refused.
pub fn open_operator<R: Files<File = File> + Input<Reader = StdinLock<'static>>>(
    rt: &R,
    path: Option<&str>,
) -> io::Result<OperatorInput> {
    let Some(path) = path else {
        return Ok(OperatorInput::Standard(rt.reader()));
    };
    if !fs::metadata(rt, path)?.file_type().is_fifo() {
        return Err(io::Error::from(ErrorKind::InvalidInput));
    }
    let fifo = OpenOptions::new().read(true).write(true).open(rt, path)?;
    Ok(OperatorInput::Fifo(fifo))
}
