//! Files that are put in the place of others, by any thread.

use std::io::{self, ErrorKind};

/// Who replaces files, from any thread.
pub trait ReplaceFile {
    /// Puts a file with this text in the place of the file of this path, if there is one: whoever reads the path finds the one or the
    /// other, and each whole. Where it fails, what was there stays.
    fn replace(&mut self, path: &str, text: &[u8]) -> io::Result<()>;
}

/// Who replaces no file, for a run that writes no status.
#[derive(Clone, Copy, Drop)]
pub struct NoFiles;

impl ReplaceFile for NoFiles {
    fn replace(&mut self, _path: &str, _text: &[u8]) -> io::Result<()> {
        Err(io::Error::from(ErrorKind::Unsupported))
    }
}
