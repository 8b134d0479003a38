//! Files of the system that the program runs on, for threads.

use crate::replace_file::ReplaceFile;
use std::fs::{self, File};
use std::io::{self, ErrorKind, Write};

/// How many names are tried for a file beside another.
const MOST_NAMES: u32 = 1000;

/// The files of the system that the program runs on.
#[derive(Drop)]
pub struct HostFiles {
    rt: HostRuntime,
}

/// A file that was made beside another.
#[derive(Drop)]
struct Beside {
    path: String,
    file: File,
}

impl HostFiles {
    /// Those of this system.
    pub fn new(rt: HostRuntime) -> HostFiles {
        HostFiles { rt }
    }

    /// Makes a file beside that of this path, with `.new` behind it, or the first of `.new.1` to `.new.999` that isn't there. Nothing
    /// that is there is opened, and no link is followed.
    fn make_beside(&self, path: &str) -> io::Result<Beside> {
        for number in 0..MOST_NAMES {
            let path = match number {
                0 => format!(in self.rt.alloc(); "{path}.new")?,
                _ => format!(in self.rt.alloc(); "{path}.new.{number}")?,
            };
            match File::create_new(&self.rt, path.as_str()) {
                Ok(file) => return Ok(Beside { path, file }),
                Err(error) if error.kind() == ErrorKind::AlreadyExists => {}
                Err(error) => return Err(error),
            }
        }
        Err(io::Error::from(ErrorKind::AlreadyExists))
    }
}

impl ReplaceFile for HostFiles {
    fn replace(&mut self, path: &str, text: &[u8]) -> io::Result<()> {
        let Beside {
            path: made,
            mut file,
        } = self.make_beside(path)?;
        let written = file.write_all(text);
        let replaced = match written {
            Ok(()) => fs::rename(&self.rt, made.as_str(), path),
            Err(error) => Err(error),
        };
        if replaced.is_err() {
            let _ = fs::remove_file(&self.rt, made.as_str());
        }
        replaced
    }
}
