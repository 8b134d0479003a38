//! Files that are new, and which paths were tried for them.

ghost use Rattle.std.specs.Prelude.{◌≢◌, ℕ, Bool, List, map, string_bytes, IfErr};
ghost use Rattle.std.specs.IoError.{error_kind};
ghost use Rattle.canboot_live_files.specs.JournalNames.{HasTried};

use std::alloc::Global;
use std::fs::File;
use std::io::{self, ErrorKind};
use std::rt::Files;

/// Makes new files, and keeps which paths it has tried.
pub(crate) trait NewFiles {
    /// A file that was made.
    type File;

    /// The paths that were tried, in their order, each with whether its file was made.
    ghost tried: { Self → List (List ℕ × Bool) };

    /// Makes the file of this path; none, where one is there.
    fn create_new(&mut self, path: &str) -> io::Result<Option<Self::File>>
        ensures tried { HasTried result path.now (tried self.old) (tried self.new) }
        ensures other { IfErr result (λ error. error_kind error ≢ ErrorKind.AlreadyExists) };
}

/// A path that was tried.
#[derive(Drop)]
struct TriedPath {
    path: String,
    is_made: bool,
}

/// New files of a file system.
#[derive(Drop)]
pub(crate) struct FilesTried<'r, R: Files> {
    rt: &'r R,
    alloc: Global,
    tried: Vec<TriedPath>,
}

impl<'r, R: Files> FilesTried<'r, R> {
    /// None was tried.
    pub(crate) fn new(rt: &'r R, alloc: Global) -> FilesTried<'r, R> {
        FilesTried {
            rt,
            alloc,
            tried: Vec::new(alloc),
        }
    }
}

impl<'r, R: Files> NewFiles for FilesTried<'r, R> {
    type File = R::File;

    ghost tried = { λ f. map (λ t. (string_bytes t.path, t.is_made)) f.tried.items };

    fn create_new(&mut self, path: &str) -> io::Result<Option<R::File>> {
        let name = String::from_str(self.alloc, path)?;
        self.tried.reserve(1)?;
        match File::create_new(self.rt, path) {
            Ok(file) => {
                self.tried.push_reserved(TriedPath {
                    path: name,
                    is_made: true,
                });
                Ok(Some(file))
            }
            Err(error) => match error.kind() {
                ErrorKind::AlreadyExists => {
                    self.tried.push_reserved(TriedPath {
                        path: name,
                        is_made: false,
                    });
                    Ok(None)
                }
                _ => Err(error),
            },
        }
    }
}
