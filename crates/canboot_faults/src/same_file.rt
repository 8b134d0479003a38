//! Whether two paths name one file.

ghost use Rattle.std.specs.Prelude.{◌≡◌};
ghost use Rattle.canboot_faults.specs.Files.{is_same_file};

use std::fs;
use std::os::unix::fs::MetadataExt;
use std::rt::Files;

/// What tells a file from any other: the device that it is on, and its number there.
#[derive(Clone, Copy, PartialEq, Eq)]
struct FileId {
    device: u64,
    number: u64,
}

/// The file at this path, as the system answers; none where it can't be asked.
fn file_at<R: Files>(rt: &R, path: &str) -> Option<FileId> {
    let found = fs::metadata(rt, path).ok()?;
    Some(FileId {
        device: found.dev(),
        number: found.ino(),
    })
}

/// Whether both are files, and the same.
fn is_same_file(here: Option<FileId>, there: Option<FileId>) -> bool
    ensures { result ≡ is_same_file here there }
{
    match (here, there) {
        (Some(here), Some(there)) => here == there,
        _ => false,
    }
}

/// Whether the file that is to be written is the network list itself, by the same path or by another.
pub fn is_list<R: Files>(rt: &R, list: &str, written: Option<&str>) -> bool {
    match written {
        Some(written) => is_same_file(file_at(rt, list), file_at(rt, written)),
        None => false,
    }
}
