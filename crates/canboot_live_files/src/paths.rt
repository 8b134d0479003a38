//! The paths of the files of a live run: those that it writes are told apart before it begins.

use crate::journal_file::{MOST_FILES, folder_of};
use canboot_cli::LivePaths;
use canboot_faults::is_list;
use cm_text::Fields;
use std::fs;
use std::path::Path;
use std::rt::Files;
use thiserror::Error;

/// Why a path isn't written to.
#[derive(Clone, Copy, Debug, Error)]
#[error("{written} {why}")]
pub struct WrongPath {
    /// What would be written there.
    written: &'static str,
    why: &'static str,
}

/// The name of a path in its folder.
fn name_of(path: &str) -> &str {
    Path::new(path).file_name().unwrap_or("")
}

/// Whether both paths are of one folder.
fn are_beside<R: Files>(rt: &R, one: &str, other: &str) -> bool {
    is_list(rt, folder_of(one), Some(folder_of(other)))
}

/// Whether both paths are one name in one folder, whether a file is there or not.
fn are_one_name<R: Files>(rt: &R, one: &str, other: &str) -> bool {
    name_of(one) == name_of(other) && are_beside(rt, one, other)
}

/// Whether both paths are of one file, by whichever names, or are one name.
fn are_one_file<R: Files>(rt: &R, one: &str, other: Option<&str>) -> bool {
    match other {
        Some(other) => is_list(rt, one, Some(other)) || are_one_name(rt, one, other),
        None => false,
    }
}

/// Whether this is what a journal puts behind its name where that is taken: `.1` to `.999`.
fn is_next_number(behind: &[u8]) -> bool {
    let Some(number) = behind.strip_prefix(b".".as_slice()) else {
        return false;
    };
    let mut fields = Fields::new(number, b' ');
    match fields.decimal(u64::from(MOST_FILES)) {
        Some(number) => 0 < number && fields.is_done(),
        None => false,
    }
}

/// Whether the path is one that the journal takes where its own is taken.
fn is_next_journal<R: Files>(rt: &R, path: &str, journal: Option<&str>) -> bool {
    let Some(journal) = journal else {
        return false;
    };
    let name = name_of(path).as_bytes();
    match name.strip_prefix(name_of(journal).as_bytes()) {
        Some(behind) => is_next_number(behind) && are_beside(rt, path, journal),
        None => false,
    }
}

/// Which other file of the run this file is, by whichever names, if it is one: what is read, or the journal.
fn other_file<R: Files>(rt: &R, paths: &LivePaths<'_>, path: &str) -> Option<&'static str> {
    if are_one_file(rt, path, Some(paths.network)) {
        Some("is the network list")
    } else if are_one_file(rt, path, paths.names) {
        Some("is that of the names")
    } else if are_one_file(rt, path, paths.operator) {
        Some("is that of the operator")
    } else if are_one_file(rt, path, paths.journal.path) {
        Some("is that of the journal")
    } else if is_next_journal(rt, path, paths.journal.path) {
        Some("is one that the journal may take")
    } else {
        None
    }
}

/// Why nothing is put in the place of the file of this path, if it is another file of the run, or is there and no regular file.
fn wrong_status<R: Files>(rt: &R, paths: &LivePaths<'_>, path: &str) -> Option<&'static str> {
    let other = other_file(rt, paths, path);
    if other.is_some() {
        return other;
    }
    if are_one_file(rt, path, paths.events) {
        return Some("is that of the events");
    }
    match fs::symlink_metadata(rt, path) {
        Ok(found) if !found.is_file() => Some("isn't a regular file"),
        _ => None,
    }
}

/// Which file that is read has the journal's name, if one has. No journal is written to a file that is there.
fn wrong_journal<R: Files>(rt: &R, paths: &LivePaths<'_>, path: &str) -> Option<&'static str> {
    if are_one_name(rt, path, paths.network) {
        return Some("is the network list");
    }
    match paths.names {
        Some(names) if are_one_name(rt, path, names) => Some("is that of the names"),
        _ => None,
    }
}

/// What is wrong with the paths to which is written, if something is: each is another file than all others of the run, and that of the
/// status, which is replaced, is a regular file, or none is there.
pub fn wrong_path<R: Files>(rt: &R, paths: &LivePaths<'_>) -> Option<WrongPath> {
    if let Some(path) = paths.journal.path {
        if let Some(why) = wrong_journal(rt, paths, path) {
            let written = "the file of the journal";
            return Some(WrongPath { written, why });
        }
    }
    if let Some(path) = paths.events {
        if let Some(why) = other_file(rt, paths, path) {
            let written = "the file of the events";
            return Some(WrongPath { written, why });
        }
    }
    if let Some(path) = paths.status {
        if let Some(why) = wrong_status(rt, paths, path) {
            let written = "the file of the status";
            return Some(WrongPath { written, why });
        }
    }
    None
}
