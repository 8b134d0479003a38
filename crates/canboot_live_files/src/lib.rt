//! The files of a live run: its journal, its events, its status, and where its operator types.
//!
//! A [`JournalFile`] is a new file for each run ([`make_journal`]). An [`EventFile`] has its lines put behind what it has. A
//! [`StatusFile`] is replaced by a thread of its own ([`start_status`]), by whoever may replace files ([`ReplaceFile`]: [`HostFiles`], or
//! [`NoFiles`]). [`open_operator`] opens where the operator types. [`wrong_path`] says where two of these paths are one file.
#![tactic(auto)]

mod event_file;
mod host_files;
mod journal_file;
mod new_files;
mod operator_input;
mod paths;
mod replace_file;
mod status_file;

pub use event_file::EventFile;
pub use host_files::HostFiles;
pub use journal_file::{JournalFile, make_journal};
pub use operator_input::{OperatorInput, open_operator};
pub use paths::{WrongPath, wrong_path};
pub use replace_file::{NoFiles, ReplaceFile};
pub use status_file::{StatusFile, StatusKeeper, StatusThread, start_status};
