//! canboot, the NMT master of a CANopen network, as a library: its command line over any streams (`run`), and what its
//! commands do over any reader and writer: `check_text`, `import_text`, `scan_text`, `scan_check`, `run_text`,
//! `live_text`, `replay_text`, `mend_text`, `tell_text` and `picture_text`. The program is `canboot_main`.
#![tactic(auto)]

mod program;
mod simulated;

pub use canboot_check::{check_as_json, check_text};
pub use canboot_cli::{
    Action, CheckOutput, Host, NoAction, ReplayOutput, RunWords, SlaveWords, read_words,
};
pub use canboot_faults::{DONE, FAILED, MISUSED, REFUSED};
pub use canboot_import::{ImportWords, LONGEST_DEVICE_FILE, import_text};
pub use canboot_journals::{LONGEST_JOURNAL, replay_as_json, replay_explained, replay_text};
pub use canboot_lists::explain_text;
pub use canboot_live::{
    Followed, LONGEST_LIVE, LiveEnds, LiveIo, LiveOutputs, LiveTrace, live_text,
};
pub use canboot_live_files::{HostFiles, NoFiles, ReplaceFile, StatusFile};
pub use canboot_picture::picture_text;
pub use canboot_run::{Asked, LONGEST_RUN, Options, SlaveFaults, run_text, run_text_as};
pub use canboot_scan::{ListForm, Scan, ScanEnds, scan_check, scan_text};
pub use canboot_tell::tell_text;
pub use cm_bus::{BusOptions, LiveOptions, Outlet};
pub use cm_crew::{UntilOver, live_round};
pub use cm_netlist::LONGEST_LIST;
pub use cm_recorder::JournalOutput;
pub use cm_report::ReportForm;
pub use program::{Streams, run, run_words};
