//! The whole library under one name: whoever stands on this crate has the network list, the boot of
//! a slave, the sequential manager with its journal, the register that threads share, and the runs
//! over it.
//!
//! | from          | what                                      | main items                             |
//! |---------------|-------------------------------------------|----------------------------------------|
//! | cm_nmt        | node-IDs, states, commands, frames        | `NodeId`, `NmtState`, `Frame`, `Wire`  |
//! | cm_netlist    | the network list, from TOML               | `Network`, `SlaveEntry`, `NetFault`    |
//! | cm_boot       | the boot of one slave, and its status     | `Bus`, `boot_slave`, `Boot`, `judge`   |
//! | cm_history    | calls, replies, orders; laws of histories | `Call`, `Reply`, `Orders`, `Entry`     |
//! | cm_sequential | the sequential manager; legal histories   | `Manager`, `frames`, `replay`          |
//! | cm_format     | what a journal's text is, and its faults  | `JournalFault`                         |
//! | cm_journal    | a journal read and written                | `journal_read`, `journal_write`        |
//! | cm_report     | the status report of a history            | `report`, `replay_json`                |
//! | cm_register   | one manager, shared by threads by seats   | `Register`, `Seat`, `Closed`, `Book`   |
//! | cm_versions   | the whole status, for readers of it       | `Publisher`, `VersionReader`           |
//! | cm_run        | boots by workers, an operator, simulation | `boot_all`, `operate`, `SimBus`        |
//!
//! A [`Network`] comes first. A [`Manager`] answers the calls of one thread; a [`Register`] those of
//! many, each with a [`Seat`]. [`boot_all`] boots the slaves of a register over one [`Bus`] for each
//! worker. [`journal_write`] writes the history that [`Register::close`] gives. A [`Publisher`] shows
//! what a register's history comes to, while it grows.
//!
//! `ReadFault` says why a journal wasn't read; the type of that name in cm_register, why a seat's
//! read gave no state, is `SeatReadFault` here. [`Version`] is that of a journal; what a publisher shows is a
//! `PublishedVersion`.
#![tactic(auto)]

pub use cm_boot::Answer;
pub use cm_boot::Boot;
pub use cm_boot::Bus;
pub use cm_boot::Question;
pub use cm_boot::Step;
pub use cm_boot::WrongAnswer;
pub use cm_boot::boot_slave;
pub use cm_boot::judge;
pub use cm_boot::judge_terms;
pub use cm_format::FaultKind;
pub use cm_format::Head;
pub use cm_format::JournalFault;
pub use cm_format::MOST_ENTRIES_OF_VERSION_1;
pub use cm_format::Version;
pub use cm_format::no_text_goes_on;
pub use cm_format::one_text;
pub use cm_growing::HistoryName;
pub use cm_growing::HistoryReader;
pub use cm_growing::Past;
pub use cm_history::ALL_NODES;
pub use cm_history::Call;
pub use cm_history::CallFault;
pub use cm_history::Entry;
pub use cm_history::MOST_ENTRIES;
pub use cm_history::Orders;
pub use cm_history::Phase;
pub use cm_history::Refusal;
pub use cm_history::Reply;
pub use cm_history::abort_code;
pub use cm_history::boots_start_rightly;
pub use cm_history::machine_shows_its_history;
pub use cm_history::network_becomes_operational_rightly;
pub use cm_history::reads_show;
pub use cm_journal::Journal;
pub use cm_journal::ReadFault;
pub use cm_journal::Replayed;
pub use cm_journal::journal_read;
pub use cm_journal::journal_replay;
pub use cm_journal::journal_write;
pub use cm_netlist::NetFault;
pub use cm_netlist::Network;
pub use cm_netlist::SlaveEntry;
pub use cm_nmt::Answers;
pub use cm_nmt::Assignment;
pub use cm_nmt::Command;
pub use cm_nmt::Frame;
pub use cm_nmt::Got;
pub use cm_nmt::Heard;
pub use cm_nmt::NmtState;
pub use cm_nmt::NodeId;
pub use cm_nmt::Signal;
pub use cm_nmt::Startup;
pub use cm_nmt::Status;
pub use cm_nmt::Target;
pub use cm_nmt::Terms;
pub use cm_nmt::Wire;
pub use cm_nmt::Write;
pub use cm_register::Book;
pub use cm_register::BookFault;
pub use cm_register::CloseFault;
pub use cm_register::CloseKind;
pub use cm_register::Closed;
pub use cm_register::Made;
pub use cm_register::OpenFault;
pub use cm_register::Opened;
pub use cm_register::ReadFault as SeatReadFault;
pub use cm_register::Receipt;
pub use cm_register::Register;
pub use cm_register::RunName;
pub use cm_register::Seat;
pub use cm_register::SeatList;
pub use cm_register::Seen;
pub use cm_register::SharedManager;
pub use cm_report::replay_json;
pub use cm_report::replay_report;
pub use cm_report::report;
pub use cm_report::report_json_of;
pub use cm_report::report_of;
pub use cm_run::Booted;
pub use cm_run::Last;
pub use cm_run::Lookout;
pub use cm_run::OperateFault;
pub use cm_run::Outcome;
pub use cm_run::ReportsAll;
pub use cm_run::RunFault;
pub use cm_run::RunKind;
pub use cm_run::SimBus;
pub use cm_run::SimSlave;
pub use cm_run::SimWire;
pub use cm_run::boot_all;
pub use cm_run::operate;
pub use cm_run::round;
pub use cm_run::round_by;
pub use cm_sequential::Cause;
pub use cm_sequential::CompactReplay;
pub use cm_sequential::Manager;
pub use cm_sequential::Untaken;
pub use cm_sequential::frames;
pub use cm_sequential::replay;
pub use cm_sequential::replay_to_fault;
pub use cm_versions::Next;
pub use cm_versions::Publisher;
pub use cm_versions::TellFault;
pub use cm_versions::Version as PublishedVersion;
pub use cm_versions::VersionReader;
