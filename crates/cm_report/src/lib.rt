//! The status report of an NMT master: what a history says of the network and of each slave, as lines and as a JSON object.
//!
//! [`report`] writes the report of a manager and its entries as lines, and [`report_of`] of a history that is replayed;
//! [`report_json_of`] writes the same as one JSON object. [`put_report_in`] writes it in the form that is asked for
//! ([`ReportForm`]), and [`replay_in`] that of a replay. The texts are definitions of cm_format.
#![tactic(auto)]

mod report_form;
mod report_forms;
mod reporting;
mod reporting_json;

pub use report_form::ReportForm;
pub use report_forms::{put_report_in, replay_in};
pub use reporting::{replay_report, report, report_of};
pub use reporting_json::{replay_json, report_json_of};
