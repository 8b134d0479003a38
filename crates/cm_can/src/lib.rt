//! What CANopen says in CAN frames (CiA 301): which frame asks a question of a boot, and which frame answers
//! it, with which answer; the frame of an NMT message; what an error control message tells, and what a bus says beside
//! that: emergency messages, NMT messages of other masters, error frames.
//!
//! SDO transfers are expedited: an object of up to 4 bytes goes in one frame each way. A server that begins a
//! segmented upload is answered with an abort, and the question counts as aborted. Frames have identifiers of 11
//! bits; nothing here reads or sends one.
#![tactic(auto)]

mod adapter;
mod can_error;
mod caused;
mod control;
mod control_frame;
mod emergency;
mod error_lines;
mod format;
mod frame;
mod lines;
mod node;
mod remark;
mod request;
mod sdo;
mod text;

pub use adapter::{adapter_text, read_adapter_line};
pub use can_error::{BusState, CanError, ControllerError, ErrorClass};
pub use caused::Caused;
pub use control::{ErrorControl, error_control, nmt_frame};
pub use control_frame::ControlFrame;
pub use emergency::{Emergency, read_emergency};
pub use error_lines::{read_error, read_error_line};
pub use format::Format;
pub use frame::{CanFrame, CanId, Kind};
pub use lines::{frame_text, one_frame, read_frame, read_log_line};
pub use node::{answered_by, request_of};
pub use remark::{Remark, read_remark};
pub use request::Request;
pub use sdo::{
    NO_SEGMENTS, TIMED_OUT, abort_frame, downloaded_by, is_segmented, segment_request,
    upload_request, uploaded_by,
};
