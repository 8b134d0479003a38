ghost use Rattle.std.specs.Prelude.{◌≡◌};
ghost use Rattle.cm_history.specs.History.{state_reported};
ghost use Rattle.cm_history.specs.Machine.{obeyed};

use cm_nmt::{Answers, Command, Got, Heard, NmtState, Status};

/// The state of a slave of which nothing is known, as object 1F82h reads it.
pub const UNKNOWN: u8 = 0;

/// The state of a slave that is missing, as object 1F82h reads it.
pub const MISSING: u8 = 1;

/// What a history says of one slave.
#[derive(Clone, Copy, Debug, PartialEq, Eq)]
pub struct Slave {
    /// As object 1F82h reads it.
    pub state: u8,
    pub booted: bool,
    /// The number of the session that is open.
    pub session: Option<u64>,
}

/// The state in which a boot left its slave.
pub fn state_reported(status: Status, answers: &Answers) -> u8
    ensures { result ≡ state_reported status answers.now }
{
    if status.is_missing() {
        return MISSING;
    }
    if let Heard::State(state) = answers.beat {
        return state.code();
    }
    if let Heard::State(state) = answers.heard {
        return state.code();
    }
    match answers.device {
        Got::NotAsked => UNKNOWN,
        _ => NmtState::PreOperational.code(),
    }
}

/// A state after a command to all nodes, if there is one: unknown and missing stay so.
#[inline(always)]
pub fn obeyed(command: Option<Command>, state: u8) -> u8
    ensures { result ≡ obeyed command state }
{
    match command {
        Some(command) => {
            if state == UNKNOWN || state == MISSING {
                state
            } else {
                command.state_left()
            }
        }
        None => state,
    }
}
