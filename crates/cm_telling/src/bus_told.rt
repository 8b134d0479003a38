ghost use Rattle.std.specs.Prelude.{◌≡◌};
ghost use Rattle.cm_telling.specs.BusErrors.{behind_error, error_notice, is_other_state, is_well, nothing_told};

use cm_can::{BusState, CanError};

/// What was said last of the errors of the bus, whether it was told or left out.
#[derive(Clone, Copy)]
pub struct BusTold {
    /// It was said that nobody acknowledges, and not since that the bus is well.
    is_unacknowledged: bool,
    /// The state of the controller that was said last.
    state: Option<BusState>,
}

/// What is told of an error of the bus.
#[derive(Clone, Copy, Debug, PartialEq, Eq)]
pub enum ErrorNotice {
    /// No other node acknowledges what is sent.
    Unacknowledged,
    /// The controller is in this state.
    State(BusState),
}

/// Whether it isn't the state that was said last.
fn is_other_state(last: Option<BusState>, state: BusState) -> bool
    ensures { result ≡ is_other_state last state }
{
    match last {
        Some(last) => last != state,
        None => true,
    }
}

/// Whether the controller takes part again.
fn is_well(state: BusState) -> bool
    ensures { result ≡ is_well state }
{
    matches!(state, BusState::Active | BusState::Restarted)
}

impl BusTold {
    /// Nothing was said.
    pub(crate) fn new() -> BusTold
        ensures { result ≡ nothing_told }
    {
        BusTold {
            is_unacknowledged: false,
            state: None,
        }
    }

    /// The state of the controller that was said last, if one was.
    pub(crate) fn state(&self) -> Option<BusState>
        ensures { result ≡ self.now.state }
    {
        self.state
    }

    /// The interface says this. What is to be told of it: another state of the controller than the one said last; else that nobody
    /// acknowledges, once until the bus is well.
    pub(crate) fn take(&mut self, error: &CanError) -> Option<ErrorNotice>
        ensures told { result ≡ error_notice self.old error.now }
        ensures behind { self.new ≡ behind_error self.old error.now }
    {
        if let Some(state) = error.state() {
            if is_other_state(self.state, state) {
                self.state = Some(state);
                self.is_unacknowledged = self.is_unacknowledged && !is_well(state);
                return Some(ErrorNotice::State(state));
            }
        }
        if error.is_unacknowledged() && !self.is_unacknowledged {
            self.is_unacknowledged = true;
            return Some(ErrorNotice::Unacknowledged);
        }
        None
    }
}
