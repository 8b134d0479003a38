ghost use Rattle.std.specs.Prelude.{◌≡◌};
ghost use Rattle.cm_nmt.specs.Heard.{is_heard, is_operational, is_other_state, is_silent};

use crate::state::NmtState;

/// What was heard of a slave's state.
#[derive(Clone, Copy, Debug, Default, PartialEq, Eq)]
pub enum Heard {
    /// The question wasn't asked.
    #[default]
    NotAsked,
    /// No answer came.
    Silent,
    /// The state that the slave gave.
    State(NmtState),
}

impl Heard {
    /// Whether the question was asked.
    pub fn is_heard(self) -> bool
        ensures { result ≡ is_heard self }
    {
        !matches!(self, Heard::NotAsked)
    }

    /// Whether the question was asked and no answer came.
    pub fn is_silent(self) -> bool
        ensures { result ≡ is_silent self }
    {
        matches!(self, Heard::Silent)
    }

    /// Whether the slave said that it is operational.
    pub fn is_operational(self) -> bool
        ensures { result ≡ is_operational self }
    {
        matches!(self, Heard::State(NmtState::Operational))
    }

    /// Whether the slave gave a state other than operational.
    pub fn is_other_state(self) -> bool
        ensures { result ≡ is_other_state self }
    {
        matches!(
            self,
            Heard::State(NmtState::Stopped | NmtState::PreOperational)
        )
    }
}
