ghost use Rattle.std.specs.Prelude.{◌≡◌, ◌≢◌, MatchOption};
ghost use Rattle.cm_nmt.specs.Codes.{state_code, state_of_code};

/// The NMT state of a device, or of the master itself (CiA 301).
#[derive(Clone, Copy, Debug, PartialEq, Eq)]
pub enum NmtState {
    Stopped,
    Operational,
    PreOperational,
}

impl NmtState {
    ghost use Rattle.cm_nmt.specs.declared.state.NmtState.{NmtState as State};

    /// The state's number in an error control message.
    pub fn code(self) -> u8
        ensures code { result ≡ state_code self }
    {
        match self {
            NmtState::Stopped => 4,
            NmtState::Operational => 5,
            NmtState::PreOperational => 127,
        }
    }

    /// The state that has this number; `None` exactly where no state has it.
    pub fn from_code(code: u8) -> Option<NmtState>
        ensures exact { MatchOption result
            ((s : State) → state_code s ≢ code)
            (λ s. state_code s ≡ code) }
        ensures value { result ≡ state_of_code code }
    {
        match code {
            4 => Some(NmtState::Stopped),
            5 => Some(NmtState::Operational),
            127 => Some(NmtState::PreOperational),
            _ => None,
        }
    }
}
