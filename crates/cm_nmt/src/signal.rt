ghost use Rattle.std.specs.Prelude.{◌≡◌, ◌≢◌, ◌%◌, MatchOption};
ghost use Rattle.cm_nmt.specs.Codes.{signal_code, signal_of};

use crate::NmtState;

/// What an error control message tells: CAN identifier 700h + node-ID and one byte (CiA 301).
#[derive(Clone, Copy, Debug, PartialEq, Eq)]
pub enum Signal {
    /// The device has booted; it enters pre-operational by itself.
    BootUp,
    /// The device's state.
    State(NmtState),
}

impl Signal {
    ghost use Rattle.cm_nmt.specs.declared.signal.Signal.{Signal as AnySignal};

    /// The signal of the message's byte; `None` exactly where no signal has its lower seven bits. Bit
    /// 7, the toggle bit of node guarding, is masked (own).
    pub fn read(byte: u8) -> Option<Signal>
        ensures exact { MatchOption result
            ((s : AnySignal) → signal_code s ≢ byte % 128)
            (λ s. signal_code s ≡ byte % 128) }
        ensures value { result ≡ signal_of byte }
    {
        match byte % 128 {
            0 => Some(Signal::BootUp),
            code => Some(Signal::State(NmtState::from_code(code)?)),
        }
    }
}
