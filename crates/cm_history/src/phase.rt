ghost use Rattle.std.specs.Prelude.{◌≡◌};
ghost use Rattle.cm_history.specs.Phases.{is_idle, is_booting, is_ready, is_halted};

/// How far the manager has come with its network (own).
#[derive(Clone, Copy, Debug, PartialEq, Eq)]
pub enum Phase {
    /// Never started.
    Idle,
    /// Started; a mandatory slave isn't booted yet, or the readiness test is still to come.
    Booting,
    /// Every mandatory slave was booted.
    Ready,
    /// A mandatory slave failed its boot, or the time was up.
    Halted,
}

impl Phase {
    /// Whether the network was never started.
    pub fn is_idle(self) -> bool
        ensures { result ≡ is_idle self }
    {
        matches!(self, Phase::Idle)
    }

    /// Whether the mandatory slaves are being booted.
    pub fn is_booting(self) -> bool
        ensures { result ≡ is_booting self }
    {
        matches!(self, Phase::Booting)
    }

    /// Whether every mandatory slave was booted.
    pub fn is_ready(self) -> bool
        ensures { result ≡ is_ready self }
    {
        matches!(self, Phase::Ready)
    }

    /// Whether the boot of the network was given up.
    pub fn is_halted(self) -> bool
        ensures { result ≡ is_halted self }
    {
        matches!(self, Phase::Halted)
    }
}
