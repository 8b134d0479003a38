ghost use Rattle.std.specs.Prelude.{◌≡◌};
ghost use Rattle.cm_history.specs.Answering.{refusal_number};

/// Why a call is refused (own).
#[derive(Clone, Copy, Debug, PartialEq, Eq)]
pub enum Refusal {
    /// 1: the device isn't the NMT master, 1F80h bit 0.
    NotMaster,
    /// 2: the network was started, and its boot isn't given up.
    AlreadyStarted,
    /// 3: the network wasn't started; for a begin also: its boot was given up.
    NotStarted,
    /// 4: the node isn't listed; for a request, nor the own node-ID nor all.
    NotListed,
    /// 5: the slave has a session.
    Busy,
    /// 6: the slave is booted.
    AlreadyBooted,
    /// 7: the slave has no session of that number.
    Stale,
    /// 8: no boot of this slave gives these answers.
    BadReport,
    /// 9: no error control message has this byte.
    BadState,
    /// 10: no such target.
    BadTarget,
    /// 11: no such value of 1F82h.
    BadValue,
    /// 12: a mandatory slave isn't booted, so neither all nodes nor the manager are started.
    MandatoryOpen,
    /// 13: a reset of the manager itself.
    OwnReset,
    /// 14: the slave is held.
    Held,
    /// 15: the slave isn't held.
    NotHeld,
}

impl Refusal {
    /// The number in the reply.
    #[inline(always)]
    pub fn number(self) -> u8
        ensures { result ≡ refusal_number self }
    {
        match self {
            Refusal::NotMaster => 1,
            Refusal::AlreadyStarted => 2,
            Refusal::NotStarted => 3,
            Refusal::NotListed => 4,
            Refusal::Busy => 5,
            Refusal::AlreadyBooted => 6,
            Refusal::Stale => 7,
            Refusal::BadReport => 8,
            Refusal::BadState => 9,
            Refusal::BadTarget => 10,
            Refusal::BadValue => 11,
            Refusal::MandatoryOpen => 12,
            Refusal::OwnReset => 13,
            Refusal::Held => 14,
            Refusal::NotHeld => 15,
        }
    }
}
