ghost use Rattle.std.specs.Prelude.{◌≡◌};
ghost use Rattle.cm_nmt.specs.Got.{has_value, is_answered, is_refusal, is_value};

/// What a slave gave to a read or a write.
#[derive(Clone, Copy, Debug, Default, PartialEq, Eq)]
pub enum Got {
    /// The question wasn't asked.
    #[default]
    NotAsked,
    /// No answer came.
    Silent,
    /// The slave aborted the transfer with this code.
    Abort(u32),
    /// The value that was read.
    Value(u32),
}

impl Got {
    /// Whether the question was asked.
    pub fn is_answered(self) -> bool
        ensures { result ≡ is_answered self }
    {
        !matches!(self, Got::NotAsked)
    }

    /// Whether a value was read.
    pub(crate) fn has_value(self) -> bool
        ensures { result ≡ has_value self }
    {
        matches!(self, Got::Value(_))
    }

    /// Whether this value was read.
    pub fn is_value(self, expected: u32) -> bool
        ensures { result ≡ is_value self expected }
    {
        match self {
            Got::Value(value) => value == expected,
            _ => false,
        }
    }

    /// Whether the question was asked and failed: an abort or silence.
    pub(crate) fn is_refusal(self) -> bool
        ensures { result ≡ is_refusal self }
    {
        matches!(self, Got::Silent | Got::Abort(_))
    }
}
