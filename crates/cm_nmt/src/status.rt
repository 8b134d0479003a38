ghost use Rattle.std.specs.Prelude.{◌≡◌};
ghost use Rattle.cm_nmt.specs.Status.{is_good, is_missing, is_ok, is_retried, status_letter};

/// What a boot came to: the error statuses of CiA 302-2, boot slave, without H and I, which
/// belong to program download.
#[derive(Clone, Copy, Debug, PartialEq, Eq)]
pub enum Status {
    /// No error: the slave may be started.
    Ok,
    /// The slave isn't listed.
    A,
    /// No value of 1000h came.
    B,
    /// The device type isn't the expected one.
    C,
    /// The vendor-ID isn't the expected one.
    D,
    /// No heartbeat came at the state check.
    E,
    /// No guard response came at the state check.
    F,
    /// The objects of program download aren't configured.
    G,
    /// A write of the configuration failed.
    J,
    /// No beat came when error control started.
    K,
    /// The slave was operational before the boot, and stays so.
    L,
    /// The product code isn't the expected one.
    M,
    /// The revision number isn't the expected one.
    N,
    /// The serial number isn't the expected one.
    O,
}

impl Status {
    /// The status's letter, `Ok` for no error.
    pub fn letter(self) -> &'static str
        ensures { result.now ≡ status_letter self }
    {
        match self {
            Status::Ok => "Ok",
            Status::A => "A",
            Status::B => "B",
            Status::C => "C",
            Status::D => "D",
            Status::E => "E",
            Status::F => "F",
            Status::G => "G",
            Status::J => "J",
            Status::K => "K",
            Status::L => "L",
            Status::M => "M",
            Status::N => "N",
            Status::O => "O",
        }
    }

    /// Whether the slave is booted: Ok, or L, found operational and kept alive.
    pub fn is_good(self) -> bool
        ensures { result ≡ is_good self }
    {
        matches!(self, Status::Ok | Status::L)
    }

    /// Whether the slave may be started: no error.
    pub fn is_ok(self) -> bool
        ensures { result ≡ is_ok self }
    {
        matches!(self, Status::Ok)
    }

    /// Whether the boot may be tried again: B, no device type was read.
    pub fn is_retried(self) -> bool
        ensures { result ≡ is_retried self }
    {
        matches!(self, Status::B)
    }

    /// Whether the slave wasn't there: B, E, F, K.
    pub fn is_missing(self) -> bool
        ensures { result ≡ is_missing self }
    {
        matches!(self, Status::B | Status::E | Status::F | Status::K)
    }
}
