ghost use Rattle.std.specs.Prelude.{⊤, ◌≡◌, [], ◌∷◌, codes};
ghost use Rattle.cm_can.specs.Errors.{bus_state_of, is_unacknowledged, state_of_controller};
ghost use Rattle.cm_nmt.specs.Bits.{has_bit};

use bitflags::{Flag, Flags, bitflag_items};

/// What an error frame is about (Linux, `linux/can/error.h`: the error class). Bits without a name are carried and mean nothing
/// here.
#[derive(Clone, Copy, Debug, PartialEq, Eq)]
pub struct ErrorClass(pub u16);

bitflag_items! {
    impl ErrorClass: u16 {
        const CONTROLLER = 4;
        const NO_ACKNOWLEDGEMENT = 32;
        const BUS_OFF = 64;
        const RESTARTED = 256;
    }
}

impl Flags for ErrorClass {
    type Bits = u16;

    ghost exact = { ⊤ };

    ghost table = { (codes "CONTROLLER", 4)
        ∷ (codes "NO_ACKNOWLEDGEMENT", 32)
        ∷ (codes "BUS_OFF", 64)
        ∷ (codes "RESTARTED", 256)
        ∷ [] };

    ghost set_of = { λ c. c.0 };

    fn flags<'a>() -> &'a [Flag<ErrorClass>] {
        ErrorClass::FLAGS
    }

    fn bits(&self) -> u16 {
        self.0
    }

    fn from_bits_retain(bits: u16) -> ErrorClass {
        ErrorClass(bits)
    }
}

/// What an error frame about the CAN controller says of it (Linux, `linux/can/error.h`: data byte 1).
#[derive(Clone, Copy, Debug, PartialEq, Eq)]
pub struct ControllerError(pub u8);

bitflag_items! {
    impl ControllerError: u8 {
        const RECEIVE_WARNING = 4;
        const SEND_WARNING = 8;
        const RECEIVE_PASSIVE = 16;
        const SEND_PASSIVE = 32;
        const ACTIVE = 64;
    }
}

impl Flags for ControllerError {
    type Bits = u8;

    ghost exact = { ⊤ };

    ghost table = { (codes "RECEIVE_WARNING", 4)
        ∷ (codes "SEND_WARNING", 8)
        ∷ (codes "RECEIVE_PASSIVE", 16)
        ∷ (codes "SEND_PASSIVE", 32)
        ∷ (codes "ACTIVE", 64)
        ∷ [] };

    ghost set_of = { λ c. c.0 };

    fn flags<'a>() -> &'a [Flag<ControllerError>] {
        ControllerError::FLAGS
    }

    fn bits(&self) -> u8 {
        self.0
    }

    fn from_bits_retain(bits: u8) -> ControllerError {
        ControllerError(bits)
    }
}

/// How the CAN controller takes part in the bus (ISO 11898-1, fault confinement).
#[derive(Clone, Copy, Debug, PartialEq, Eq)]
pub enum BusState {
    /// It takes part without limits.
    Active,
    /// It does, and has counted many errors.
    Warning,
    /// It may no longer disturb what others send.
    Passive,
    /// It takes no part any more.
    Off,
    /// It was restarted behind that.
    Restarted,
}

impl ControllerError {
    /// The state of the controller, if that is what it says.
    pub fn state(&self) -> Option<BusState>
        ensures { result ≡ state_of_controller self.now.0 }
    {
        if self.contains(ControllerError::RECEIVE_PASSIVE)
            || self.contains(ControllerError::SEND_PASSIVE)
        {
            Some(BusState::Passive)
        } else if self.contains(ControllerError::RECEIVE_WARNING)
            || self.contains(ControllerError::SEND_WARNING)
        {
            Some(BusState::Warning)
        } else if self.contains(ControllerError::ACTIVE) {
            Some(BusState::Active)
        } else {
            None
        }
    }
}

/// An error frame: no frame of the bus, but what the interface says of it (Linux, `linux/can/error.h`).
#[derive(Clone, Copy, Debug, PartialEq, Eq)]
pub struct CanError {
    pub class: ErrorClass,
    pub controller: ControllerError,
}

impl CanError {
    /// Whether it says that no other node acknowledges what is sent.
    pub fn is_unacknowledged(&self) -> bool
        ensures { result ≡ is_unacknowledged self.now }
    {
        self.class.contains(ErrorClass::NO_ACKNOWLEDGEMENT)
    }

    /// The state of the controller, if it says one: off precedes restarted, and both precede what is said of the controller.
    pub fn state(&self) -> Option<BusState>
        ensures { result ≡ bus_state_of self.now }
    {
        if self.class.contains(ErrorClass::BUS_OFF) {
            Some(BusState::Off)
        } else if self.class.contains(ErrorClass::RESTARTED) {
            Some(BusState::Restarted)
        } else if self.class.contains(ErrorClass::CONTROLLER) {
            self.controller.state()
        } else {
            None
        }
    }
}
