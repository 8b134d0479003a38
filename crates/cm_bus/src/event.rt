use cm_can::CanFrame;

/// What goes over a port while a question is asked.
#[derive(Clone, Copy, Debug, PartialEq, Eq)]
pub enum PortEvent {
    /// This frame was handed to the port, which sends it.
    Sent(CanFrame),
    /// This frame was heard: the port gave it.
    Heard(CanFrame),
    /// The time for an answer was over.
    Expired,
}
