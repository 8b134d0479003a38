use crate::port::Port;
use cm_receiving::BusName;

/// What is said with a device beside the questions of a boot, as when it is asked for its name. It needs no clause: a port takes requests
/// alone, nothing of a talk stands in the log of a bus, and a frame that it hears answers no question.
pub trait Talk<B: BusName> {
    /// Talks over a port; an answer is waited for so many ms.
    fn over<P: Port<B>>(&mut self, port: &mut P, wait_ms: u32);
}
