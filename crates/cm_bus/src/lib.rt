//! A CAN bus that is talked over: it is opened, each worker asks and hears over a port of it, and NMT messages are written to it.
//!
//! A [`LiveBus`] asks each question of a boot in a frame (CiA 301, CiA 302-2), and takes the first frame that answers it, of those that
//! are read behind the request; else the question is answered with silence, when its time is over. What went over the bus is kept in a
//! log, which contracts see. A [`LiveWire`] sends NMT frames. Both write through an [`Outlet`], lines of can-utils or of a serial
//! adapter, each by one write; how frames come in, what was read by now, and what time is, a [`Port`] knows. Beside a boot, a device
//! says what it is ([`identify`]), and whatever a [`Talk`] asks it.
//!
//! [`BusPaths`] says where a bus is, and [`open_bus`] opens it. What threads share that use it is a [`Setting`], by these
//! [`BusOptions`]: one thread reads frames ([`start_receiving`]) and gives each to whom it is for ([`make_routes`]), and each worker has
//! a bus over a [`LivePort`] ([`make_bus`]). Frames and whom they are for are those of `cm_receiving`; no call of a manager is made here.
#![tactic(auto)]

mod bus;
mod bus_paths;
mod caused_outlet;
mod event;
mod identifying;
mod live_port;
mod making;
mod opening;
mod options;
mod outlet;
mod patience;
mod port;
mod setting;
mod talk;
mod wire;

pub use bus::LiveBus;
pub use bus_paths::BusPaths;
pub use caused_outlet::{CausedOutlet, outlets_of};
pub use event::PortEvent;
pub use identifying::{Identity, identify};
pub use live_port::LivePort;
pub use making::{NoThread, make_bus, make_routes, start_receiving};
pub use opening::{Unopened, channel_closing, channel_opening, format_of, open_bus, writers_to};
pub use options::{BusOptions, LiveOptions};
pub use outlet::Outlet;
pub use patience::Patience;
pub use port::Port;
pub use setting::{Setting, set_up};
pub use talk::Talk;
pub use wire::LiveWire;
