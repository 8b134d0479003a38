//! On what canboot runs.

use std::fs::File;
use std::rt::Files;
use std::sync::Wait;
use std::thread::Threads;
use std::time::Clock;

/// On what a command runs that talks over a bus: files, the time, memory, and threads.
pub trait Host: Files<File = File>
    + Clock
    + AllocGlobal
    + Wait
    + Threads
    + Clone
    + Send
    + Sync
    + Drop
    + 'static {}

impl<
    R: Files<File = File>
        + Clock
        + AllocGlobal
        + Wait
        + Threads
        + Clone
        + Send
        + Sync
        + Drop
        + 'static,
> Host for R {}
