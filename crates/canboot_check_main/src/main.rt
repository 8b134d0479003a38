//! `canboot replay`, `canboot mend` and `canboot check NET`, as a program of their own: it is proved
//! sooner than the whole of canboot, which also boots networks. Its output and its exit statuses are the
//! same.
#![tactic(auto)]

use std::process::ExitCode;

fn main(rt: HostRuntime) -> ExitCode {
    ExitCode::from(crate::program::run(&rt, &mut rt.stderr()))
}

mod program;
