//! `novacrash`: a crash tester for persistent-memory routines, over the files and the standard streams of the system.
#![tactic(auto)]

use host::{Disk, run, words};
use std::process::ExitCode;

fn main(rt: HostRuntime) -> ExitCode {
    run(
        &rt,
        words(&rt),
        &mut Disk::new(&rt),
        &mut rt.stdin(),
        &mut rt.stdout(),
        &mut rt.stderr(),
    )
}
