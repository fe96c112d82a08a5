//! `pv_demo`: runs the bundle on the standard input, and writes its trace, as `pvsim` without arguments does.
//!
//! It depends only on the crates of a run, so that `rt try` builds it in a third of the time that `pvsim` takes. The
//! bundle is read completely, and the trace is written after the run. The contract of `run_tree`, over these bytes,
//! states everything that is proved of the program.
#![tactic(auto)]

use pv_model::RunFault;
use pv_run::run_tree;
use pv_streams::{Bytes, Gathered};
use std::io::{Read, Write};
use std::process::ExitCode;

// Runs the bundle, and writes its trace. If the run ends early, the lines of the steps before that are written.
fn run(rt: &HostRuntime) -> Result<(), RunFault> {
    let alloc = rt.alloc();
    let mut bundle = Vec::new(alloc);
    if rt.reader().read_to_end(&mut bundle).is_err() {
        return Err(RunFault::Read);
    }
    let mut trace = Gathered::new(alloc);
    let ran = run_tree(alloc, &mut Bytes::new(&bundle), &mut trace);
    if rt.stdout().write_all(&trace.bytes).is_err() {
        return Err(RunFault::WriteTrace);
    }
    ran?;
    Ok(())
}

fn main(rt: HostRuntime) -> ExitCode {
    match run(&rt) {
        Ok(()) => ExitCode::from(0),
        Err(fault) => {
            let _written = eprint!(&rt; "pv_demo: {fault}\n");
            ExitCode::from(1)
        }
    }
}
