//! Runs of a bundle whose source or sink fails, and the counts of a run.
use crate::images::MOTD_TRACE;
use crate::streams::{Cut, expect_cut, expect_front, front_of, sink_of, slow_front_of};
use pv_cli_host::run::{Summary, run_tree};
use pv_model::RunFault;
use pv_streams::{Bytes, Gathered, Source};
use std::process::Abort;

const MOTD: &[u8] =
    b"image 16 16\ndir \"/etc\"\nbytes \"/etc/motd\" \"hello\"\nexec \"/init\" 5\npledge \"stdio rpath\" null\nopen \"/etc/motd\" r\nread r0 100\nclose 0\nexit 0\nschedule\n1 5\n";

// Returns the result of a bundle's run, and the trace that it writes.
fn traced<S: Source>(
    rt: &impl AllocGlobal,
    bundle: &mut S,
) -> (Result<Summary, RunFault>, Gathered) {
    let mut trace = Gathered::new(rt.alloc());
    let result = run_tree(rt.alloc(), bundle, &mut trace);
    (result, trace)
}

#[test]
fn summary_counts_steps_and_lines(rt: HostRuntime) {
    let (result, _trace) = traced(&rt, &mut Bytes::new(MOTD));
    assert!(rt;
        result
            == Ok(Summary {
                steps: 5,
                lines: 11
            })
    );
}

// Checks that a truncated bundle is not run.
fn expect_no_run(rt: &(impl Abort + AllocGlobal), mut bundle: Cut<'_>) {
    let (result, trace) = traced(rt, &mut bundle);
    assert!(rt; result == Err(RunFault::Read));
    expect_cut(rt, &bundle);
    assert!(rt; trace.bytes.is_empty());
}

#[test]
fn source_that_fails_is_written(rt: HostRuntime) {
    for length in 0..MOTD.len() + 1 {
        expect_no_run(&rt, front_of(MOTD, length));
        expect_no_run(&rt, slow_front_of(MOTD, length));
    }
}

// Checks that a sink with this room receives a prefix of the trace.
fn expect_trace_front(rt: &(impl Abort + AllocGlobal), room: usize) {
    let mut trace = sink_of(rt, room);
    let result = run_tree(rt.alloc(), &mut Bytes::new(MOTD), &mut trace);
    assert!(rt; result == Err(RunFault::WriteTrace));
    expect_front(rt, &trace, MOTD_TRACE, room);
}

#[test]
fn sink_that_fails_has_a_prefix(rt: HostRuntime) {
    for room in 0..MOTD_TRACE.len() {
        expect_trace_front(&rt, room);
    }
}
