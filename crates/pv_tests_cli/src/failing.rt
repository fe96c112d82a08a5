//! Operations with sources that fail after each number of bytes or never end, and with sinks of limited room.
use crate::images::{MOTD, MOTD_LISTING, MOTD_TRACE, made};
use crate::streams::{Cut, Endless, expect_cut, expect_front, front_of, sink_of, slow_front_of};
use pv_cli_host::cli_commands::questions::{Format, Input, Inputs, Question, Turns, answer};
use pv_cli_host::cli_commands::{Failure, Target, Unshown};
use pv_cli_host::run::{list, make_image, run};
use pv_model::{ListFault, RunFault};
use pv_streams::{Bytes, Gathered, SOURCE_BYTES, Sink};
use std::alloc::AllocError;
use std::process::Abort;
use std::test::Fail;

const SCHEDULE: &[u8] = b"1 5\n";

// Checks that a run writes nothing if a source fails.
fn expect_no_run(rt: &(impl Abort + AllocGlobal), mut image: Cut<'_>, mut schedule: Cut<'_>) {
    let mut out = Gathered::new(rt.alloc());
    let mut left = Gathered::new(rt.alloc());
    let ran = run(rt.alloc(), &mut image, &mut schedule, &mut out, &mut left);
    assert_eq!(rt; ran.err(), Some(RunFault::Read));
    assert!(rt; out.bytes.is_empty() && left.bytes.is_empty());
}

// Checks that a truncated image has no listing.
fn expect_no_listing(rt: &(impl Abort + AllocGlobal), mut image: Cut<'_>) {
    let mut out = Gathered::new(rt.alloc());
    let listed = list(rt.alloc(), &mut image, &mut out);
    assert_eq!(rt; listed.err(), Some(ListFault::Read));
    expect_cut(rt, &image);
    assert!(rt; out.bytes.is_empty());
}

#[test]
fn images_that_break_off_give_nothing(rt: HostRuntime) {
    let whole = made(&rt, MOTD);
    for block in 0..17 {
        let end = 512 * block;
        expect_no_listing(&rt, front_of(&whole.bytes, end));
        let turns = front_of(SCHEDULE, SCHEDULE.len());
        expect_no_run(&rt, front_of(&whole.bytes, end), turns);
    }
}

#[test]
fn schedules_that_break_off_give_nothing(rt: HostRuntime) {
    let whole = made(&rt, MOTD);
    let length = whole.bytes.len();
    for end in 0..SCHEDULE.len() + 1 {
        let image = front_of(&whole.bytes, length);
        expect_no_run(&rt, image, front_of(SCHEDULE, end));
    }
}

#[test]
fn sources_without_end_are_refused(rt: HostRuntime) {
    let mut out = Gathered::new(rt.alloc());
    let listed = list(rt.alloc(), &mut Endless { given: 0 }, &mut out);
    assert_eq!(rt; listed.err(), Some(ListFault::Read));
    assert!(rt; out.bytes.is_empty());
}

// Checks that a sink with this room receives a prefix of the listing.
fn expect_listing_front(rt: &(impl Abort + AllocGlobal), image: &[u8], room: usize) {
    let mut out = sink_of(rt, room);
    let listed = list(rt.alloc(), &mut Bytes::new(image), &mut out);
    assert_eq!(rt; listed.err(), Some(ListFault::Write));
    expect_front(rt, &out, MOTD_LISTING, room);
}

#[test]
fn sinks_have_a_prefix_of_what_is_written(rt: HostRuntime) {
    let whole = made(&rt, MOTD);
    for room in 0..MOTD_LISTING.len() {
        expect_listing_front(&rt, &whole.bytes, room);
    }
}

const EXPOSED: &[u8] = b"exposed: process 1, reads descriptor 0\n";

// Returns a copy of bytes.
fn copied(rt: &impl AllocGlobal, bytes: &[u8]) -> Result<Vec<u8>, AllocError> {
    let mut copy = Vec::new(rt.alloc());
    copy.extend_from_slice(bytes)?;
    Ok(copy)
}

// Checks that a sink with this room receives a prefix of the audit.
fn expect_audit_front(
    rt: &(impl Abort + AllocGlobal),
    image: &[u8],
    room: usize,
) -> Result<(), Fail> {
    let mut out = sink_of(rt, room);
    let bytes = copied(rt, image)?;
    assert!(rt; bytes.len() <= SOURCE_BYTES);
    let format = Format::Image;
    let inputs = Inputs {
        input: Input { format, bytes },
        turns: Turns::Text(copied(rt, b"1 2\n")?),
        steps: None,
    };
    let question = Question::Audit(Some("/etc/motd"));
    let mut notes = Vec::new(rt.alloc());
    let written = answer(
        rt.alloc(),
        question,
        inputs,
        &mut notes,
        &mut Unshown,
        &mut out,
    );
    assert_eq!(rt; written.err(), Some(Failure::Write(Target::Output)));
    expect_front(rt, &out, EXPOSED, room);
    Ok(())
}

#[test]
fn sinks_have_a_prefix_of_what_is_audited(rt: HostRuntime) -> Result<(), Fail> {
    let whole = made(&rt, MOTD);
    for room in 0..EXPOSED.len() {
        expect_audit_front(&rt, &whole.bytes, room)?;
    }
    Ok(())
}

// Checks that a run on an image with these sinks ends with this error.
fn expect_run<T: Sink, L: Sink>(
    rt: &(impl Abort + AllocGlobal),
    image: &[u8],
    trace: &mut T,
    left: &mut L,
    fault: RunFault,
) {
    let mut image = Bytes::new(image);
    let mut turns = Bytes::new(SCHEDULE);
    let ran = run(rt.alloc(), &mut image, &mut turns, trace, left);
    assert_eq!(rt; ran.err(), Some(fault));
}

// Checks that no image is written if the sink of the trace fails.
fn expect_trace_front(rt: &(impl Abort + AllocGlobal), image: &[u8], room: usize) {
    let mut trace = sink_of(rt, room);
    let mut left = Gathered::new(rt.alloc());
    expect_run(rt, image, &mut trace, &mut left, RunFault::WriteTrace);
    expect_front(rt, &trace, MOTD_TRACE, room);
    assert!(rt; left.bytes.is_empty());
}

#[test]
fn images_are_written_after_whole_traces(rt: HostRuntime) {
    let whole = made(&rt, MOTD);
    for room in 0..MOTD_TRACE.len() {
        expect_trace_front(&rt, &whole.bytes, room);
    }
}

// Checks that the trace is complete if the sink of the image fails.
fn expect_left_front(rt: &(impl Abort + AllocGlobal), image: &[u8], room: usize) {
    let mut trace = Gathered::new(rt.alloc());
    let mut left = sink_of(rt, room);
    expect_run(rt, image, &mut trace, &mut left, RunFault::WriteImage);
    assert!(rt; trace.bytes.as_slice() == MOTD_TRACE);
    // The run has changed nothing that an image stores.
    expect_front(rt, &left, image, room);
}

#[test]
fn images_are_written_up_to_the_failure(rt: HostRuntime) {
    let whole = made(&rt, MOTD);
    for block in 0..16 {
        expect_left_front(&rt, &whole.bytes, 512 * block);
    }
}

// Checks that a sink with this room receives a prefix of the image of a manifest.
fn expect_image_front(rt: &(impl Abort + AllocGlobal), image: &[u8], room: usize) {
    let mut out = sink_of(rt, room);
    let answer = make_image(rt.alloc(), MOTD, &mut out);
    assert_eq!(rt; answer.err(), Some(RunFault::WriteImage));
    expect_front(rt, &out, image, room);
}

#[test]
fn new_images_are_written_up_to_the_failure(rt: HostRuntime) {
    let whole = made(&rt, MOTD);
    for block in 0..16 {
        expect_image_front(&rt, &whole.bytes, 512 * block);
    }
}
