//! Tests of each kind of line, and of sinks of limited capacity.
ghost use Rattle.pv_trace.specs.Words.{HasFewBytes};

use crate::answers::expect_equal;
use crate::streams::{Narrow, sink_of};
use pv_model::{
    Call, CallRef, Cause, Errno, Mode, OpenFlags, Outcome, Perms, Promise, Start, Taken, Text,
    Whence,
};
use pv_streams::{Buffered, CHUNK, Failed, Sink, write_through, write_whole};
use pv_trace::{
    Direction, Line, LineBuffer, PromiseVerdict, Returned, UnveilVerdict, Word, write_call_lines,
    write_gone_line, write_line,
};
use std::process::Abort;

const FOR_READING: OpenFlags = OpenFlags {
    mode: Mode::Read,
    append: false,
    create: false,
    truncate: false,
    exclusive: false,
    no_follow: false,
    directory: false,
    close_on_exec: false,
};

// Returns a text of these bytes.
fn text<R: Abort>(rt: &R, bytes: &[u8]) -> Text {
    Text::new(bytes).expect(rt, "a text")
}

// Checks the line of a word of process 1.
fn expect_line<R: Abort + AllocGlobal>(rt: &R, word: Word, wanted: &[u8])
    requires { HasFewBytes word }
{
    let mut out = sink_of(rt, 20_000, 20_000);
    let line = Line { pid: 1, word };
    assert!(rt; write_line(&mut out, &line).is_ok());
    assert!(rt; out.bytes.as_slice() == wanted);
    assert!(rt; out.writes == 1);
}

#[test]
fn each_word_has_its_text(rt: HostRuntime) {
    let path = text(&rt, b"/a\"\x01\xff~");
    let call = Call::Close(3);
    expect_line(&rt, Word::Call(call.as_ref()), b"    1 CALL  close(3)\n");
    expect_line(
        &rt,
        Word::Nami(&path),
        b"    1 NAMI  \"/a\\x22\\x01\\xff~\"\n",
    );
    expect_line(
        &rt,
        Word::Pldg(call.as_ref(), Promise::ProtExec, PromiseVerdict::Refused),
        b"    1 PLDG  close, \"prot_exec\", refused\n",
    );
    expect_line(
        &rt,
        Word::Unvl(UnveilVerdict::NoEntry(Perms {
            r: true,
            w: false,
            x: true,
            c: true,
        })),
        b"    1 UNVL  none, needs rxc\n",
    );
    expect_line(
        &rt,
        Word::Unvl(UnveilVerdict::EntryLacks(63, Perms::C)),
        b"    1 UNVL  entry 63, needs c\n",
    );
    expect_line(
        &rt,
        Word::Unvl(UnveilVerdict::Locked),
        b"    1 UNVL  locked\n",
    );
}

// Checks the line of a result of close.
fn expect_return<R: Abort + AllocGlobal>(rt: &R, returned: Returned, wanted: &[u8]) {
    expect_line(rt, Word::Ret(CallRef::Close(3), returned), wanted);
}

#[test]
fn words_of_answers_have_their_texts(rt: HostRuntime) {
    expect_line(
        &rt,
        Word::Gio(Direction::Gave, b"\x00k"),
        b"    1 GIO   read 2 006b\n",
    );
    expect_line(
        &rt,
        Word::Gio(Direction::Took, b""),
        b"    1 GIO   wrote 0\n",
    );
    expect_return(
        &rt,
        Returned::Value(4_294_967_295),
        b"    1 RET   close 4294967295\n",
    );
    expect_return(
        &rt,
        Returned::Error(Errno::ENAMETOOLONG),
        b"    1 RET   close -1 errno 63 ENAMETOOLONG\n",
    );
    expect_line(&rt, Word::Psig, b"    1 PSIG  SIGABRT\n");
    expect_line(&rt, Word::Wait, b"    1 WAIT  blocked\n");
    expect_line(&rt, Word::Gone, b"    1 GONE  no such process\n");
}

#[test]
fn calls_show_their_arguments(rt: HostRuntime) {
    let all = OpenFlags {
        mode: Mode::ReadWrite,
        append: true,
        create: true,
        truncate: true,
        exclusive: true,
        no_follow: true,
        directory: true,
        close_on_exec: true,
    };
    let open = Call::OpenAt(Start::Descriptor(-1), text(&rt, b"f"), all);
    expect_line(
        &rt,
        Word::Call(open.as_ref()),
        b"    1 CALL  openat(-1, \"f\", rw+append+create+trunc+excl+nofollow+dir+cloexec)\n",
    );
    let seek = Call::Lseek(0, -2_147_483_648, Whence::Current);
    expect_line(
        &rt,
        Word::Call(seek.as_ref()),
        b"    1 CALL  lseek(0, -2147483648, cur)\n",
    );
    let link = Call::Link(text(&rt, b"/a"), text(&rt, b""));
    expect_line(
        &rt,
        Word::Call(link.as_ref()),
        b"    1 CALL  link(\"/a\", \"\")\n",
    );
    expect_line(&rt, Word::Call(CallRef::Fork), b"    1 CALL  fork()\n");
}

#[test]
fn longest_lines_are_written_at_once(rt: HostRuntime) {
    let mut out = sink_of(&rt, 20_000, 20_000);
    let call = Call::Rename(text(&rt, &[0; 1_100]), text(&rt, &[255; 1_100]));
    let line = Line {
        pid: 4_294_967_295,
        word: Word::Call(call.as_ref()),
    };
    assert!(rt; write_line(&mut out, &line).is_ok());
    assert!(rt; out.writes == 1);
    assert!(rt; out.bytes.len() == 17 + 7 + 2 * 4_402 + 2 + 1 + 1);
}

#[test]
fn longest_bytes_are_written_at_once(rt: HostRuntime) {
    let mut out = sink_of(&rt, 20_000, 20_000);
    let line = Line {
        pid: 1,
        word: Word::Gio(Direction::Took, &[171; 4_096]),
    };
    assert!(rt; write_line(&mut out, &line).is_ok());
    assert!(rt; out.writes == 1);
    assert!(rt; out.bytes.len() == 12 + 11 + 2 * 4_096 + 1);
    assert!(rt; out.bytes.ends_with(b"abab\n"));
}

const HIDDEN: &[u8] =
    b"    1 CALL  open(\"/a\\x22\\x01\", r)\n    1 NAMI  \"/a\\x22\\x01\"\n    1 UNVL  none, needs r\n    1 RET   open -1 errno 2 ENOENT\n";

// Writes the lines of an open that is hidden to a sink with these limits, and returns the sink and the result.
fn written_of_hidden<R: Abort + AllocGlobal>(
    rt: &R,
    room: usize,
    width: usize,
) -> (Narrow, Result<u8, Failed>) {
    let call = Call::Open(text(rt, b"/a\"\x01"), FOR_READING);
    let outcome = Outcome::Failed(Errno::ENOENT, Cause::Unveil(None));
    let mut out = sink_of(rt, room, width);
    let line_buffer = &mut LineBuffer::new();
    let lines = write_call_lines(&mut out, line_buffer, 1, b"", call.as_ref(), outcome, 1);
    (out, lines)
}

#[test]
fn hidden_open_has_four_lines(rt: HostRuntime) {
    let (out, lines) = written_of_hidden(&rt, 1_000, 1_000);
    assert!(rt; matches!(lines, Ok(4)));
    assert!(rt; out.writes == 1);
    expect_equal(&rt, out.bytes.as_slice(), HIDDEN);
}

#[test]
fn hidden_open_is_written_byte_by_byte(rt: HostRuntime) {
    let (out, lines) = written_of_hidden(&rt, 1_000, 1);
    assert!(rt; lines.is_ok());
    expect_equal(&rt, out.bytes.as_slice(), HIDDEN);
}

// Returns the first `room` bytes.
fn front(bytes: &[u8], room: usize) -> &[u8] {
    if room < bytes.len() {
        &bytes[..room]
    } else {
        bytes
    }
}

// Checks that a sink with insufficient room receives a prefix of the lines, and fails once.
fn expect_prefix<R: Abort + AllocGlobal>(rt: &R, room: usize, width: usize) {
    let (out, lines) = written_of_hidden(rt, room, width);
    assert!(rt; lines.is_err());
    expect_equal(rt, out.bytes.as_slice(), front(HIDDEN, room));
    assert!(rt; out.failures == 1);
}

#[test]
fn full_sink_has_a_prefix_of_the_text(rt: HostRuntime) {
    for room in 0..HIDDEN.len() {
        for width in [1, 7, 1_000] {
            expect_prefix(&rt, room, width);
        }
    }
}

// The outcome of a call, and how it is passed.
#[derive(Clone, Copy)]
struct Written<'a> {
    pid: u32,
    // The first bytes of its buffer.
    buffer: &'a [u8],
    outcome: Outcome,
    walks: u8,
    // Its number of lines.
    count: u8,
}

// Returns the lines of a call, written at once.
fn lines_of<R: Abort + AllocGlobal>(rt: &R, call: CallRef, written: &Written) -> Vec<u8> {
    assert!(rt; written.buffer.len() <= 4_096);
    let mut out = sink_of(rt, 1_000, 1_000);
    let line_buffer = &mut LineBuffer::new();
    let (outcome, walks) = (written.outcome, written.walks);
    let lines = write_call_lines(
        &mut out,
        line_buffer,
        written.pid,
        written.buffer,
        call,
        outcome,
        walks,
    );
    assert!(rt; matches!(lines, Ok(count) if count == written.count));
    assert!(rt; out.writes == 1);
    let Narrow { bytes, .. } = out;
    bytes
}

fn expect_written<R: Abort + AllocGlobal>(rt: &R, call: CallRef, written: &Written, wanted: &[u8]) {
    expect_equal(rt, lines_of(rt, call, written).as_slice(), wanted);
}

#[test]
fn read_shows_the_bytes_it_gave(rt: HostRuntime) {
    let written = Written {
        pid: 99_999,
        buffer: b"abcdef",
        outcome: Outcome::Text(Taken { value: 3, len: 3 }),
        walks: 0,
        count: 3,
    };
    let wanted = b"99999 CALL  read(0, -1)\n99999 GIO   read 3 616263\n99999 RET   read 3\n";
    expect_written(&rt, CallRef::Read(0, -1), &written, wanted);
}

#[test]
fn write_shows_the_bytes_it_took(rt: HostRuntime) {
    let written = Written {
        pid: 1,
        buffer: b"abcdef",
        outcome: Outcome::Value(2),
        walks: 0,
        count: 3,
    };
    let wanted = b"    1 CALL  write(0, 2)\n    1 GIO   wrote 2 6162\n    1 RET   write 2\n";
    expect_written(&rt, Call::Write(0, 2).as_ref(), &written, wanted);
}

#[test]
fn killed_call_ends_with_its_signal(rt: HostRuntime) {
    let call = Call::Unveil(None, Some(text(&rt, b"r")));
    let written = Written {
        pid: 12,
        buffer: b"",
        outcome: Outcome::Killed(Promise::Unveil),
        walks: 0,
        count: 3,
    };
    let wanted =
        b"   12 CALL  unveil(null, \"r\")\n   12 PLDG  unveil, \"unveil\", killed\n   12 PSIG  SIGABRT\n";
    expect_written(&rt, call.as_ref(), &written, wanted);
}

fn rename_call<R: Abort>(rt: &R) -> Call {
    Call::Rename(text(rt, b"/a"), text(rt, b"/b"))
}

#[test]
fn rename_reports_the_walks_that_it_began(rt: HostRuntime) {
    let call = rename_call(&rt);
    let written = Written {
        pid: 1,
        buffer: b"",
        outcome: Outcome::Failed(Errno::EACCES, Cause::Unveil(Some(1))),
        walks: 2,
        count: 5,
    };
    let wanted =
        b"    1 CALL  rename(\"/a\", \"/b\")\n    1 NAMI  \"/a\"\n    1 NAMI  \"/b\"\n    1 UNVL  entry 1, needs c\n    1 RET   rename -1 errno 13 EACCES\n";
    expect_written(&rt, call.as_ref(), &written, wanted);
}

#[test]
fn rename_that_began_one_walk_reports_one(rt: HostRuntime) {
    let call = rename_call(&rt);
    let written = Written {
        pid: 1,
        buffer: b"",
        outcome: Outcome::Failed(Errno::ENOENT, Cause::Plain),
        walks: 1,
        count: 3,
    };
    lines_of(&rt, call.as_ref(), &written);
}

#[test]
fn exit_has_its_call_alone(rt: HostRuntime) {
    let written = Written {
        pid: 1,
        buffer: b"",
        outcome: Outcome::Exited,
        walks: 0,
        count: 1,
    };
    expect_written(&rt, CallRef::Exit(0), &written, b"    1 CALL  exit(0)\n");
}

// Writes the lines of the step to a sink with these limits, and returns the sink and whether the write succeeded.
fn written_of_gone<R: Abort + AllocGlobal>(rt: &R, room: usize, width: usize) -> (Narrow, bool) {
    let mut out = sink_of(rt, room, width);
    let as_written = write_gone_line(&mut out, &mut LineBuffer::new(), 2).is_ok();
    (out, as_written)
}

#[test]
fn step_of_a_process_that_is_gone_has_one_line(rt: HostRuntime) {
    let (out, as_written) = written_of_gone(&rt, 1_000, 1_000);
    assert!(rt; as_written);
    expect_equal(&rt, out.bytes.as_slice(), b"    2 GONE  no such process\n");
    let (out, as_written) = written_of_gone(&rt, 11, 2);
    assert!(rt; !as_written);
    expect_equal(
        &rt,
        out.bytes.as_slice(),
        b"    2 GONE  ".as_slice().split_at(11).0,
    );
}

// The capacity of the buffer plus 9.
const MORE: usize = CHUNK + 9;

fn expect_whole<R: Abort>(rt: &R, out: &mut Buffered<Narrow>, bytes: &[u8]) {
    assert!(rt; write_whole(out, bytes).is_ok());
}

// Checks whether a flush succeeds.
fn expect_flush<R: Abort>(rt: &R, out: &mut Buffered<Narrow>, flushed: bool) {
    assert!(rt; out.flush().is_ok() == flushed);
}

// Checks the number of writes to a sink.
fn expect_writes<R: Abort>(rt: &R, out: &Buffered<Narrow>, writes: u64) {
    assert!(rt; out.sink().writes == writes);
}

// Checks the number of bytes of a sink, and its last bytes.
fn expect_bytes<R: Abort>(rt: &R, out: &Buffered<Narrow>, count: usize, last: &[u8]) {
    assert!(rt; out.sink().bytes.len() == count);
    assert!(rt; out.sink().bytes.ends_with(last));
}

// Creates a sink that was written five bytes, which are still buffered, and then a whole chunk.
fn with_a_component<R: Abort + AllocGlobal>(rt: &R) -> Buffered<Narrow> {
    let mut out = Buffered::new(rt.alloc(), sink_of(rt, 2 * MORE, 2 * MORE));
    expect_whole(rt, &mut out, b"abc");
    expect_whole(rt, &mut out, b"de");
    expect_writes(rt, &out, 0);
    expect_whole(rt, &mut out, &[7; CHUNK]);
    out
}

#[test]
fn chunks_are_flushed_when_they_are_full(rt: HostRuntime) {
    let mut out = with_a_component(&rt);
    expect_writes(&rt, &out, 1);
    expect_bytes(&rt, &out, 5, b"abcde");
    expect_flush(&rt, &mut out, true);
    expect_writes(&rt, &out, 2);
    expect_bytes(&rt, &out, CHUNK + 5, b"");
}

// Writes bytes and flushes them, and checks whether this succeeds.
fn expect_through<R: Abort>(rt: &R, out: &mut Buffered<Narrow>, bytes: &[u8], flushed: bool) {
    assert!(rt; write_through(out, bytes).is_ok() == flushed);
}

fn expect_failures<R: Abort>(rt: &R, out: &Buffered<Narrow>, failures: u64) {
    assert!(rt; out.sink().failures == failures);
}

#[test]
fn more_than_a_component_is_written_through(rt: HostRuntime) {
    let mut out = with_a_component(&rt);
    expect_flush(&rt, &mut out, true);
    expect_through(&rt, &mut out, &[8; MORE], true);
    expect_bytes(&rt, &out, CHUNK + 5 + MORE, b"\x08\x08");
    expect_failures(&rt, &out, 0);
}

// Checks that a sink receives the bytes that it has room for, and that another flush adds none.
fn expect_room<R: Abort + AllocGlobal>(rt: &R, room: usize) {
    let mut out = Buffered::new(rt.alloc(), sink_of(rt, room, 2));
    expect_whole(rt, &mut out, b"abcde");
    expect_flush(rt, &mut out, false);
    expect_failures(rt, &out, 1);
    expect_bytes(rt, &out, room, front(b"abcde", room));
    expect_flush(rt, &mut out, false);
    expect_bytes(rt, &out, room, front(b"abcde", room));
    expect_through(rt, &mut out, b"f", false);
}

#[test]
fn what_is_not_flushed_stays_buffered(rt: HostRuntime) {
    for room in 0..5 {
        expect_room(&rt, room);
    }
}
