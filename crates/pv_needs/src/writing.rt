//! The lines of the records.
ghost use Rattle.std.specs.Prelude.{◌≡◌, ◌≤◌, flat_map, length};
ghost use Rattle.pv_needs.specs.RecordedLines.{recorded_lines, recorded_process_lines, recorded_promise_lines, recorded_promises_lines, recorded_image_lines, recorded_target_lines, recorded_times_text};
ghost use Rattle.pv_model.specs.Machine.{answer_bytes};
ghost use Rattle.pv_streams.specs.Sinks.{Writes};

use crate::process_images::{ProcessImage, ProcessImages, Recorded, RecordedTarget, Times};
use pv_answers::{Letters, Line};
use pv_model::Promise;
use pv_promises::ALL;
use pv_streams::{Count, Failed, Fragment, Plain, Sink};

// A count in words, with the line of the last call.
#[derive(Clone, Copy)]
struct TimesWords<'a> {
    // The counted object.
    what: &'a [u8],
    // The count and the line of the last.
    times: Times,
}

impl<'a> Fragment for TimesWords<'a> {
    ghost text = { λ p. recorded_times_text p.what.now p.times };

    fn write<W: Sink>(&self, out: &mut W) -> Result<(), Failed> {
        let count = (
            Plain(b", "),
            Plain(self.what),
            Plain(b" "),
            Count(self.times.count),
        );
        let last = Count(u64::from(self.times.last));
        (count, Plain(b", last line "), last).write(out)
    }
}

// Writes the line of a promise, if a call needed it.
fn write_promise<W: Sink>(
    out: &mut W,
    pid: u32,
    promise: Promise,
    times: Times,
) -> Result<(), Failed>
    ensures { Writes W.Sink (answer_bytes (recorded_promise_lines pid promise times)) out.old out.new result }
{
    if times.count == 0 {
        return Ok(());
    }
    let text = (
        Plain(promise.name().as_bytes()),
        TimesWords {
            what: b"calls",
            times,
        },
    );
    Line {
        pid,
        word: *b"PLDG",
        text,
    }
    .write(out)
}

// Writes the line of a target.
fn write_target_line<W: Sink>(out: &mut W, pid: u32, target: &RecordedTarget) -> Result<(), Failed>
    ensures { Writes W.Sink (answer_bytes (recorded_target_lines pid target.now)) out.old out.new result }
{
    let times = TimesWords {
        what: b"walks",
        times: target.times,
    };
    let text = (
        Letters(target.judged.permissions()),
        Plain(b", "),
        Plain(target.judged.words()),
        times,
    );
    Line {
        pid,
        word: *b"UNVL",
        text,
    }
    .write(out)
}

// Writes the lines of the promises that calls needed.
fn write_promises<W: Sink>(
    out: &mut W,
    pid: u32,
    all: &[Promise],
    promises: &[Times],
) -> Result<(), Failed>
    requires { length promises.now ≡ length all.now }
    ensures { Writes W.Sink (answer_bytes (recorded_promises_lines pid all.now promises.now)) out.old out.new result }
{
    for (k, promise) in all.iter().enumerate() {
        write_promise(out, pid, *promise, promises[k])?;
    }
    Ok(())
}

// Writes the lines of targets.
fn write_targets<W: Sink>(out: &mut W, pid: u32, targets: &[RecordedTarget]) -> Result<(), Failed>
    ensures { Writes W.Sink (answer_bytes (flat_map (recorded_target_lines pid) targets.now)) out.old out.new result }
{
    for target in targets {
        write_target_line(out, pid, target)?;
    }
    Ok(())
}

// Writes the lines of a process image, with its number.
fn write_process_image<W: Sink>(
    out: &mut W,
    pid: u32,
    number: u64,
    process_image: &ProcessImage,
) -> Result<(), Failed>
    ensures { Writes W.Sink (answer_bytes (recorded_image_lines pid (number, process_image.now))) out.old out.new result }
{
    let line = Line {
        pid,
        word: *b"STNT",
        text: Count(number),
    };
    line.write(out)?;
    write_promises(out, pid, &ALL, process_image.promises())?;
    write_targets(out, pid, process_image.targets())
}

// Writes the lines of the process images of a process.
fn write_process<W: Sink>(
    out: &mut W,
    pid: u32,
    process_images: &[ProcessImage],
) -> Result<(), Failed>
    ensures { Writes W.Sink (answer_bytes (recorded_process_lines pid process_images.now)) out.old out.new result }
{
    for (k, process_image) in process_images.iter().enumerate() {
        write_process_image(out, pid, k as u64 + 1, process_image)?;
    }
    Ok(())
}

// Writes the lines of processes, by process number.
fn write_processes<W: Sink>(out: &mut W, processes: &[ProcessImages]) -> Result<(), Failed>
    requires { length processes.now ≤ 4294967296 }
    ensures { Writes W.Sink (answer_bytes (recorded_lines processes.now)) out.old out.new result }
{
    for (pid, process_images) in processes.iter().enumerate() {
        write_process(out, pid as u32, process_images.as_slice())?;
    }
    Ok(())
}

/// Writes the lines of all records.
///
/// # Errors
///
/// `Failed`, if a write failed. The sink received a prefix of the lines.
pub(crate) fn write_recorded<W: Sink>(out: &mut W, recorded: &Recorded) -> Result<(), Failed>
    ensures { Writes W.Sink (answer_bytes (recorded_lines recorded.now)) out.old out.new result }
{
    write_processes(out, recorded.as_slice())
}
