//! Runs on images.
ghost use Rattle.std.specs.Prelude.{◌≡◌, ◌⊎◌, ◌≤◌, length, Some, Ok, Err, IfOk, IfErr, OnOk};
ghost use Rattle.pv_model.specs.Machine.{program_of, mounted, image_started, boot, Rose};
ghost use Rattle.pv_run.specs.Images.{BeginsNamedImage, IsImageError, IsWriteError, RunsGivenImage, RunsImage, WrittenImage};
ghost use Rattle.pv_run.specs.Run.{RefusesStart, started_from};

use crate::turns::{Ready, Summary, make_turns, start_on};
use pv_image_mount::mount;
use pv_image_write::{WriteFault, write_tree};
use pv_model::{ImageFault, RunFault};
use pv_streams::{SOURCE_BYTES, Sink, Source, read_whole};
use pv_tree::{Store, Tree};
use std::alloc::Global;

// Returns the store of the tree in an image. `listed` says whether all its directories will be listed, so that it pays
// to sort their entries.
fn store_of(alloc: Global, image: Vec<u8>, listed: bool) -> Result<Store, ImageFault>
    ensures mounted { IfOk result (λ store. mounted image.items ≡ Ok store) }
    ensures refused { IfErr result (λ fault. (fault ≡ ImageFault.Memory) ⊎ (mounted image.items ≡ Err fault)) }
{
    let mut store = mount(alloc, image)?;
    if listed {
        store.order_entries();
    }
    Ok(store)
}

/// Returns the start of a run on an image, given the text of the schedule. `listed` says whether all directories of the
/// image will be listed, so that it pays to sort their entries.
///
/// # Errors
///
/// - `Image`, `Schedule`, `Init`: the first error, in this order. Each names the first inode or the first line with such
///   an error.
/// - `Memory`: there is no memory.
pub fn start_image(
    alloc: Global,
    image: Vec<u8>,
    schedule: &[u8],
    listed: bool,
) -> Result<Ready, RunFault>
    ensures asked { IfOk result (λ r. image_started image.items schedule.now ≡ Ok (started_from r.session r.schedule)) }
    ensures machine { IfOk result (λ r. boot program_of r.session.tree ≡ Some r.session) }
    ensures fault { IfErr result (λ f. RefusesStart f (image_started image.items schedule.now)) }
    ensures kind { IfErr result IsImageError }
{
    let store = store_of(alloc, image, listed)?;
    start_on(alloc, store, schedule)
}

/// Writes an image of a tree: its root and the nodes that have a name, under their numbers, with the sizes and the
/// version of the tree.
///
/// # Errors
///
/// - `Memory`, if there is no memory. Nothing was written.
/// - `WriteImage`, if a write failed. The sink received a prefix of the bytes.
pub fn write_image<O: Sink>(alloc: Global, tree: &Tree, image: &mut O) -> Result<(), RunFault>
    ensures whole { OnOk result (WrittenImage tree.now.tree (O.written image.old) (O.written image.new)) }
    ensures cut { result ≡ Err RunFault.WriteImage → BeginsNamedImage tree.now.tree (O.written image.old) (O.written image.new) }
    ensures failed { result ≡ Err RunFault.WriteImage → Rose (O.failures image.old) (O.failures image.new) }
    ensures memory { result ≡ Err RunFault.Memory → O.written image.new ≡ O.written image.old }
    ensures flushed { OnOk result (O.buffered image.new ≡ 0) }
    ensures kind { IfErr result IsWriteError }
{
    match write_tree(alloc, tree, image) {
        Ok(()) => Ok(()),
        Err(WriteFault::Memory) => Err(RunFault::Memory),
        Err(WriteFault::Write) => Err(RunFault::WriteImage),
    }
}

/// Runs a schedule on an image, given the bytes of both, as `run` does.
///
/// # Errors
///
/// As for `run`, without `Read`.
pub fn run_image<W: Sink, O: Sink>(
    alloc: Global,
    bytes: Vec<u8>,
    schedule: &[u8],
    trace: &mut W,
    image: &mut O,
) -> Result<Summary, RunFault>
    requires { length schedule.now ≤ SOURCE_BYTES }
    ensures { RunsGivenImage W.Sink O.Sink (λ holds. holds bytes.items schedule.now) ⊥ trace.old trace.new image.old image.new result }
{
    let mut ready = start_image(alloc, bytes, schedule, true)?;
    let summary = make_turns(alloc, &mut ready, trace)?;
    write_image(alloc, ready.session.parts().tree(), image)?;
    Ok(summary)
}

/// Runs a schedule on an image.
///
/// The image and the schedule are read to their ends. Then the image, the schedule and the program of `init` are
/// checked in this order, and nothing is written before all of them have passed. Then the lines of each step are
/// written before the next step is made. At the end an image of the resulting tree is written: its root and the nodes
/// that have a name, under their numbers, with the sizes and the version of the image. On success, `trace` received
/// exactly the text of the machine's run on the image's tree, `image` received bytes that hold the machine's last tree,
/// both are flushed, and the summary counts the steps and the lines.
///
/// # Errors
///
/// - `Read`: a read failed, or a source gave more than 67,108,864 bytes.
/// - `Image`, `Schedule`, `Init`: the first error, in the order of the checks. Each names the first inode or the first
///   line with such an error.
/// - `Memory`: there is no memory, and no image was written. After the first line is written, only an execve(2) that
///   leads to an executable file allowed by the process's table needs memory during the run. `trace` then received
///   exactly the lines of the earlier steps. If memory runs out after the run, the trace is complete.
/// - `WriteTrace`: a write failed. `trace` received a prefix of the text, no step was made after it, and no image was
///   written.
/// - `WriteImage`: a write failed. The trace is complete, and `image` received a prefix of the bytes.
///
/// After any other error nothing was written. Except after `WriteTrace`, everything that was written to the trace is
/// flushed.
pub fn run<I: Source, S: Source, W: Sink, O: Sink>(
    alloc: Global,
    bytes: &mut I,
    schedule: &mut S,
    trace: &mut W,
    image: &mut O,
) -> Result<Summary, RunFault>
    ensures { RunsImage I.Source S.Source W.Sink O.Sink bytes.old bytes.new schedule.old schedule.new trace.old trace.new image.old image.new result }
{
    let bytes = read_whole(alloc, bytes)?;
    let schedule = read_whole(alloc, schedule)?;
    run_image(alloc, bytes, &schedule, trace, image)
}
