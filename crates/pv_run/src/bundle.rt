//! Runs of bundles.
ghost use Rattle.std.specs.Prelude.{◌≡◌, ◌≤◌, length, Some, Ok, IfOk, IfErr};
ghost use Rattle.pv_model.specs.Machine.{program_of, bundle_started, boot};
ghost use Rattle.pv_run.specs.Run.{IsStartError, RefusesStart, RunsBundle, RunsGiven, started_from};

use crate::turns::{Ready, Summary, make_turns, start_on};
use pv_image_manifest::{Bundle, build};
use pv_model::RunFault;
use pv_streams::{SOURCE_BYTES, Sink, Source, read_whole};
use std::alloc::Global;

/// Returns the start of a bundle's run: the machine and the schedule.
///
/// The manifest, its entries, the schedule and the program of `init` are checked in this order.
///
/// # Errors
///
/// - `Manifest`, `Schedule`, `Init`: the first error, in the order of the checks. Each names the first line with such an
///   error.
/// - `Memory`: there is no memory.
pub fn start_bundle(alloc: Global, bytes: &[u8]) -> Result<Ready, RunFault>
    requires { length bytes.now ≤ SOURCE_BYTES }
    ensures asked { IfOk result (λ r. bundle_started bytes.now ≡ Ok (started_from r.session r.schedule)) }
    ensures machine { IfOk result (λ r. boot program_of r.session.tree ≡ Some r.session) }
    ensures fault { IfErr result (λ f. RefusesStart f (bundle_started bytes.now)) }
    ensures kind { IfErr result IsStartError }
{
    let bundle = Bundle::parse(alloc, bytes)?;
    let store = build(alloc, &bundle.manifest)?;
    start_on(alloc, store, &bytes[bundle.schedule_at..])
}

// Runs the bundle in `bytes`.
fn run_bytes<W: Sink>(alloc: Global, bytes: &[u8], trace: &mut W) -> Result<Summary, RunFault>
    requires { length bytes.now ≤ SOURCE_BYTES }
    ensures { RunsGiven W.Sink (λ holds. holds bytes.now) ⊥ trace.old trace.new result }
{
    let mut ready = start_bundle(alloc, bytes)?;
    make_turns(alloc, &mut ready, trace)
}

/// Runs a bundle: a manifest, the line `schedule`, and a schedule.
///
/// The bundle is read to its end. Then its manifest, the entries of the manifest, the schedule and the program of
/// `init` are checked in this order, and nothing is written before all of them have passed. Then the lines of each step
/// are written before the next step is made. On success, `trace` received exactly the text of the machine's run on the
/// manifest's tree, all of it flushed, and the summary counts its steps and its lines.
///
/// # Errors
///
/// - `Read`: a read failed, or the source gave more than 67,108,864 bytes.
/// - `Manifest`, `Schedule`, `Init`: the first error of the bundle, in the order of the checks. Each names the first
///   line with such an error.
/// - `Memory`: there is no memory. After the first line is written, only an execve(2) that leads to an executable file
///   allowed by the process's table needs memory. `trace` then received exactly the lines of the earlier steps.
/// - `WriteTrace`: a write failed. `trace` received a prefix of the text, and no step was made after it.
///
/// After any other error nothing was written. Except after `WriteTrace`, everything that was written is flushed.
pub fn run_tree<S: Source, W: Sink>(
    alloc: Global,
    bundle: &mut S,
    trace: &mut W,
) -> Result<Summary, RunFault>
    ensures { RunsBundle S.Source W.Sink bundle.old bundle.new trace.old trace.new result }
{
    let bytes = read_whole(alloc, bundle)?;
    run_bytes(alloc, &bytes, trace)
}
