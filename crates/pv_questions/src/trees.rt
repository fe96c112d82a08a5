//! The tree of an input, and the machines that boot on it.
ghost use Rattle.std.specs.Prelude.{◌≡◌, ◌≤◌, length, Ok, IfOk, IfErr};
ghost use Rattle.pv_questions.specs.Failures.{IsFailureOf};
ghost use Rattle.pv_questions.specs.Trees.{GivesManifestOf, machine_in, manifest_in, read_manifest_of, input_tree};

use crate::failure::Failure;
use crate::input::{Format, Input};
use pv_compare::explore::FirstMachine;
use pv_image_manifest::{Bundle, Manifest, build};
use pv_image_mount::mount;
use pv_model::ManifestFault;
use pv_run::session_crate::Session;
use pv_streams::SOURCE_BYTES;
use pv_tree::Store;
use std::alloc::Global;

// Parses the manifest of a bundle, or a manifest alone.
#[tactic(auto, unfolding(crate::specs::Trees::read_manifest_of))]
fn parse(alloc: Global, bytes: &[u8]) -> Result<Manifest, ManifestFault>
    requires { length bytes.now ≤ SOURCE_BYTES }
    ensures { GivesManifestOf result (read_manifest_of bytes.now) }
{
    let refused = match Bundle::parse(alloc, bytes) {
        Ok(bundle) => return Ok(bundle.manifest),
        Err(fault) => fault,
    };
    match refused {
        ManifestFault::Form(_) => Manifest::parse(alloc, bytes),
        fault => Err(fault),
    }
}

/// Returns the manifest in `bytes`, alone or in a bundle.
///
/// # Errors
///
/// `Refused` with the first error of the manifest, or `Memory`.
pub fn manifest_of(alloc: Global, bytes: &[u8]) -> Result<Manifest, Failure>
    requires { length bytes.now ≤ SOURCE_BYTES }
    ensures read { IfOk result (λ m. GivesManifestOf (Ok m) (read_manifest_of bytes.now)) }
    ensures refused { IfErr result (IsFailureOf (manifest_in bytes.now)) }
{
    Ok(parse(alloc, bytes)?)
}

/// Returns the store of the tree of an input. `listed` says whether all its directories will be listed, so that it pays
/// to sort their entries.
///
/// # Errors
///
/// `Refused` with the first error of the input, or `Memory`.
#[tactic(auto, unfolding(crate::specs::Trees::input_tree))]
pub fn store_of(alloc: Global, input: Input, listed: bool) -> Result<Store, Failure>
    ensures held { IfOk result (λ store. input_tree input.format input.bytes.items ≡ Ok store) }
    ensures refused { IfErr result (IsFailureOf (input_tree input.format input.bytes.items)) }
{
    let Input { format, bytes } = input;
    match format {
        Format::Text => {
            let manifest = parse(alloc, &bytes)?;
            Ok(build(alloc, &manifest)?)
        }
        Format::Image => {
            let mut store = mount(alloc, bytes)?;
            if listed {
                store.order_entries();
            }
            Ok(store)
        }
    }
}

// Returns the machine that boots on the tree of an input, before its first step.
pub(crate) fn session_on(alloc: Global, input: Input) -> Result<Session, Failure>
    ensures machine { IfOk result (λ session. machine_in input.format input.bytes.items ≡ Ok session) }
    ensures refused { IfErr result (IsFailureOf (machine_in input.format input.bytes.items)) }
{
    let store = store_of(alloc, input, false)?;
    store.invariant();
    Ok(Session::new(alloc, store)?)
}

// Returns the first machine of a search on the tree of an input.
pub(crate) fn first_machine_on(alloc: Global, input: Input) -> Result<FirstMachine, Failure>
    ensures machine { IfOk result (λ machine. machine_in input.format input.bytes.items ≡ Ok machine) }
    ensures refused { IfErr result (IsFailureOf (machine_in input.format input.bytes.items)) }
{
    let store = store_of(alloc, input, true)?;
    store.invariant();
    Ok(FirstMachine::new(alloc, store)?)
}
