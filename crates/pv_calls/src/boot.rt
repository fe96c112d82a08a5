//! The machine before its first step.
ghost use Rattle.std.specs.Prelude.{◌≡◌, ◌⊎◌, IfOk, IfErr, Ok, Err};
ghost use Rattle.pv_laws_states.specs.States.{IsFirstTree, IsValid};
ghost use Rattle.pv_model.specs.Machine.{booted, find_entry};

use pv_audit::calls_state::Parts;
use pv_audit::namei::Lookup;
use pv_audit::tree::Store;
use pv_calls_path::links::LinkRoom;
use pv_calls_path::programs::init;
use pv_calls_path::system::System;
use pv_model::BootFault;
use std::alloc::Global;

/// Returns the machine before the first step on a tree, with a lookup that agrees with it. Process 1 runs the program
/// of the file `init` in the root, or the empty program if that name does not exist.
///
/// # Errors
///
/// - `Init(0)`, if `init` is not an executable file.
/// - `Init(n)`, if line n is the first line of its program that is not an instruction.
/// - `Memory`, if there is no memory.
pub fn boot<L: Lookup + Drop>(
    alloc: Global,
    store: Store,
    lookup: L,
) -> Result<System<L>, BootFault>
    requires first { IsFirstTree store }
    requires agrees { L.agrees lookup (find_entry store) }
    ensures booted { IfOk result (λ system. booted store ≡ Ok system.parts) }
    ensures whole { IfOk result (λ system. IsValid system.parts) }
    ensures agrees { IfOk result (λ system. L.agrees system.lookup (find_entry system.parts.tree)) }
    ensures refused { IfErr result
        (λ fault. (fault ≡ BootFault.Memory) ⊎ (booted store ≡ Err fault)) }
{
    let program = match init(alloc, store.tree()) {
        Ok(program) => program,
        Err(fault) => return Err(fault),
    };
    let parts = Parts::new(alloc, store, program)?;
    Ok(System {
        parts,
        lookup,
        links: LinkRoom::new(),
    })
}
