//! Loading of programs from files.
ghost use Rattle.std.specs.Prelude.{◌≡◌, ◌⊎◌, IfOk, IfErr, IsTrue, Ok, Err};
ghost use Rattle.pv_model.specs.Machine.{bytes_of, read_program as program_encoded, is_file, node_at};
ghost use Rattle.pv_model.specs.RunFault.{of_init};
ghost use Rattle.pv_model.specs.Start.{init_of, program_in};
ghost use Rattle.pv_calls_plain.specs.OfScript.Reading.{GivesProgram};

use pv_calls_plain::script::Program;
use pv_model::limits::ROOT;
use pv_model::{BootFault, Kind, ParseFault};
use pv_namei::tree::Tree;
use std::alloc::Global;

/// Parses the bytes of a file as a program.
pub(crate) fn read_program(alloc: Global, tree: &Tree, node: u16) -> Result<Program, ParseFault>
    requires { IsTrue (is_file (node_at tree.now.tree node)) }
    ensures { GivesProgram result (program_encoded (bytes_of (node_at tree.now.tree node))) }
{
    let size = tree.size(node) as usize;
    let mut bytes = vec![in alloc; 0; size]?;
    let _read = tree.read_at(node, 0, &mut bytes);
    Program::parse(alloc, &bytes)
}

// Converts a parse error in `init` to an error of the boot.
fn boot_fault(fault: ParseFault) -> BootFault
    ensures { result ≡ of_init fault }
{
    match fault {
        ParseFault::Line(line, _) => BootFault::Init(line),
        ParseFault::Memory => BootFault::Memory,
    }
}

/// Loads the program of the file `init` in the root. If that name does not exist, the program is empty.
///
/// # Errors
///
/// - `Init(0)`, if `init` is not an executable file.
/// - `Init(n)`, if line n is the first line of its program that is not an instruction.
/// - `Memory`, if there is no memory for the program.
pub fn init(alloc: Global, tree: &Tree) -> Result<Program, BootFault>
    ensures program { IfOk result (λ program. program_in (init_of tree.now.tree) ≡ Ok program) }
    ensures refused { IfErr result
        (λ fault. (fault ≡ BootFault.Memory) ⊎ (program_in (init_of tree.now.tree) ≡ Err fault)) }
{
    tree.invariant();
    let Some(node) = tree.find(ROOT, b"init") else {
        return Ok(Program::empty(alloc)?);
    };
    if tree.kind(node) != Kind::Executable {
        return Err(BootFault::Init(0));
    }
    match read_program(alloc, tree, node) {
        Ok(program) => Ok(program),
        Err(fault) => Err(boot_fault(fault)),
    }
}
