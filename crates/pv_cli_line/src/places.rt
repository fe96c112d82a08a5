//! The explanation of a path or a process that an answer is about and that the machine does not have.
use crate::lines::push_excerpt;
use pv_cli_commands::questions::Question;
use pv_cli_commands::{Asking, Command};
use pv_model::{AuditFault, Errno};
use std::alloc::{AllocError, Global};

// The path that a command names in a tree.
fn path_of(command: Command<'_>) -> Option<&str> {
    match command {
        Command::Ask(
            Asking {
                question: Question::Audit(path) | Question::Reasons(path),
                ..
            },
        ) => path,
        Command::Ask(
            Asking {
                question: Question::File(path),
                ..
            },
        ) => Some(path),
        _ => None,
    }
}

// Returns why a path does not name a file, in words.
fn reason_of(fault: AuditFault) -> &'static str {
    match fault {
        AuditFault::NotFile => "is not a file",
        AuditFault::Walk(Errno::ENOENT) => "does not exist",
        AuditFault::Walk(Errno::ENOTDIR) => "leads through a file that is not a directory",
        AuditFault::Walk(Errno::ELOOP) => "leads through more than 32 links",
        AuditFault::Walk(Errno::ENAMETOOLONG) => "is too long, or has a name that is too long",
        AuditFault::Walk(_) => "cannot be walked",
    }
}

// Appends the path of a command that does not name a file, the reason, and the command that lists the files. `name` is
// the file of the input.
pub(crate) fn push_path(
    alloc: Global,
    out: &mut Vec<u8>,
    command: Command<'_>,
    name: &str,
    fault: AuditFault,
) -> Result<(), AllocError> {
    let Some(path) = path_of(command) else {
        return Ok(());
    };
    out.extend_from_slice(b"  path '")?;
    push_excerpt(alloc, out, path.as_bytes())?;
    let reason = reason_of(fault);
    let is_of_tree = matches!(
        command,
        Command::Ask(Asking {
            question: Question::File(_),
            ..
        })
    );
    let further = if is_of_tree {
        "; expected a file that 'pvsim ls' lists"
    } else {
        " after the run; expected a file that 'pvsim audit' lists without a path"
    };
    out.extend_from_slice(format!(in alloc; "': {reason} in {name}{further}\n")?.as_bytes())
}

// Appends the process of a command that is not live, and the command that lists the processes.
pub(crate) fn push_process(
    alloc: Global,
    out: &mut Vec<u8>,
    command: Command<'_>,
    name: &str,
) -> Result<(), AllocError> {
    let Command::Ask(
        Asking {
            question: Question::Reach(Some(pid)),
            ..
        },
    ) = command
    else {
        return Ok(());
    };
    let line = format!(in alloc;
        "  process {pid}: not live in {name} after the run; expected a process that 'pvsim state' lists as live\n"
    )?;
    out.extend_from_slice(line.as_bytes())
}
