//! The accesses of all schedules.
ghost use Rattle.std.specs.Prelude.{◌≡◌, ◌≤◌, IfOk};
ghost use Rattle.pv_access.specs.Unread.{last_lines};
ghost use Rattle.pv_model.specs.Machine.{answer_bytes};
ghost use Rattle.pv_access.specs.Answers.{access_lines_by};
ghost use Rattle.pv_named_files.specs.FirstPaths.{files_given, first_tree, path_texts};
ghost use Rattle.pv_reduced.specs.Kinds.{is_complete_by};
ghost use Rattle.pv_streams.specs.ProperPrefixes.{StopsInside};
ghost use Rattle.pv_streams.specs.Sinks.{FailsBy, Writes, WritesOr};

use crate::observer::search_accesses;
use crate::unread::write_unread;
use pv_named_files::FirstPaths;
use pv_reduced::SearchKind;
use pv_reduced::explore_crate::{FirstMachine, Progress, Searched};
use pv_streams::{Sink, Stop};
use std::alloc::Global;
use std::marker::Brand;

// Writes the unread files that are kept, if the search is complete, and then the number of states.
fn write_last<W: Sink>(
    alloc: Global,
    kind: SearchKind,
    paths: &FirstPaths<'_>,
    searched: &Searched,
    out: &mut W,
) -> Result<(), Stop>
    ensures written { WritesOr W.Sink FailsBy (answer_bytes (last_lines (first_tree paths.now) (files_given paths.now) kind searched.now.texts searched.now.states searched.now.complete)) out.old out.new result }
    ensures part { StopsInside W.Sink (answer_bytes (last_lines (first_tree paths.now) (files_given paths.now) kind searched.now.texts searched.now.states searched.now.complete)) out.old out.new result }
{
    write_unread(alloc, paths, searched, out)?;
    Ok(kind.write_count(out, searched.states, searched.complete)?)
}

// Writes the accesses of all schedules, and the lines after them. Returns whether no state was left out.
fn write_accesses<W: Sink, P: Progress>(
    alloc: Global,
    kind: SearchKind,
    first_machine: &FirstMachine,
    states: u32,
    paths: &FirstPaths<'_>,
    progress: &mut P,
    out: &mut W,
) -> Result<bool, Stop>
    requires states { 1 ≤ states }
    requires first { first_tree paths.now ≡ first_machine.now.tree }
    ensures written { WritesOr W.Sink FailsBy (answer_bytes (access_lines_by (files_given paths.now) kind states first_machine.now)) out.old out.new result }
    ensures complete { IfOk result (λ complete. complete ≡ is_complete_by kind states first_machine.now) }
    ensures part { StopsInside W.Sink (answer_bytes (access_lines_by (files_given paths.now) kind states first_machine.now)) out.old out.new result }
{
    let searched = search_accesses::<Brand, W, P>(
        alloc,
        kind,
        paths,
        first_machine,
        states,
        progress,
        out,
    )?;
    write_last(alloc, kind, paths, &searched, out)?;
    Ok(searched.complete)
}

/// Writes the accesses of each process under any schedule. The search, of the given kind, visits at most `states`
/// states, in breadth-first order from the first state of a machine. For each access of a step whose line no earlier
/// access has, it writes a BY line with a shortest witness, that is, a schedule that leads to this step, and then the
/// line of the access:
///
/// - READ, EXEC, WRIT: the file that the call reads, executes or writes;
/// - NAME: a name that the call creates, removes or changes;
/// - TELL: the node that the call reports;
/// - OPEN: the mode and the node of the new descriptor.
///
/// A node whose path in the first tree is another one is described with that path too. If `files` has a path, lines are
/// kept only if they are about a name with such a path, or about a node that had such a path in the first tree, or has it.
///
/// If no state was left out, it then writes a line UNRD for each file of the first tree that is kept, in the order of a
/// listing, that is not the file at `/init` and that no step reads or executes. The last line, DONE, has the number of
/// visited states, and whether no state was left out. Returns whether no state was left out.
///
/// If so, each access of each step in each schedule is among those written: see `pv_laws_schedules` and
/// `pv_laws_classes::shown`.
///
/// `progress` shows the state of the search. It ends before the lines UNRD, also if the search fails.
///
/// # Errors
///
/// - `Memory`, if there is no memory. The sink received a proper prefix of the lines.
/// - `Write`, if a write failed. The sink received a prefix of the lines.
pub fn write_access<W: Sink, P: Progress>(
    alloc: Global,
    kind: SearchKind,
    first_machine: &FirstMachine,
    states: u32,
    files: &[Option<&[u8]>],
    progress: &mut P,
    out: &mut W,
) -> Result<bool, Stop>
    requires { 1 ≤ states }
    ensures written { WritesOr W.Sink FailsBy (answer_bytes (access_lines_by (path_texts files.now) kind states first_machine.now)) out.old out.new result }
    ensures complete { IfOk result (λ complete. complete ≡ is_complete_by kind states first_machine.now) }
    ensures part { StopsInside W.Sink (answer_bytes (access_lines_by (path_texts files.now) kind states first_machine.now)) out.old out.new result }
{
    let Ok(paths) = FirstPaths::new(alloc, first_machine.tree(), files) else {
        return Err(Stop::Memory);
    };
    write_accesses(alloc, kind, first_machine, states, &paths, progress, out)
}
