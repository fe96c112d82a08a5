//! The files that no step of a search reads or executes.
ghost use Rattle.std.specs.Prelude.{◌≡◌, ◌++◌, ◌∷◌, [], codes, filter, map, IfOk, OnOk};
ghost use Rattle.pv_model_questions.specs.Accesses.{kept_files};
ghost use Rattle.pv_named_files.specs.FirstPaths.{files_given, first_tree};
ghost use Rattle.pv_access.specs.Unread.{files_without_note, is_without_note, singleton_if, unread_file_line, unread_lines};
ghost use Rattle.pv_model.specs.Machine.{named_files, answer_bytes, answer_line_bytes, find_entry, root};
ghost use Rattle.pv_streams.specs.Sinks.{FailsBy, Writes, WritesOr};

use crate::word::NodeBrief;
use pv_model::limits::ROOT;
use pv_named_files::{FirstPaths, named_files, note_of};
use pv_reduced::answers::Line;
use pv_reduced::explore_crate::Searched;
use pv_streams::{Failed, Fragment, Sink, Stop};
use pv_tree::Tree;
use std::alloc::{AllocError, Global};

// Returns the node at `/init`, if there is one.
fn init_of(tree: &Tree) -> Option<u16>
    ensures { result ≡ find_entry tree.now.tree root (codes "init") }
{
    // The contract of `sizes` states that the tree is well-formed.
    let _ = tree.sizes();
    tree.find(ROOT, b"init")
}

// Returns whether a file is not the one at `/init`, and no step of a search read or executed it.
fn is_unread(alloc: Global, tree: &Tree, searched: &Searched, file: u16) -> Result<bool, AllocError>
    ensures { IfOk result (λ unread. unread ≡ is_without_note tree.now.tree searched.now.texts file) }
{
    if init_of(tree) == Some(file) {
        return Ok(false);
    }
    let note = note_of(alloc, file)?;
    Ok(!searched.has_text(&note))
}

// Appends a number.
fn push_number(numbers: &mut Vec<u16>, number: u16) -> Result<(), AllocError>
    ensures { OnOk result (numbers.new.items ≡ numbers.old.items ++ number ∷ []) }
{
    numbers.push(number)?;
    Ok(())
}

// Appends a file, if it is not the one at `/init` and no step of a search read or executed it.
fn push_unread(
    alloc: Global,
    tree: &Tree,
    searched: &Searched,
    files: &mut Vec<u16>,
    file: u16,
) -> Result<(), AllocError>
    ensures { OnOk result (files.new.items ≡ files.old.items ++ singleton_if (is_without_note tree.now.tree searched.now.texts file) file) }
{
    if is_unread(alloc, tree, searched, file)? {
        return push_number(files, file);
    }
    Ok(())
}

// Returns those of files that are not the one at `/init` and that no step of a search read or executed.
fn unread_among(
    alloc: Global,
    tree: &Tree,
    searched: &Searched,
    named: &[u16],
) -> Result<Vec<u16>, AllocError>
    ensures { IfOk result (λ files. files.items ≡ filter (is_without_note tree.now.tree searched.now.texts) named.now) }
{
    let mut files = Vec::new(alloc);
    for file in named {
        push_unread(alloc, tree, searched, &mut files, *file)?;
    }
    Ok(files)
}

// Returns the files of a tree, except the one at `/init`, that no step of a search read or executed.
fn unread_files(alloc: Global, tree: &Tree, searched: &Searched) -> Result<Vec<u16>, AllocError>
    ensures { IfOk result (λ files. files.items ≡ files_without_note tree.now.tree searched.now.texts) }
{
    let named = named_files(alloc, tree)?;
    unread_among(alloc, tree, searched, &named)
}

// Writes the line of an unread file.
#[tactic(auto, unfolding(pv_model::specs::Trace::text_line))]
fn write_file<W: Sink>(out: &mut W, tree: &Tree, file: u16) -> Result<(), Failed>
    ensures { Writes W.Sink (answer_line_bytes (unread_file_line tree.now.tree file)) out.old out.new result }
{
    let line = Line {
        pid: 0,
        word: *b"UNRD",
        text: NodeBrief { tree, node: file },
    };
    line.write(out)
}

// Writes the lines of unread files.
fn write_files<W: Sink>(out: &mut W, tree: &Tree, files: &[u16]) -> Result<(), Failed>
    ensures { Writes W.Sink (answer_bytes (map (unread_file_line tree.now.tree) files.now)) out.old out.new result }
{
    for file in files {
        write_file(out, tree, *file)?;
    }
    Ok(())
}

// Returns those of the unread files that are kept.
fn kept_unread_files(
    alloc: Global,
    paths: &FirstPaths<'_>,
    searched: &Searched,
) -> Result<Vec<u16>, AllocError>
    ensures { IfOk result (λ files. files.items ≡ kept_files (files_given paths.now) (first_tree paths.now) (files_without_note (first_tree paths.now) searched.now.texts)) }
{
    let files = unread_files(alloc, paths.tree, searched)?;
    paths.kept(alloc, paths.tree, &files)
}

// Writes a line UNRD for each file of the first tree that is kept, in the order of a listing, each once, that is not the
// file at `/init` and that no step of a search read or executed.
fn write_unread_files<W: Sink>(
    alloc: Global,
    paths: &FirstPaths<'_>,
    searched: &Searched,
    out: &mut W,
) -> Result<(), Stop>
    ensures { WritesOr W.Sink FailsBy (answer_bytes (map (unread_file_line (first_tree paths.now)) (kept_files (files_given paths.now) (first_tree paths.now) (files_without_note (first_tree paths.now) searched.now.texts)))) out.old out.new result }
{
    let Ok(files) = kept_unread_files(alloc, paths, searched) else {
        return Err(Stop::Memory);
    };
    Ok(write_files(out, paths.tree, &files)?)
}

/// Writes a line UNRD for each file of the first tree that is kept, in the order of a listing, each once, that is not the
/// file at `/init` and that no step of a search read or executed. Writes nothing if the search is not complete.
///
/// # Errors
///
/// - `Memory`, if there is no memory.
/// - `Write`, if a write failed. The sink received a prefix of the lines.
#[tactic(auto, using(pv_streams::proofs::OutputTexts::written_none))]
pub(crate) fn write_unread<W: Sink>(
    alloc: Global,
    paths: &FirstPaths<'_>,
    searched: &Searched,
    out: &mut W,
) -> Result<(), Stop>
    ensures { WritesOr W.Sink FailsBy (answer_bytes (unread_lines (first_tree paths.now) (files_given paths.now) searched.now.texts searched.now.complete)) out.old out.new result }
{
    if searched.complete {
        return write_unread_files(alloc, paths, searched, out);
    }
    Ok(())
}
