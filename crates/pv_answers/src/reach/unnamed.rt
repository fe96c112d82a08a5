//! The permissions of a process where no name of the tree leads: absent names, removed directories, files without a
//! name.
ghost use Rattle.std.specs.Prelude.{◌≡◌, ◌<◌, length, IsNone};
ghost use Rattle.pv_answers.specs.Reaching.{absent_line, absent_lines, directory_lines, is_absent_in, may_line, opened_at, removed_words, reacher_state, reacher_table, unnamed_line, unnamed_lines, unnamed_words};
ghost use Rattle.pv_model.specs.Machine.{node_path, entries_of_table, is_removed};
ghost use Rattle.pv_streams.specs.Sinks.{Writes};

use crate::lines::Letters;
use crate::nodes::{NameWords, NodeWords, has_path};
use crate::reach::reacher::{AndDescriptor, Governor, Reacher, opened, permitted, write_may};
use pv_calls_state::tree::Tree;
use pv_model::Target;
use pv_model::limits::DESCRIPTORS;
use pv_streams::{Decimal, Failed, Fragment, Plain, Sink};

// Returns whether a directory is in no entry.
fn is_removed(tree: &Tree, directory: u16) -> bool
    ensures { result ≡ is_removed tree.now.tree directory }
{
    // The contract of `sizes` states that the tree is well-formed.
    let _ = tree.sizes();
    !has_path(tree, directory)
}

// Returns whether a name does not exist, in a directory that is not removed.
fn is_absent(tree: &Tree, directory: u16, name: &[u8]) -> bool
    ensures { result ≡ is_absent_in tree.now.tree directory name.now }
{
    if is_removed(tree, directory) {
        return false;
    }
    !tree.is_directory(directory) || tree.find(directory, name).is_none()
}

// Writes the line of a table entry if its target is an absent name. The first entry for that name governs it.
fn write_absent<W: Sink>(out: &mut W, reacher: &Reacher<'_>, number: u8) -> Result<(), Failed>
    requires { number < length (entries_of_table (reacher_table reacher.now)) }
    ensures { Writes W.Sink (absent_line reacher.now number) out.old out.new result }
{
    let table = &reacher.owned.unveiled;
    let tree = reacher.parts.tree();
    let target = table.target(number);
    let Target::Name { dir, name } = target else {
        return Ok(());
    };
    if !is_absent(tree, *dir, name.as_slice()) {
        return Ok(());
    }
    let letters = Letters(permitted(reacher.owned, table.entry_for(target)));
    let words = NameWords {
        tree,
        directory: *dir,
        name: name.as_slice(),
    };
    let number = Decimal(u32::from(number));
    let text = (
        letters,
        Plain(b" "),
        words,
        Plain(b", entry "),
        number,
        Plain(b", absent"),
    );
    write_may(out, reacher, text)
}

/// Writes a line for each table entry, by ascending number, whose target is an absent name in a directory that is not
/// removed: the permissions of a process there.
///
/// # Errors
///
/// `Failed`, if a write failed. The sink received a prefix of the lines.
pub(crate) fn write_absents<W: Sink>(out: &mut W, reacher: &Reacher<'_>) -> Result<(), Failed>
    ensures { Writes W.Sink (absent_lines reacher.now) out.old out.new result }
{
    for number in 0..reacher.owned.unveiled.len() as u8 {
        write_absent(out, reacher, number)?;
    }
    Ok(())
}

// A removed directory, with the permissions of a process there and its governor. Only its own entry can govern it.
#[derive(Clone, Copy)]
struct Removed<'a> {
    reacher: Reacher<'a>,
    node: u16,
}

impl<'a> Fragment for Removed<'a> {
    ghost text = { λ d. removed_words d.reacher d.node };

    fn write<W: Sink>(&self, out: &mut W) -> Result<(), Failed> {
        let table = &self.reacher.owned.unveiled;
        let entry = table.directory_entry(self.node);
        let letters = Letters(permitted(self.reacher.owned, entry));
        let words = NodeWords {
            tree: self.reacher.parts.tree(),
            node: self.node,
        };
        let governor = Governor { table, entry };
        (letters, Plain(b" "), words, Plain(b", "), governor).write(out)
    }
}

/// Writes a line for the working directory, if it is removed: the permissions of a process there.
///
/// # Errors
///
/// `Failed`, if a write failed. The sink received a prefix of the line.
pub(crate) fn write_directory<W: Sink>(out: &mut W, reacher: &Reacher<'_>) -> Result<(), Failed>
    ensures { Writes W.Sink (directory_lines reacher.now) out.old out.new result }
{
    let node = reacher.owned.directory;
    if !is_removed(reacher.parts.tree(), node) {
        return Ok(());
    }
    let removed = Removed {
        reacher: *reacher,
        node,
    };
    write_may(out, reacher, (removed, Plain(b", working directory")))
}

// Writes the line of a descriptor on a node without a path. At a file or link no permission applies.
fn write_on_unnamed<W: Sink>(
    out: &mut W,
    reacher: &Reacher<'_>,
    node: u16,
    descriptor: AndDescriptor,
) -> Result<(), Failed>
    requires { IsNone (node_path (reacher_state reacher.now).tree node) }
    ensures { Writes W.Sink (may_line reacher.now (unnamed_words reacher.now node descriptor.number descriptor.mode)) out.old out.new result }
{
    let tree = reacher.parts.tree();
    // The contract of `sizes` states that the tree is well-formed.
    let _ = tree.sizes();
    if tree.is_directory(node) {
        let removed = Removed {
            reacher: *reacher,
            node,
        };
        write_may(out, reacher, (removed, descriptor))
    } else {
        let words = NodeWords { tree, node };
        write_may(out, reacher, (Plain(b"---- "), words, descriptor))
    }
}

// Writes the line of a descriptor if its node has no path.
fn write_unnamed<W: Sink>(out: &mut W, reacher: &Reacher<'_>, number: u8) -> Result<(), Failed>
    ensures { Writes W.Sink (unnamed_line reacher.now number (opened_at reacher.now number)) out.old out.new result }
{
    match opened(reacher, number) {
        Some((node, mode)) if !has_path(reacher.parts.tree(), node) => {
            write_on_unnamed(out, reacher, node, AndDescriptor { number, mode })
        }
        _ => Ok(()),
    }
}

/// Writes a line for each descriptor on a node without a path, by ascending number. If the node is a directory, the
/// line has the permissions of the process there.
///
/// # Errors
///
/// `Failed`, if a write failed. The sink received a prefix of the lines.
pub(crate) fn write_descriptors<W: Sink>(out: &mut W, reacher: &Reacher<'_>) -> Result<(), Failed>
    ensures { Writes W.Sink (unnamed_lines reacher.now) out.old out.new result }
{
    reacher.owned.descriptors.invariant();
    for number in 0..DESCRIPTORS as u8 {
        write_unnamed(out, reacher, number)?;
    }
    Ok(())
}
