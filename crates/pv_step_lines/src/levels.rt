//! The derivation of a table's decision on a place, level by level.
ghost use Rattle.std.specs.Prelude.{◌≡◌, IsTrue};
ghost use Rattle.pv_step_lines.specs.Basis.{directory_level, level_line, level_lines_of, name_level, basis_table};
ghost use Rattle.pv_model.specs.Machine.{permissions_lacked, answer_bytes, answer_line_bytes, entries_of_table, is_directory_at, permissions_at};
ghost use Rattle.pv_model.specs.Answers.Levels.{directory_levels, levels, name_levels};
ghost use Rattle.pv_streams.specs.Sinks.{Writes};
ghost use Rattle.pv_answers.specs.OfUnveil.Up.{directory_of_place};

use crate::origin::Origin;
use pv_answers::tree::Tree;
use pv_answers::unveil::{Table, above};
use pv_answers::{Letters, Line, NameWords, NodeWords, PathOf, has_path};
use pv_model::{Perms, Place};
use pv_streams::{Decimal, Failed, Fragment, Plain, Sink, write_whole};

/// The context in which the places of a process are checked.
#[derive(Clone, Copy)]
pub(crate) struct Basis<'a> {
    /// The number of the process.
    pub(crate) pid: u32,
    /// The tree.
    pub(crate) tree: &'a Tree,
    /// The table of the process.
    pub(crate) table: &'a Table,
    /// The known origins of the table's entries.
    pub(crate) origins: &'a [Origin],
}

// Returns the permissions of an entry, or none if there is no such entry.
fn permissions_of(table: &Table, entry: u8) -> Perms
    ensures { result ≡ permissions_at (entries_of_table table.now.table) entry }
{
    if (entry as usize) < table.len() {
        table.permissions(entry)
    } else {
        Perms::NONE
    }
}

// Returns the permissions in `asked` that are not in `has`.
fn lacked(has: Perms, asked: Perms) -> Perms
    ensures { result ≡ permissions_lacked has asked }
{
    Perms {
        r: asked.r && !has.r,
        w: asked.w && !has.w,
        x: asked.x && !has.x,
        c: asked.c && !has.c,
    }
}

/// The origin of an entry. Nothing is written if it is unknown.
#[derive(Clone, Copy)]
pub(crate) struct OriginText<'a> {
    /// The origins of the table's entries.
    pub(crate) origins: &'a [Origin],
    /// The number of the entry.
    pub(crate) entry: u8,
}

impl<'a> Fragment for OriginText<'a> {
    ghost use Rattle.pv_step_lines.specs.Origin.{settings_in};
    ghost use Rattle.pv_step_lines.specs.Parts.{origin_text};

    ghost text = { λ p. origin_text (settings_in p.origins.now) p.entry };

    fn write<W: Sink>(&self, out: &mut W) -> Result<(), Failed> {
        let Some(origin) = self.origins.get(self.entry as usize) else {
            return Ok(());
        };
        let line = Decimal(u32::from(origin.line));
        if origin.earlier {
            (
                Plain(b", set at line "),
                line,
                Plain(b", of an earlier program"),
            )
                .write(out)
        } else {
            (Plain(b", set at line "), line).write(out)
        }
    }
}

/// An entry with its permissions.
#[derive(Clone, Copy)]
pub(crate) struct EntryText<'a> {
    /// The table.
    pub(crate) table: &'a Table,
    /// The number of the entry.
    pub(crate) entry: u8,
}

impl<'a> Fragment for EntryText<'a> {
    ghost use Rattle.pv_model.specs.Calls.Restraints.{entries_of_table};
    ghost use Rattle.pv_step_lines.specs.Parts.{has_text};

    ghost text = { λ p. has_text (entries_of_table p.table.now.table) p.entry };

    fn write<W: Sink>(&self, out: &mut W) -> Result<(), Failed> {
        let number = Decimal(u32::from(self.entry));
        let permissions = Letters(permissions_of(self.table, self.entry));
        (Plain(b"entry "), number, Plain(b" has "), permissions).write(out)
    }
}

// The finding at a level: an entry, the requested permissions that it lacks, and its origin.
#[derive(Clone, Copy)]
struct FoundText<'a> {
    table: &'a Table,
    origins: &'a [Origin],
    asked: Perms,
    entry: Option<u8>,
}

impl<'a> Fragment for FoundText<'a> {
    ghost use Rattle.pv_model.specs.Calls.Restraints.{entries_of_table};
    ghost use Rattle.pv_step_lines.specs.Origin.{settings_in};
    ghost use Rattle.pv_step_lines.specs.Parts.{lacked_text};

    ghost text = { λ p. lacked_text (entries_of_table p.table.now.table) (settings_in p.origins.now) p.asked p.entry };

    fn write<W: Sink>(&self, out: &mut W) -> Result<(), Failed> {
        let (table, origins) = (self.table, self.origins);
        let Some(entry) = self.entry else {
            return write_whole(out, b"no entry");
        };
        let lacks = Letters(lacked(permissions_of(table, entry), self.asked));
        let found = EntryText { table, entry };
        (
            found,
            Plain(b", lacks "),
            lacks,
            OriginText { origins, entry },
        )
            .write(out)
    }
}

// A directory: its path, or its number if it is removed.
#[derive(Clone, Copy)]
struct DirectoryWords<'a> {
    tree: &'a Tree,
    directory: u16,
}

impl<'a> Fragment for DirectoryWords<'a> {
    ghost use Rattle.pv_model.specs.Answers.Nodes.{node_path};
    ghost use Rattle.pv_step_lines.specs.Parts.{directory_words_by};

    ghost text = { λ p. directory_words_by p.tree.now.tree p.directory (node_path p.tree.now.tree p.directory) };

    fn write<W: Sink>(&self, out: &mut W) -> Result<(), Failed> {
        let (tree, node) = (self.tree, self.directory);
        if has_path(tree, node) {
            PathOf { tree, node }.write(out)
        } else {
            NodeWords { tree, node }.write(out)
        }
    }
}

// Writes the line of a directory.
#[tactic(auto, unfolding(pv_model::specs::Trace::text_line))]
fn write_directory_level<W: Sink>(
    out: &mut W,
    basis: &Basis<'_>,
    asked: Perms,
    directory: u16,
    entry: Option<u8>,
) -> Result<(), Failed>
    ensures { Writes W.Sink (answer_line_bytes (level_line basis.now asked (directory_level directory entry))) out.old out.new result }
{
    let words = DirectoryWords {
        tree: basis.tree,
        directory,
    };
    let found = FoundText {
        table: basis.table,
        origins: basis.origins,
        asked,
        entry,
    };
    let line = Line {
        pid: basis.pid,
        word: *b"WHY ",
        text: (Plain(b"directory "), words, Plain(b": "), found),
    };
    line.write(out)
}

// Writes the line of a name in a directory.
#[tactic(auto, unfolding(pv_model::specs::Trace::text_line))]
fn write_name_level<W: Sink>(
    out: &mut W,
    basis: &Basis<'_>,
    asked: Perms,
    directory: u16,
    name: &[u8],
    entry: Option<u8>,
) -> Result<(), Failed>
    ensures { Writes W.Sink (answer_line_bytes (level_line basis.now asked (name_level directory name.now entry))) out.old out.new result }
{
    let words = NameWords {
        tree: basis.tree,
        directory,
        name,
    };
    let found = FoundText {
        table: basis.table,
        origins: basis.origins,
        asked,
        entry,
    };
    let line = Line {
        pid: basis.pid,
        word: *b"WHY ",
        text: (Plain(b"name "), words, Plain(b": "), found),
    };
    line.write(out)
}

// Writes the lines of a directory and its ancestors, up to one that has an entry, the root, or a removed directory.
fn write_directory_levels<W: Sink>(
    out: &mut W,
    basis: &Basis<'_>,
    asked: Perms,
    directory: u16,
) -> Result<(), Failed>
    requires { IsTrue (is_directory_at basis.now.tree.now.tree directory) }
    ensures { Writes W.Sink (answer_bytes (level_lines_of basis.now asked (directory_levels basis.now.tree.now.tree (basis_table basis.now) directory))) out.old out.new result }
{
    let mut reached = directory;
    for _level in 0..basis.tree.sizes().inodes + 2 {
        let entry = basis.table.directory_entry(reached);
        write_directory_level(out, basis, asked, reached, entry)?;
        if entry.is_some() {
            return Ok(());
        }
        let Some(above) = above(basis.tree, reached) else {
            return Ok(());
        };
        reached = above;
    }
    Ok(())
}

// Writes the line of a name. If the name has no entry, also writes the lines of its directory and the ancestors.
fn write_name_levels<W: Sink>(
    out: &mut W,
    basis: &Basis<'_>,
    asked: Perms,
    directory: u16,
    name: &[u8],
) -> Result<(), Failed>
    requires { IsTrue (is_directory_at basis.now.tree.now.tree directory) }
    ensures { Writes W.Sink (answer_bytes (level_lines_of basis.now asked (name_levels basis.now.tree.now.tree (basis_table basis.now) directory name.now))) out.old out.new result }
{
    let entry = basis.table.own_name_entry(directory, name);
    write_name_level(out, basis, asked, directory, name, entry)?;
    if entry.is_some() {
        Ok(())
    } else {
        write_directory_levels(out, basis, asked, directory)
    }
}

/// Writes the derivation of a table's decision on a place, from the place upwards: a line for the name, if the place is
/// not a directory, and a line for the directory and each ancestor, up to one that has an entry, the root, or a removed
/// directory.
///
/// # Errors
///
/// `Failed`, if a write failed. The sink received a prefix of the lines.
#[tactic(auto, unfolding(pv_model::specs::Answers::Levels::levels))]
pub(crate) fn write_levels<W: Sink>(
    out: &mut W,
    basis: &Basis<'_>,
    asked: Perms,
    place: &Place,
) -> Result<(), Failed>
    requires { IsTrue (is_directory_at basis.now.tree.now.tree (directory_of_place place.now)) }
    ensures { Writes W.Sink (answer_bytes (level_lines_of basis.now asked (levels basis.now.tree.now.tree (basis_table basis.now) place.now))) out.old out.new result }
{
    match place {
        Place::Node(node) => write_directory_levels(out, basis, asked, *node),
        Place::At { dir, name, node } => match node {
            None => write_name_levels(out, basis, asked, *dir, name.as_slice()),
            Some(node) => {
                if basis.tree.is_directory(*node) {
                    write_directory_levels(out, basis, asked, *node)
                } else {
                    write_name_levels(out, basis, asked, *dir, name.as_slice())
                }
            }
        },
    }
}
