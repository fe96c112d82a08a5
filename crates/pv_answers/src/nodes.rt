//! Nodes, names and targets in words.
ghost use Rattle.std.specs.Prelude.{◌≡◌, ◌++◌, codes, false, flat_map, is_some, IsSome, IsTrue};
ghost use Rattle.pv_answers.specs.Texts.{own_step, path_bytes, path_text};
ghost use Rattle.pv_model.specs.Machine.{node_path, target_words, quote_byte, is_directory_at};
ghost use Rattle.pv_model.specs.Answers.Nodes.{least_name, name_words, node_words, path_within};
ghost use Rattle.pv_streams.specs.Sinks.{Writes};

use pv_calls_state::tree::Tree;
use pv_model::Target;
use pv_model::limits::ROOT;
use pv_streams::{Decimal, Escaped, Failed, Fragment, Plain, Quoted, Sink, write_whole};

/// Returns whether a node has a path: a directory that is not removed, or a file or link with a name.
pub fn has_path(tree: &Tree, node: u16) -> bool
    ensures { result ≡ is_some (node_path tree.now.tree node) }
{
    // The contract of `sizes` states that the tree is well-formed.
    let _ = tree.sizes();
    node == ROOT || (tree.is_used(node) && tree.names(node) > 0)
}

/// A slash and a name in escaped form.
#[derive(Clone, Copy)]
pub(crate) struct Step<'a>(pub(crate) &'a [u8]);

impl<'a> Fragment for Step<'a> {
    ghost text = { λ p. flat_map quote_byte (codes "/" ++ p.0.now) };

    fn write<W: Sink>(&self, out: &mut W) -> Result<(), Failed> {
        (Plain(b"/"), Escaped(self.0)).write(out)
    }
}

// Writes a slash and the name of a directory in escaped form. This is a function of its own so that `write_above` needs
// little stack at each level.
#[inline(never)]
fn write_own_name<W: Sink>(out: &mut W, tree: &Tree, directory: u16) -> Result<(), Failed>
    ensures { Writes W.Sink (flat_map quote_byte (own_step (least_name tree.now.tree directory))) out.old out.new result }
{
    match tree.least_name(directory) {
        Some((_above, name)) => Step(name.as_slice()).write(out),
        None => Ok(()),
    }
}

// Writes the path of a directory at the given depth in escaped form, and nothing for the root. The directory must have
// a path.
fn write_above<W: Sink>(out: &mut W, tree: &Tree, depth: u16, directory: u16) -> Result<(), Failed>
    requires directory { IsTrue (is_directory_at tree.now.tree directory) }
    requires path { IsSome (path_within tree.now.tree depth directory) }
    ensures { Writes W.Sink (path_bytes (path_within tree.now.tree depth directory)) out.old out.new result }
{
    // The contract of `sizes` states that the tree is well-formed.
    let _ = tree.sizes();
    if directory == ROOT {
        return Ok(());
    }
    let Some(above) = tree.parent(directory) else {
        unreachable!()
    };
    write_above(out, tree, depth - 1, above)?;
    write_own_name(out, tree, directory)
}

// The path of a node in escaped form. It is empty for the root, and for a node without a path.
#[derive(Clone, Copy)]
struct Steps<'a> {
    tree: &'a Tree,
    node: u16,
}

impl<'a> Fragment for Steps<'a> {
    ghost text = { λ p. path_bytes (node_path p.tree.now.tree p.node) };

    fn write<W: Sink>(&self, out: &mut W) -> Result<(), Failed> {
        write_steps(out, self.tree, self.node)
    }
}

// Writes the path of a file or link that has a name in escaped form.
fn write_file_steps<W: Sink>(out: &mut W, tree: &Tree, node: u16) -> Result<(), Failed>
    requires file { is_directory_at tree.now.tree node ≡ false }
    requires path { IsSome (node_path tree.now.tree node) }
    ensures { Writes W.Sink (path_bytes (node_path tree.now.tree node)) out.old out.new result }
{
    let depth = tree.sizes().inodes + 1;
    let Some((directory, name)) = tree.least_name(node) else {
        unreachable!()
    };
    write_above(out, tree, depth - 1, directory)?;
    Step(name.as_slice()).write(out)
}

// Writes the path of a node in escaped form. Writes nothing for the root, and for a node without a path.
fn write_steps<W: Sink>(out: &mut W, tree: &Tree, node: u16) -> Result<(), Failed>
    ensures { Writes W.Sink (path_bytes (node_path tree.now.tree node)) out.old out.new result }
{
    if !has_path(tree, node) {
        return Ok(());
    }
    if tree.is_directory(node) {
        let depth = tree.sizes().inodes + 1;
        return write_above(out, tree, depth, node);
    }
    write_file_steps(out, tree, node)
}

/// Writes the path of a node as a quoted text. The path of the root is a slash. Writes nothing for a node without a
/// path.
///
/// # Errors
///
/// `Failed`, if a write failed. The sink received a prefix of the text.
pub fn write_path_of<W: Sink>(out: &mut W, tree: &Tree, node: u16) -> Result<(), Failed>
    ensures { Writes W.Sink (path_text (node_path tree.now.tree node)) out.old out.new result }
{
    // The contract of `sizes` states that the tree is well-formed.
    let _ = tree.sizes();
    if node == ROOT {
        return write_whole(out, b"\"/\"");
    }
    if !has_path(tree, node) {
        return Ok(());
    }
    let steps = Steps { tree, node };
    (Plain(b"\""), steps, Plain(b"\"")).write(out)
}

/// The path of a node as a quoted text, as `write_path_of` writes it.
#[derive(Clone, Copy)]
pub struct PathOf<'a> {
    /// The tree of the node.
    pub tree: &'a Tree,
    /// The number of the node.
    pub node: u16,
}

impl<'a> Fragment for PathOf<'a> {
    ghost text = { λ p. path_text (node_path p.tree.now.tree p.node) };

    fn write<W: Sink>(&self, out: &mut W) -> Result<(), Failed> {
        write_path_of(out, self.tree, self.node)
    }
}

/// Writes a node in words: `node`, its number, and its path as a quoted text, if it has one. The path of a file or link
/// is that of its least name, by the number of the directory and then by the bytes of the name.
///
/// # Errors
///
/// `Failed`, if a write failed. The sink received a prefix of the words.
pub fn write_node<W: Sink>(out: &mut W, tree: &Tree, node: u16) -> Result<(), Failed>
    ensures { Writes W.Sink (node_words tree.now.tree node) out.old out.new result }
{
    let number = Decimal(u32::from(node));
    if has_path(tree, node) {
        let path = PathOf { tree, node };
        (Plain(b"node "), number, Plain(b" "), path).write(out)
    } else {
        (Plain(b"node "), number).write(out)
    }
}

/// A node in words, as `write_node` writes it.
#[derive(Clone, Copy)]
pub struct NodeWords<'a> {
    /// The tree of the node.
    pub tree: &'a Tree,
    /// The number of the node.
    pub node: u16,
}

impl<'a> Fragment for NodeWords<'a> {
    ghost text = { λ p. node_words p.tree.now.tree p.node };

    fn write<W: Sink>(&self, out: &mut W) -> Result<(), Failed> {
        write_node(out, self.tree, self.node)
    }
}

/// A node in brief: its path as a quoted text, or `node` and its number if it has no path.
#[derive(Clone, Copy)]
pub struct NodeBrief<'a> {
    /// The tree of the node.
    pub tree: &'a Tree,
    /// The number of the node.
    pub node: u16,
}

impl<'a> Fragment for NodeBrief<'a> {
    ghost use Rattle.pv_model.specs.Answers.Files.{node_brief};

    ghost text = { λ p. node_brief p.tree.now.tree p.node };

    fn write<W: Sink>(&self, out: &mut W) -> Result<(), Failed> {
        let NodeBrief { tree, node } = *self;
        if has_path(tree, node) {
            PathOf { tree, node }.write(out)
        } else {
            (Plain(b"node "), Decimal(u32::from(node))).write(out)
        }
    }
}

/// Writes a name of a directory in words, whether or not the name exists: its path as a quoted text, or, if the
/// directory is removed, the bare name and the number of the directory.
///
/// # Errors
///
/// `Failed`, if a write failed. The sink received a prefix of the words.
pub fn write_name<W: Sink>(
    out: &mut W,
    tree: &Tree,
    directory: u16,
    name: &[u8],
) -> Result<(), Failed>
    ensures { Writes W.Sink (name_words tree.now.tree directory name.now) out.old out.new result }
{
    if has_path(tree, directory) {
        let steps = Steps {
            tree,
            node: directory,
        };
        (Plain(b"\""), steps, Step(name), Plain(b"\"")).write(out)
    } else {
        let number = Decimal(u32::from(directory));
        (Quoted(name), Plain(b" in node "), number).write(out)
    }
}

/// A name of a directory in words, as `write_name` writes it.
#[derive(Clone, Copy)]
pub struct NameWords<'a> {
    /// The tree of the directory.
    pub tree: &'a Tree,
    /// The number of the directory.
    pub directory: u16,
    /// The name.
    pub name: &'a [u8],
}

impl<'a> Fragment for NameWords<'a> {
    ghost text = { λ p. name_words p.tree.now.tree p.directory p.name.now };

    fn write<W: Sink>(&self, out: &mut W) -> Result<(), Failed> {
        write_name(out, self.tree, self.directory, self.name)
    }
}

/// Writes a target in words: a directory as `write_node` does, and a name as `write_name` does.
///
/// # Errors
///
/// `Failed`, if a write failed. The sink received a prefix of the words.
pub fn write_target<W: Sink>(out: &mut W, tree: &Tree, target: &Target) -> Result<(), Failed>
    ensures { Writes W.Sink (target_words tree.now.tree target.now) out.old out.new result }
{
    match target {
        Target::Directory(node) => write_node(out, tree, *node),
        Target::Name { dir, name } => write_name(out, tree, *dir, name.as_slice()),
    }
}

/// A target in words, as `write_target` writes it.
#[derive(Clone, Copy)]
pub struct TargetWords<'a> {
    /// The tree of the target.
    pub tree: &'a Tree,
    /// The target.
    pub target: &'a Target,
}

impl<'a> Fragment for TargetWords<'a> {
    ghost text = { λ p. target_words p.tree.now.tree p.target.now };

    fn write<W: Sink>(&self, out: &mut W) -> Result<(), Failed> {
        write_target(out, self.tree, self.target)
    }
}
