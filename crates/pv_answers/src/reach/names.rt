//! The permissions of a process at the names of a tree, in the order of a listing.
ghost use Rattle.std.specs.Prelude.{◌≡◌, flat_map, IsTrue};
ghost use Rattle.pv_answers.specs.Reaching.{listed_lines_within, listed_line, listed_lines, linked_path_bytes, reacher_state};
ghost use Rattle.pv_model.specs.Answers.Reach.{listed_names};
ghost use Rattle.pv_model.specs.Machine.{listed_path, quote, quote_byte, is_directory_at, IsWellFormed};
ghost use Rattle.pv_streams.specs.Sinks.{Writes};
ghost use Rattle.pv_calls_state.specs.OfUnveil.Up.{directory_of_place};

use crate::lines::Letters;
use crate::nodes::Step;
use crate::reach::reacher::{AndDescriptors, Governor, Reacher, governing, permitted, write_may};
use pv_calls_state::tree::PlaceRef;
use pv_model::limits::ROOT;
use pv_streams::{Failed, Fragment, Plain, Sink, write_whole};

/// A path of a tree, as a linked list of names from its end. Each link is in the stack frame of the traversal, so no
/// bytes are copied.
#[derive(Clone, Copy)]
pub(crate) enum LinkedPath<'a> {
    /// The path of the root.
    Root,
    /// The path of a name in the directory with this path.
    Below(&'a LinkedPath<'a>, &'a [u8]),
}

// Writes the names of a path in escaped form.
fn write_names<W: Sink>(out: &mut W, path: &LinkedPath<'_>) -> Result<(), Failed>
    ensures { Writes W.Sink (flat_map quote_byte (linked_path_bytes path.now)) out.old out.new result }
{
    match path {
        LinkedPath::Root => Ok(()),
        LinkedPath::Below(above, name) => {
            write_names(out, above)?;
            Step(name).write(out)
        }
    }
}

// The names of a path in escaped form.
#[derive(Clone, Copy)]
struct Names<'a>(&'a LinkedPath<'a>);

impl<'a> Fragment for Names<'a> {
    ghost text = { λ p. flat_map quote_byte (linked_path_bytes p.0.now) };

    fn write<W: Sink>(&self, out: &mut W) -> Result<(), Failed> {
        write_names(out, self.0)
    }
}

// A path as a quoted text. The path of the root is a slash.
#[derive(Clone, Copy)]
struct PathText<'a>(&'a LinkedPath<'a>);

impl<'a> Fragment for PathText<'a> {
    ghost text = { λ p. quote (listed_path (linked_path_bytes p.0.now)) };

    fn write<W: Sink>(&self, out: &mut W) -> Result<(), Failed> {
        match self.0 {
            LinkedPath::Root => write_whole(out, b"\"/\""),
            LinkedPath::Below(above, name) => {
                (Plain(b"\""), Names(above), Step(name), Plain(b"\"")).write(out)
            }
        }
    }
}

// Writes the line of a name of the tree. This is a function of its own so that `write_within` needs little stack at
// each level.
#[inline(never)]
fn write_name<W: Sink>(
    out: &mut W,
    reacher: &Reacher<'_>,
    path: &LinkedPath<'_>,
    place: &PlaceRef<'_>,
    node: u16,
) -> Result<(), Failed>
    requires { IsTrue (is_directory_at (reacher_state reacher.now).tree (directory_of_place place.now)) }
    ensures { Writes W.Sink (listed_line reacher.now (record { path = linked_path_bytes path.now; place = place.now; node = node })) out.old out.new result }
{
    let entry = governing(reacher, place);
    let letters = Letters(permitted(reacher.owned, entry));
    let governor = Governor {
        table: &reacher.owned.unveiled,
        entry,
    };
    let descriptors = AndDescriptors {
        reacher: *reacher,
        node,
    };
    let text = (
        letters,
        Plain(b" "),
        PathText(path),
        Plain(b", "),
        governor,
        descriptors,
    );
    write_may(out, reacher, text)
}

// Writes the lines of a name of the tree and of all names below it, up to the given depth.
fn write_within<W: Sink>(
    out: &mut W,
    reacher: &Reacher<'_>,
    depth: u16,
    path: &LinkedPath<'_>,
    place: &PlaceRef<'_>,
    node: u16,
) -> Result<(), Failed>
    requires well_formed { IsWellFormed (reacher_state reacher.now).tree }
    requires directory { IsTrue (is_directory_at (reacher_state reacher.now).tree (directory_of_place place.now)) }
    ensures { Writes W.Sink (listed_lines_within reacher.now depth (linked_path_bytes path.now) place.now node) out.old out.new result }
{
    if depth == 0 {
        return Ok(());
    }
    write_name(out, reacher, path, place, node)?;
    let tree = reacher.parts.tree();
    if !tree.is_directory(node) {
        return Ok(());
    }
    let mut before = 0;
    let mut next = tree.next_entry(node, None, before);
    while let Some((name, child)) = next {
        let below = LinkedPath::Below(&*path, name.as_slice());
        let spot = PlaceRef::at(node, name.as_slice(), Some(child));
        write_within(out, reacher, depth - 1, &below, &spot, child)?;
        before = before.saturating_add(1);
        next = tree.next_entry(node, Some(name.as_slice()), before);
    }
    Ok(())
}

/// Writes a line for each name of the tree, in the order of a listing, with the root first: the permissions of a
/// process there, the governing entry, and the descriptors on the node.
///
/// # Errors
///
/// `Failed`, if a write failed. The sink received a prefix of the lines.
pub(crate) fn write_listed<W: Sink>(out: &mut W, reacher: &Reacher<'_>) -> Result<(), Failed>
    ensures { Writes W.Sink (listed_lines reacher.now (listed_names (reacher_state reacher.now).tree)) out.old out.new result }
{
    let depth = reacher.parts.tree().sizes().inodes + 1;
    let place = PlaceRef::of_node(ROOT);
    write_within(out, reacher, depth, &LinkedPath::Root, &place, ROOT)
}
