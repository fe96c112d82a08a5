//! Adding an entry to a tree, in an image of either version.
ghost use Rattle.std.specs.Prelude.{◌≡◌, ℕ, [], None, IsTrue, IsSome, IfSome, false, Option, option_and_then, option_map};
ghost use Rattle.pv_image_manifest.specs.Adding.{Gives};
ghost use Rattle.pv_image_manifest.specs.Contents.{has_paths, entry_of_content};
ghost use Rattle.pv_image_manifest.specs.Paths.{is_path};
ghost use Rattle.pv_model.specs.Machine.{Bytes, add_entry, root, node_at, file_node, find_entry, is_directory_at, is_name, is_node, with_new_node, components};
ghost use Rattle.pv_model.specs.Grammar.Manifests.{enter_directory, container as container_in, source_of as source_in, if_room, with_source, entry_in};
ghost use Rattle.pv_tree.specs.Changes.{new_node};
ghost use Rattle.pv_laws_trees.specs.Tree.{Appears};

use crate::entry::Content;
use crate::fault::EntryFault;
use pv_model::NewNode;
use pv_model::limits::ROOT;
use pv_text::components::split_component;
use pv_tree::Tree;

// Returns the directory that has this name in a directory.
fn enter(tree: &Tree, directory: u16, name: &[u8]) -> Option<u16>
    requires { IsTrue (is_directory_at tree.now.tree directory) }
    ensures entered { (onward : ℕ → Option (ℕ × Bytes)) → enter_directory tree.now.tree onward (find_entry tree.now.tree directory name.now) ≡ option_and_then onward result }
    ensures appears { IfSome result (λ n. Appears tree.now.tree n) }
{
    tree.invariant();
    let number = tree.find(directory, name)?;
    if tree.is_directory(number) {
        Some(number)
    } else {
        None
    }
}

// Returns the parent directory of a path, with the last name of the path.
fn container<'a>(tree: &Tree, path: &'a [u8]) -> Option<(u16, &'a [u8])>
    requires { IsTrue (is_path tree.now.tree.version path.now) }
    ensures found { container_in tree.now.tree (components path.now) root ≡ option_map (λ p. (p.0, p.1.now)) result }
    ensures appears { IfSome result (λ p. Appears tree.now.tree p.0) }
    ensures name { IfSome result (λ p. IsTrue (is_name tree.now.tree.version p.1.now)) }
{
    tree.invariant();
    let mut directory = ROOT;
    let (mut name, mut rest) = split_component(&path[1..]);
    while let Some(following) = rest {
        directory = enter(tree, directory, name)?;
        (name, rest) = split_component(following);
    }
    Some((directory, name))
}

// Returns the file or symbolic link at a path.
fn source_of(tree: &Tree, path: &[u8]) -> Option<u16>
    requires { IsTrue (is_path tree.now.tree.version path.now) }
    ensures found { source_in tree.now.tree path.now ≡ result }
    ensures used { IfSome result (λ n. IsSome (node_at tree.now.tree n)) }
    ensures other { IfSome result (λ n. is_directory_at tree.now.tree n ≡ false) }
{
    tree.invariant();
    let (directory, name) = container(tree, path)?;
    let node = tree.find(directory, name)?;
    if tree.is_directory(node) {
        None
    } else {
        Some(node)
    }
}

// Creates a directory, an empty file or a symbolic link. If it fails, the tree must be discarded; this applies to the
// functions below too.
fn make_node(tree: &mut Tree, directory: u16, name: &[u8], kind: NewNode) -> Result<(), EntryFault>
    requires directory { Appears tree.old.tree directory }
    requires name { IsTrue (is_name tree.old.tree.version name.now) }
    requires absent { find_entry tree.old.tree directory name.now ≡ None }
    requires text { IsTrue (is_node tree.old.tree.version (new_node kind)) }
    ensures made { Gives result (λ line. if_room line (with_new_node tree.old.tree directory name.now (new_node kind.entry))) tree.new.tree }
    ensures version { tree.new.tree.version ≡ tree.old.tree.version }
    ensures holds { tree.new.holds ≡ tree.old.holds }
{
    let Ok(_node) = tree.make(directory, name, kind) else {
        return Err(EntryFault::Room);
    };
    Ok(())
}

// Returns the kind of a file.
fn file_kind(executable: bool) -> NewNode<'static>
    ensures { new_node result ≡ file_node executable [] }
{
    if executable {
        NewNode::Executable
    } else {
        NewNode::File
    }
}

// Creates a file with its bytes.
fn make_file(
    tree: &mut Tree,
    directory: u16,
    name: &[u8],
    executable: bool,
    bytes: &[u8],
) -> Result<(), EntryFault>
    requires directory { Appears tree.old.tree directory }
    requires name { IsTrue (is_name tree.old.tree.version name.now) }
    requires absent { find_entry tree.old.tree directory name.now ≡ None }
    ensures made { Gives result (λ line. if_room line (with_new_node tree.old.tree directory name.now (file_node executable bytes.now))) tree.new.tree }
    ensures version { tree.new.tree.version ≡ tree.old.tree.version }
    ensures holds { tree.new.holds ≡ tree.old.holds }
{
    tree.invariant();
    let Ok(node) = tree.make(directory, name, file_kind(executable)) else {
        return Err(EntryFault::Room);
    };
    let Ok(()) = tree.write_at(node, 0, bytes) else {
        return Err(EntryFault::Room);
    };
    Ok(())
}

// Adds a name to the file or symbolic link at a path.
fn link_source(
    tree: &mut Tree,
    directory: u16,
    name: &[u8],
    source: &[u8],
) -> Result<(), EntryFault>
    requires directory { Appears tree.old.tree directory }
    requires name { IsTrue (is_name tree.old.tree.version name.now) }
    requires absent { find_entry tree.old.tree directory name.now ≡ None }
    requires source { IsTrue (is_path tree.old.tree.version source.now) }
    ensures made { Gives result (λ line. with_source line tree.old.tree directory name.now (source_in tree.old.tree source.now)) tree.new.tree }
    ensures version { tree.new.tree.version ≡ tree.old.tree.version }
    ensures holds { tree.new.holds ≡ tree.old.holds }
{
    let Some(node) = source_of(tree, source) else {
        return Err(EntryFault::Source);
    };
    let Ok(()) = tree.link(directory, name, node) else {
        return Err(EntryFault::Room);
    };
    Ok(())
}

// Creates the node or name of an entry. The directory does not have this name.
fn make(tree: &mut Tree, directory: u16, name: &[u8], content: &Content) -> Result<(), EntryFault>
    requires directory { Appears tree.old.tree directory }
    requires name { IsTrue (is_name tree.old.tree.version name.now) }
    requires absent { find_entry tree.old.tree directory name.now ≡ None }
    requires content { IsTrue (has_paths (is_path tree.old.tree.version) content.now) }
    ensures made { (path : Bytes) → Gives result (λ line. entry_in line tree.old.tree (entry_of_content path content.now) directory name.now) tree.new.tree }
    ensures version { tree.new.tree.version ≡ tree.old.tree.version }
    ensures holds { tree.new.holds ≡ tree.old.holds }
{
    match content {
        Content::Directory => make_node(tree, directory, name, NewNode::Directory),
        Content::File { executable, bytes } => make_file(tree, directory, name, *executable, bytes),
        Content::Link(text) => make_node(tree, directory, name, NewNode::Symlink(text)),
        Content::Name(source) => link_source(tree, directory, name, source),
    }
}

/// Adds an entry to a tree: creates the node or the name of `content` at `path`. The path, and that of a source, are a
/// slash followed by one or more names that are separated by single slashes, in an image of the tree's version.
///
/// # Errors
///
/// Returns the first of these that applies. The tree must then be discarded.
///
/// - `Parent`: the parent of the path is not a directory.
/// - `Exists`: the name exists already.
/// - `Source`: the entry adds a name, and the path of its source is not a file or a symbolic link.
/// - `Room`: a node would exceed the maximum length, or the image has too few inodes or blocks.
pub fn add_entry(tree: &mut Tree, path: &[u8], content: &Content) -> Result<(), EntryFault>
    requires named { IsTrue (is_path tree.old.tree.version path.now) }
    requires formed { IsTrue (has_paths (is_path tree.old.tree.version) content.now) }
    ensures made { Gives result (λ line. add_entry line tree.old.tree (entry_of_content path.now content.now)) tree.new.tree }
    ensures version { tree.new.tree.version ≡ tree.old.tree.version }
    ensures holds { tree.new.holds ≡ tree.old.holds }
{
    let Some((directory, name)) = container(tree, path) else {
        return Err(EntryFault::Parent);
    };
    if tree.find(directory, name).is_some() {
        return Err(EntryFault::Exists);
    }
    make(tree, directory, name, content)
}
