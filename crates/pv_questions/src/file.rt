//! The file at a path, and its bytes.
ghost use Rattle.std.specs.Prelude.{◌≡◌, false, Ok, Err, IsTrue, IfOk, IfErr};
ghost use Rattle.pv_dirs.specs.Trees.{node_bytes_at};
ghost use Rattle.pv_model.specs.Machine.{node_of, node_at};
ghost use Rattle.pv_questions.specs.Files.{IsFileAt, bytes_of_file, bytes_of_node, cat_of};
ghost use Rattle.pv_streams.specs.Sinks.{Writes};

use pv_model::limits::ROOT;
use pv_model::{AuditFault, Errno, Follow, Kind, Place};
use pv_namei::{PlainLookup, resolve};
use pv_streams::{Failed, Sink, write_whole};
use pv_tree::{PlaceRef, Tree};

// Returns whether a number is the node of a file.
fn is_file(tree: &Tree, node: u16) -> bool
    ensures file { IsTrue result → IsFileAt tree.now.tree node }
    ensures other { result ≡ false → bytes_of_file (node_at tree.now.tree node) ≡ Err AuditFault.NotFile }
{
    tree.is_used(node) && matches!(tree.kind(node), Kind::File | Kind::Executable)
}

// Returns the file at a place.
fn file_of(tree: &Tree, place: &Place) -> Result<u16, AuditFault>
    ensures found { IfOk result (λ node. IsFileAt tree.now.tree node × (bytes_of_node tree.now.tree (node_of place.now) ≡ Ok (node_bytes_at tree.now.tree node))) }
    ensures refused { IfErr result (λ fault. bytes_of_node tree.now.tree (node_of place.now) ≡ Err fault) }
{
    let Some(node) = PlaceRef::of(place).node() else {
        return Err(AuditFault::Walk(Errno::ENOENT));
    };
    if !is_file(tree, node) {
        return Err(AuditFault::NotFile);
    }
    Ok(node)
}

/// Returns the file at a path. The path is walked from the root; links are followed, and no unveil table applies.
///
/// # Errors
///
/// - `Walk` with the error of the walk, or with `ENOENT` if nothing exists at the path.
/// - `NotFile`, if the path does not name a file.
pub(crate) fn file_at(tree: &Tree, path: &[u8]) -> Result<u16, AuditFault>
    ensures found { IfOk result (λ node. IsFileAt tree.now.tree node × (cat_of tree.now.tree path.now ≡ Ok (node_bytes_at tree.now.tree node))) }
    ensures refused { IfErr result (λ fault. cat_of tree.now.tree path.now ≡ Err fault) }
{
    let _ = tree.sizes();
    match resolve(tree, &mut PlainLookup, ROOT, path, Follow::Last) {
        Ok(place) => file_of(tree, &place),
        Err(errno) => Err(AuditFault::Walk(errno)),
    }
}

/// Writes the bytes of a file.
///
/// # Errors
///
/// `Failed`, if a write failed. The sink received a prefix of the bytes.
pub(crate) fn write_file<W: Sink>(out: &mut W, tree: &Tree, node: u16) -> Result<(), Failed>
    requires { IsFileAt tree.now.tree node }
    ensures { Writes W.Sink (node_bytes_at tree.now.tree node) out.old out.new result }
{
    let size = tree.size(node);
    let mut at = 0;
    while at < size {
        let part = tree.lend(node, at);
        write_whole(out, part)?;
        at += part.len() as u32;
    }
    Ok(())
}
