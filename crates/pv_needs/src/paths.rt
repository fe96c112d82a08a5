//! Guessed paths. To check a guess is cheaper than to compute a path.
ghost use Rattle.std.specs.Prelude.{◌≡◌, ◌++◌, ◌∷◌, IfSome, IsTrue, Some};
ghost use Rattle.pv_model.specs.Machine.{node_path, is_directory_at};

use pv_model::limits::ROOT;
use pv_tree::Tree;

/// Splits bytes at the last occurrence of a value. Neither part includes that occurrence.
pub(crate) fn around_last(bytes: &[u8], value: u8) -> Option<(&[u8], &[u8])>
    ensures { IfSome result (λ parts. bytes.now ≡ parts.0.now ++ value ∷ parts.1.now) }
{
    let mut front = bytes;
    while let Some((last, before)) = front.split_last() {
        if *last == value {
            return Some((before, &bytes[front.len()..]));
        }
        front = before;
    }
    None
}

/// Returns whether a path is the path of a directory. The path of the root is empty. The function compares names from
/// the directory upwards, and a directory has only one path.
pub(crate) fn is_path_of(tree: &Tree, directory: u16, path: &[u8]) -> bool
    requires { IsTrue (is_directory_at tree.now.tree directory) }
    ensures { IsTrue result → node_path tree.now.tree directory ≡ Some path.now }
{
    // The contract of `sizes` states that the tree is well-formed.
    let _ = tree.sizes();
    let mut reached = directory;
    let mut rest = path;
    while let Some((before, name)) = around_last(rest, b'/') {
        let Some(above) = tree.parent(reached) else {
            return false;
        };
        if reached == ROOT || tree.find(above, name) != Some(reached) {
            return false;
        }
        reached = above;
        rest = before;
    }
    match rest {
        [] => reached == ROOT,
        _ => false,
    }
}
