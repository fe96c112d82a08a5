//! The eight bytes of stat(2).
ghost use Rattle.std.specs.Prelude.{◌≡◌, IsSome};
ghost use Rattle.pv_model.specs.Machine.{little_endian, status, node_at};

use pv_calls_state::tree::Tree;

/// Returns the four bytes of a number, the lowest first.
pub(crate) fn four_bytes(n: u32) -> [u8; 4]
    ensures { result ≡ little_endian 4 n }
{
    n.to_le_bytes()
}

// Returns the two bytes of a number, the lowest first.
fn two_bytes(n: u16) -> [u8; 2]
    ensures { result ≡ little_endian 2 n }
{
    n.to_le_bytes()
}

/// Returns the bytes that stat(2) reports of a node: its kind, 0, its number in two bytes and its size in four, each
/// number with its lowest byte first.
pub fn status(tree: &Tree, node: u16) -> [u8; 8]
    requires { IsSome (node_at tree.now.tree node) }
    ensures { result ≡ status tree.now.tree node }
{
    let [low, high] = two_bytes(node);
    let [first, second, third, fourth] = four_bytes(tree.size(node));
    let sort = tree.kind(node) as u8;
    [sort, 0, low, high, first, second, third, fourth]
}
