//! Bounded byte arrays stored inline, which `Name` and `Text` are made of.
ghost use Rattle.std.specs.Prelude.{◌≡◌, ◌≤◌, ◌↔◌, length, IsSome, IfSome};

use arrayvec::ArrayVec;

/// Returns a copy of these bytes, or None if there are more than `N`.
pub fn preserved<const N: usize>(bytes: &[u8]) -> Option<ArrayVec<u8, N>>
    ensures fits { IsSome result ↔ (length bytes.now ≤ N) }
    ensures value { IfSome result (λ preserved. preserved.items ≡ bytes.now) }
{
    let mut preserved = ArrayVec::new();
    match preserved.try_extend_from_slice(bytes) {
        Ok(()) => Some(preserved),
        Err(_) => None,
    }
}

/// Returns a copy of the array.
pub fn copied<const N: usize>(bytes: &ArrayVec<u8, N>) -> ArrayVec<u8, N>
    ensures { result.items ≡ bytes.now.items }
{
    let mut copy = ArrayVec::new();
    let _ = copy.try_extend_from_slice(bytes.as_slice());
    copy
}
