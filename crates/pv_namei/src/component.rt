//! Splitting a path into components: a component is a nonempty sequence of bytes between slashes.
ghost use Rattle.std.specs.Prelude.{◌≡◌, ◌<◌, ◌==◌, ◌∷◌, [], not, length, position, MatchOption, IfSome};
ghost use Rattle.pv_model.specs.Machine.{is_empty, ends_in_dot, components, is_absolute};
ghost use Rattle.pv_model.specs.Walk.{ends_in_slash};

use crate::lead::{is_dot, is_dot_dot};

// Returns the index of the first slash.
fn first_slash(path: &[u8]) -> Option<usize>
    ensures { result ≡ position (λ b. b == 47) path.now }
{
    path.iter().position(|b| *b == b'/')
}

// Returns the index of the first byte that is not a slash.
fn first_other(path: &[u8]) -> Option<usize>
    ensures { result ≡ position (λ b. not (b == 47)) path.now }
{
    path.iter().position(|b| *b != b'/')
}

/// Returns whether a path has no component.
pub(crate) fn has_no_component(path: &[u8]) -> bool
    ensures { result ≡ is_empty (components path.now) }
{
    first_other(path).is_none()
}

/// Returns the first component of a path and the rest after it, or `None` if the path has no component.
pub(crate) fn split_first(path: &[u8]) -> Option<(&[u8], &[u8])>
    ensures parts { MatchOption result (components path.now ≡ [])
        (λ r. components path.now ≡ r.0.now ∷ components r.1.now) }
    ensures shorter { IfSome result (λ r. length r.1.now < length path.now) }
{
    let Some(start) = first_other(path) else {
        return None;
    };
    let (_, path) = path.split_at(start);
    let end = first_slash(path).unwrap_or(path.len());
    Some(path.split_at(end))
}

/// Returns whether the last component of a path is `.` or `..`.
pub fn ends_in_dot(path: &[u8]) -> bool
    ensures { result ≡ ends_in_dot path.now }
{
    let mut rest = path;
    let mut dots = false;
    while let Some((component, following)) = split_first(rest) {
        dots = is_dot(component) || is_dot_dot(component);
        rest = following;
    }
    dots
}

/// Returns whether a path begins with a slash.
pub fn is_absolute(path: &[u8]) -> bool
    ensures { result ≡ is_absolute path.now }
{
    match path {
        [] => false,
        [first, ..] => *first == b'/',
    }
}

/// Returns whether a path ends with a slash.
pub(crate) fn ends_in_slash(path: &[u8]) -> bool
    ensures { result ≡ ends_in_slash path.now }
{
    match path {
        [] => false,
        [.., last] => *last == b'/',
    }
}
