//! The components of a path.
ghost use Rattle.std.specs.Prelude.{◌≡◌, ◌<◌, ◌∷◌, length, IfSome};
ghost use Rattle.std.specs.Option.{option_copied};
ghost use Rattle.pv_model.specs.Machine.{split_slashes};
ghost use Rattle.pv_text.specs.Components.{components_after};

use crate::lines::first_of;

/// Splits a path at the first slash: returns the part before it, and the part after it if there is a slash.
pub fn split_component(path: &[u8]) -> (&[u8], Option<&[u8]>)
    ensures components { split_slashes path.now ≡ result.0.now ∷ components_after (option_copied result.1) }
    ensures shorter { IfSome result.1 (λ following. length following.now < length path.now) }
{
    let (component, rest) = path.split_at(first_of(path, b'/'));
    match rest {
        [_, following @ ..] => (component, Some(following)),
        [] => (component, None),
    }
}
