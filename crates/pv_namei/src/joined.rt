//! The rest of a path after a symbolic link.
ghost use Rattle.std.specs.Prelude.{◌≡◌, ◌≤◌, ◌<◌, ◌+◌, ◌-◌, ◌++◌, ◌∷◌, [], length, OnOk, OnErr, IfErr};
ghost use Rattle.pv_model.specs.Machine.{components, weight};
ghost use Rattle.pv_namei.specs.declared.joined.TheConstants.{HALF};
ghost use Rattle.pv_namei.specs.Components.{with_slashes};

use crate::along::Along;
use crate::component::split_first;
use arrayvec::ArrayVec;
use pv_model::Errno;
use pv_model::limits::WEIGHT;
use std::marker::Model;

// Two paths shorter than this fit in the buffer with a slash between them, without removal of repeated slashes.
const HALF: usize = WEIGHT / 2;

/// The components that remain after a symbolic link: with a slash after each, they have at most 1,024 bytes. Contracts
/// see the list of components.
#[derive(Drop)]
pub(crate) struct Joined {
    // The components, with at least one slash between two of them.
    bytes: ArrayVec<u8, WEIGHT>,
}

impl Model for Joined {
    ghost use Rattle.std.specs.Prelude.{List, ℕ};
    ghost use Rattle.pv_model.specs.Walk.{components};

    ghost Value = { List (List ℕ) };

    ghost view = { λ j. components j.bytes.items };
}

impl Joined {
    /// Creates an empty list of components.
    pub(crate) fn new() -> Joined
        ensures { result ≡ [] }
    {
        Joined {
            bytes: ArrayVec::new(),
        }
    }

    /// Replaces the components by those of a link's target followed by those that remained at the link.
    ///
    /// # Errors
    ///
    /// Returns ENAMETOOLONG if all components, with a slash after each, exceed 1,024 bytes. The list then contains some
    /// of them.
    pub(crate) fn join(&mut self, text: &[u8], rest: &Along<'_>) -> Result<(), Errno>
        ensures ok { OnOk result (self.new ≡ components text.now ++ rest.now) }
        ensures fits { OnOk result (weight (components text.now ++ rest.now) ≤ WEIGHT) }
        ensures too_long { OnErr result (WEIGHT < weight (components text.now ++ rest.now)) }
        ensures err { IfErr result (λ e. e ≡ Errno.ENAMETOOLONG) }
    {
        let rest = rest.as_slice();
        if text.len() < HALF && rest.len() < HALF {
            put_both(&mut self.bytes, text, rest);
            return Ok(());
        }
        self.bytes.clear();
        push_components(&mut self.bytes, text)?;
        push_components(&mut self.bytes, rest)
    }

    /// Returns the components as the rest of a path.
    pub(crate) fn along(&self) -> Along<'_>
        ensures { result ≡ self.now }
    {
        Along::new(self.bytes.as_slice())
    }
}

// Sets the buffer to two paths with a slash between them.
fn put_both(bytes: &mut ArrayVec<u8, WEIGHT>, first: &[u8], second: &[u8])
    requires first { length first.now < HALF }
    requires second { length second.now < HALF }
    ensures { bytes.new.items ≡ first.now ++ 47 ∷ second.now }
{
    bytes.clear();
    let _ = bytes.try_extend_from_slice(first);
    bytes.push(b'/');
    let _ = bytes.try_extend_from_slice(second);
}

// Appends the components of a path, with a slash after each. Fails with ENAMETOOLONG if they do not fit.
fn push_components(bytes: &mut ArrayVec<u8, WEIGHT>, path: &[u8]) -> Result<(), Errno>
    ensures ok { OnOk result
        (bytes.new.items ≡ bytes.old.items ++ with_slashes (components path.now)) }
    ensures fits { OnOk result (weight (components path.now) ≤ WEIGHT - length bytes.old.items) }
    ensures too_long { OnErr result
        (WEIGHT - length bytes.old.items < weight (components path.now)) }
    ensures err { IfErr result (λ e. e ≡ Errno.ENAMETOOLONG) }
{
    let mut left = path;
    while let Some((component, following)) = split_first(left) {
        push_bytes(bytes, component)?;
        push_bytes(bytes, b"/")?;
        left = following;
    }
    Ok(())
}

// Appends bytes. Fails with ENAMETOOLONG if they do not fit.
fn push_bytes(bytes: &mut ArrayVec<u8, WEIGHT>, more: &[u8]) -> Result<(), Errno>
    ensures ok { OnOk result (bytes.new.items ≡ bytes.old.items ++ more.now) }
    ensures fits { OnOk result (length bytes.old.items + length more.now ≤ WEIGHT) }
    ensures too_long { OnErr result (WEIGHT < length bytes.old.items + length more.now) }
    ensures err { IfErr result (λ e. e ≡ Errno.ENAMETOOLONG) }
{
    match bytes.try_extend_from_slice(more) {
        Ok(()) => Ok(()),
        Err(_) => Err(Errno::ENAMETOOLONG),
    }
}
