//! Arrays of optional elements.
ghost use Rattle.std.specs.Prelude.{◌≡◌, ◌<◌, length, MatchOption, position, is_none};
ghost use Rattle.pv_model.specs.Machine.{least_free};

// Returns the index of the first `None`.
fn first_empty<T>(slots: &[Option<T>]) -> Option<usize>
    ensures { result ≡ position (λ slot. is_none slot) slots.now }
{
    slots.iter().position(|slot| slot.is_none())
}

/// Returns the least index of a `None`, if there is one.
pub(crate) fn first_free<T>(slots: &[Option<T>]) -> Option<usize>
    ensures { MatchOption result (least_free slots.now ≡ length slots.now)
        (λ k. (least_free slots.now ≡ k) × (k < length slots.now)) }
{
    first_empty(slots)
}
