//! A set of lists of parts.
ghost use Rattle.std.specs.Prelude.{◌≡◌, [], length, IfOk};
ghost use Rattle.pv_reduced.specs.Lists.{IsListAddedTo};
ghost use Rattle.pv_explore.specs.Rows.{parts_in};

use pv_explore::learn_row;
use pv_explore::step_cache::tables::Keys;
use std::alloc::{AllocError, Global};
use std::marker::Model;

/// A set of lists of byte strings, the parts, in insertion order. Each part is stored once, and a list as a row of the
/// numbers of its parts. A contract sees the lists.
#[derive(Drop)]
pub(crate) struct PartLists {
    // The parts.
    parts: Keys,
    // Rows of part numbers.
    rows: Keys,
}

/// The result of adding a list to a set.
#[derive(Clone, Copy)]
pub(crate) enum Addition {
    /// The set contains the list already.
    Known,
    /// The list is new, but the limit is reached.
    Full,
    /// The list is new and was added.
    New,
}

impl Model for PartLists {
    ghost use Rattle.std.specs.Prelude.{List, map};
    ghost use Rattle.pv_model.specs.Bytes.{Bytes};
    ghost use Rattle.pv_reduced.specs.Lists.{AreRows, parts_in_row};

    ghost Value = { List (List Bytes) };

    ghost view = { λ s. map (parts_in_row s.parts) s.rows };

    ghost invariant = { λ s. AreRows s.parts s.rows };
}

impl PartLists {
    /// Returns an empty set.
    pub(crate) fn new(alloc: Global) -> PartLists
        ensures { result ≡ [] }
    {
        PartLists {
            parts: Keys::new(alloc),
            rows: Keys::new(alloc),
        }
    }

    /// Returns the number of lists.
    pub(crate) fn len(&self) -> usize
        ensures { result ≡ length self.now }
    {
        self.rows.len()
    }

    /// Adds a list, if the set has fewer than `limit` lists and does not contain it.
    ///
    /// # Errors
    ///
    /// `AllocError`, if there is no memory. The set is then unchanged.
    pub(crate) fn add(
        &mut self,
        alloc: Global,
        limit: usize,
        list: &[Vec<u8>],
    ) -> Result<Addition, AllocError>
        ensures { IfOk result (λ addition. IsListAddedTo limit (parts_in list.now) addition self.old self.new) }
    {
        let row = learn_row(alloc, &mut self.parts, list)?;
        if self.rows.contains(&row) {
            return Ok(Addition::Known);
        }
        if self.rows.len() >= limit {
            return Ok(Addition::Full);
        }
        let _ = self.rows.add(row)?;
        Ok(Addition::New)
    }
}
