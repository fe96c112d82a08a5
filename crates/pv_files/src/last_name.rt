//! The last name that was listed through an open file.
ghost use Rattle.std.specs.Prelude.{◌≡◌, true, None, Some};
ghost use Rattle.std.specs.Option.{option_copied};

use pv_model::Name;
use std::marker::Model;

/// The last name listed, if there is one. Contracts see it as an optional name. `forget` does not free its storage.
#[derive(Drop)]
pub(crate) struct LastName {
    given: bool,
    // The last name that was set. It is valid only if `given` is true.
    name: Name,
}

impl Model for LastName {
    ghost use Rattle.std.specs.Prelude.{List, ℕ, Option, None, Some, if◌then◌else◌};

    ghost Value = { Option (List ℕ) };

    ghost view = { λ l. if l.given then Some l.name else None };
}

impl LastName {
    /// Creates a value without a name.
    pub(crate) fn none() -> LastName
        ensures { result ≡ None }
    {
        LastName {
            given: false,
            name: Name::new(b"".as_slice()).unwrap(),
        }
    }

    /// Forgets the name. Its bytes are not overwritten.
    pub(crate) fn forget(&mut self)
        ensures { self.new ≡ None }
    {
        self.given = false;
    }

    /// Sets the name.
    pub(crate) fn keep(&mut self, name: Name)
        ensures { self.new ≡ Some name }
    {
        self.given = true;
        self.name = name;
    }

    /// Returns the name, if there is one.
    pub(crate) fn get(&self) -> Option<&Name>
        ensures { option_copied result ≡ self.now }
    {
        if self.given { Some(&self.name) } else { None }
    }

    /// Returns true only if two values are equal.
    pub(crate) fn is_same(&self, other: &LastName) -> bool
        ensures { result ≡ true → self.now ≡ other.now }
    {
        match (self.get(), other.get()) {
            (None, None) => true,
            (Some(name), Some(other)) => name.as_slice() == other.as_slice(),
            _ => false,
        }
    }

    /// Makes this value equal to another one.
    pub(crate) fn copy_from(&mut self, other: &LastName)
        ensures { self.new ≡ other.now }
    {
        match other.get() {
            Some(name) => self.keep(name.copy()),
            None => self.forget(),
        }
    }
}
