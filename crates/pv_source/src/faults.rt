//! The reported errors of a source.
ghost use Rattle.std.specs.Prelude.{◌≡◌, ◌↔◌, ◌≤◌, ◌∷◌, [], length, map, OnOk, IsTrue};
ghost use Rattle.pv_source.specs.Reporting.{ReportsLines, line_of_error};

use crate::explaining::Saying;
use std::alloc::{AllocError, Global};
use std::marker::Model;

/// The maximum number of errors that are reported.
pub const REPORTED: usize = 20;

/// An error: a line of the source with a message.
#[derive(Drop)]
pub struct Fault {
    /// The number of the line, counted from 1.
    pub line: u32,
    /// The message: the text that was found and the expected text.
    pub what: Saying,
}

/// The reported errors, at most twenty. Contracts see the numbers of their lines.
#[derive(Drop)]
pub struct Faults {
    reported: Vec<Fault>,
}

impl Model for Faults {
    ghost use Rattle.std.specs.Prelude.{ℕ, List, map, length, ◌≤◌};
    ghost use Rattle.pv_source.specs.declared.faults.TheConstants.{REPORTED};
    ghost use Rattle.pv_source.specs.Reporting.{line_of_error};

    ghost Value = { List ℕ };

    ghost view = { λ f. map line_of_error f.reported.items };

    ghost invariant = { λ f. length f.reported.items ≤ REPORTED };
}

impl Faults {
    /// Creates an empty list of errors.
    pub fn new(alloc: Global) -> Faults
        ensures { result ≡ [] }
    {
        Faults {
            reported: Vec::new(alloc),
        }
    }

    /// Appends an error, unless there are twenty already.
    ///
    /// # Errors
    ///
    /// Returns `AllocError` if memory cannot be allocated.
    #[tactic(auto, using(crate::proofs::ReportedLines::reported_full, crate::proofs::ReportedLines::reported_one))]
    pub fn report(&mut self, line: u32, what: Saying) -> Result<(), AllocError>
        ensures { OnOk result (ReportsLines self.old self.new (line ∷ [])) }
    {
        if self.reported.len() == REPORTED {
            return Ok(());
        }
        self.reported.push(Fault { line, what })?;
        Ok(())
    }

    /// Returns whether the list is full, so that no message for a further error is needed.
    pub fn is_full(&self) -> bool
        ensures { IsTrue result ↔ (length self.now ≡ REPORTED) }
    {
        self.reported.len() == REPORTED
    }

    /// Returns whether there are no errors.
    pub fn is_empty(&self) -> bool
        ensures value { IsTrue result ↔ (self.now ≡ []) }
        ensures few { length self.now ≤ REPORTED }
    {
        self.reported.is_empty()
    }

    /// Returns the errors, in the order in which they were reported.
    pub fn reported(&self) -> &[Fault]
        ensures { map line_of_error result.now ≡ self.now }
    {
        self.reported.as_slice()
    }
}
