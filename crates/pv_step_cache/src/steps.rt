//! Cached transitions.
ghost use Rattle.std.specs.Prelude.{◌≡◌, ◌++◌, ◌∷◌, [], IfOk, IfSome, OnErr, OnOk};

use crate::cells::{Cell, Edit, edited_cells, edits_of, step_key};
use crate::tables::Keys;
use std::alloc::{AllocError, Global};
use std::rc::Rc;

/// A cached transition.
#[derive(Drop)]
pub struct CachedStep {
    /// The key of the step.
    pub key: Vec<u8>,
    /// The texts observed of the step.
    pub texts: Rc<Vec<Vec<u8>>>,
    /// The edits that yield the cells after the step.
    pub edits: Vec<Edit>,
}

/// A cache of transitions, in the order in which they were added.
#[derive(Drop)]
pub struct CachedSteps {
    // The keys, for lookup.
    keys: Keys,
    /// The transitions.
    pub steps: Vec<CachedStep>,
}

/// The result of a step, from the cached transition with its key.
#[derive(Drop)]
pub struct Recalled {
    /// The texts observed of the step.
    pub texts: Rc<Vec<Vec<u8>>>,
    /// The cells after the step.
    pub cells: Vec<Cell>,
}

impl CachedSteps {
    ghost use Rattle.pv_step_cache.specs.Edits.{step_key};
    ghost use Rattle.pv_step_cache.specs.Steps.{Adds, IsCachedStep, WasCached, texts_in};

    /// Returns an empty cache.
    pub fn new(alloc: Global) -> CachedSteps
        ensures { result.steps.items ≡ [] }
    {
        CachedSteps {
            keys: Keys::new(alloc),
            steps: Vec::new(alloc),
        }
    }

    // Returns the transition with a key, if it is cached.
    fn find(&self, key: &[u8]) -> Option<&CachedStep>
        ensures { IfSome result (λ step. IsCachedStep self.now.steps.items key.now step.now) }
    {
        let number = self.keys.find(key)?;
        let step = self.steps.get(number)?;
        if step.key.as_slice() == key {
            Some(step)
        } else {
            None
        }
    }

    // Adds a transition.
    fn add(&mut self, alloc: Global, step: CachedStep) -> Result<(), AllocError>
        ensures added { OnOk result (self.new.steps.items ≡ self.old.steps.items ++ step ∷ []) }
        ensures unchanged { OnErr result (self.new.steps.items ≡ self.old.steps.items) }
    {
        let key = Vec::from_slice(alloc, &step.key)?;
        let _ = self.keys.add(key)?;
        self.steps.push(step)?;
        Ok(())
    }

    /// Returns the result of a process's step in the state of these cells, if a transition with its key is cached.
    ///
    /// # Errors
    ///
    /// `AllocError`, if there is no memory.
    pub fn recall(
        &self,
        alloc: Global,
        cells: &[Cell],
        pid: u32,
    ) -> Result<Option<Recalled>, AllocError>
        ensures { IfOk result (λ made. IfSome made (λ r. WasCached self.now.steps.items (step_key pid cells.now) cells.now (texts_in r.texts.value.items) r.cells.items)) }
    {
        let key = step_key(alloc, cells, pid)?;
        let Some(step) = self.find(&key) else {
            return Ok(None);
        };
        let texts = step.texts.clone()?;
        let cells = edited_cells(alloc, cells, &step.edits)?;
        Ok(Some(Recalled { texts, cells }))
    }

    /// Adds the transition of a process's step, given the cells before and after it and the texts observed of it. Adds
    /// nothing if the step changed the cell of another live process, or if a transition with the same key is cached.
    ///
    /// # Errors
    ///
    /// `AllocError`, if there is no memory. Nothing is then added.
    pub fn keep(
        &mut self,
        alloc: Global,
        before: &[Cell],
        after: &[Cell],
        pid: u32,
        texts: Vec<Vec<u8>>,
    ) -> Result<(), AllocError>
        ensures cached { OnOk result (Adds self.old.steps.items self.new.steps.items pid before.now after.now (texts_in texts.items)) }
        ensures unchanged { OnErr result (self.new.steps.items ≡ self.old.steps.items) }
    {
        let key = step_key(alloc, before, pid)?;
        if self.keys.contains(&key) {
            return Ok(());
        }
        let Some(edits) = edits_of(alloc, before, after, pid)? else {
            return Ok(());
        };
        let texts = Rc::new(alloc, texts)?;
        self.add(alloc, CachedStep { key, texts, edits })
    }
}
