//! Worked examples: results of the definitions of `pv_model` on concrete bundles, images and texts, proved by
//! computation.
//!
//! Each module of `specs/` has the examples of one subject as theorems that hold by `refl`, and `AllWorked` names them
//! all. `Bundles` has the complete text of some runs. `Errors` and the modules of single subjects have each error of
//! each call. Other modules have walks, promises, unveil tables, processes, audits, texts and parse errors (`Grammars`,
//! `Texts`, `Mounts`, `Starts`), and `Images` has the bytes of images.
//!
//! The examples test the specification independently of the code.
#![tactic(auto)]

ghost use Rattle.std.specs.Prelude.{ℕ, ◌<◌};
ghost use Rattle.pv_model.specs.Machine.{IsImageOf, IsWrittenImageOf, Tree};
ghost use Rattle.pv_laws_worked.specs.AllWorked.{AllWorked};
ghost use Rattle.pv_laws_worked.specs.Images.{smallest, smallest_tree, example, example_tree, past_slot};

/// Every worked example holds: the definitions compute exactly the values that its module in `specs/` states.
pub fn worked_runs_are_as_they_are_written()
    ensures { AllWorked }
{}

/// The smallest image and the image of a run hold their trees, with zeros in all bytes that no node uses.
///
/// An image holds no tree if the only slot of its root names an inode in use but gives its name a length greater than
/// the slot has room for.
pub fn images_are_as_they_are_written()
    ensures smallest { IsWrittenImageOf smallest smallest_tree }
    ensures example { IsWrittenImageOf example example_tree }
    ensures past_slot { (long : ℕ) (t : Tree) → 60 < long → IsImageOf (past_slot long) t → ⊥ }
{}
