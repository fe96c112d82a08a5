//! Path resolution, symlink(7): from a path to the place that it names in a tree, with a name cache.
//!
//! Contracts see the specification's tree and the maps with which a `Lookup` agrees. `resolve` returns exactly what the
//! specification's path resolution returns, for every lookup that agrees with the tree; `resolve_ref` does the same
//! without copying the name. No call fails for lack of memory. A path is walked in place; after a symbolic link, the
//! remaining components are in a buffer of 1,024 bytes.
//!
//! `walk` walks a path step by step, `component` splits off its first component, `lead` resolves one component, `along`
//! is the rest of a path and `joined` the rest after a link, `stop` is the state at which a walk stops, `lookup`
//! defines how entries are found, `cached` is the name cache, and `short_name` has its names.
#![tactic(auto)]

mod along;
mod cached;
mod component;
mod joined;
mod lead;
mod lookup;
mod short_name;
mod stop;
mod walk;

pub use cached::CachedLookup;
pub use component::{ends_in_dot, is_absolute};
pub use lookup::{Lookup, PlainLookup};
pub use pv_tree as tree;
pub use walk::{resolve, resolve_ref};
