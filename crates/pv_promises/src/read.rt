//! Parsing sets of promises.
ghost use Rattle.std.specs.Prelude.{◌≡◌, IfOk, IfErr, OnErr, None, Some};
ghost use Rattle.pv_model.specs.Promises.{read_promises};

use crate::order::{promise_of, single};
use bitflags::Flags;
use pv_model::{Errno, Promises};

/// Parses a set of promises, pledge(2).
///
/// The text consists of keywords separated by spaces. Spaces at both ends and repeated spaces are skipped, and a
/// keyword may be repeated. Every other byte, including a tab, is part of a word.
///
/// # Errors
///
/// Returns `EINVAL` if and only if a word is not a keyword.
pub fn read_promises(text: &[u8]) -> Result<Promises, Errno>
    ensures set { IfOk result (λ set. read_promises text.now ≡ Some set.0) }
    ensures unknown { OnErr result (read_promises text.now ≡ None) }
    ensures errno { IfErr result (λ e. e ≡ Errno.EINVAL) }
{
    let mut set = Promises::empty();
    for word in text.split(|b| *b == b' ').filter(|word| !word.is_empty()) {
        let Some(promise) = promise_of(word) else {
            return Err(Errno::EINVAL);
        };
        set.insert(single(promise));
    }
    Ok(set)
}
