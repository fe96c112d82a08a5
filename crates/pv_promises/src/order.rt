//! The promises in order, and their bits.
ghost use Rattle.std.specs.Prelude.{◌≡◌, ◌&&◌, not, find, bytes_eq};
ghost use Rattle.pv_model.specs.Machine.{all_promises, promise_name, contains};
ghost use Rattle.pv_model.specs.Promises.{mask, first_increase, promise_of};

use bitflags::Flags;
use pv_model::{Promise, Promises};

/// All promises, in the order of their bits.
pub const ALL: [Promise; 32] = [
    Promise::Stdio,
    Promise::Rpath,
    Promise::Wpath,
    Promise::Cpath,
    Promise::Proc,
    Promise::Exec,
    Promise::Unveil,
    Promise::Error,
    Promise::Dpath,
    Promise::Fattr,
    Promise::Chown,
    Promise::Flock,
    Promise::Unix,
    Promise::Inet,
    Promise::Mcast,
    Promise::Dns,
    Promise::Getpw,
    Promise::Sendfd,
    Promise::Recvfd,
    Promise::Tape,
    Promise::Tty,
    Promise::ProtExec,
    Promise::Settime,
    Promise::Ps,
    Promise::Vminfo,
    Promise::Id,
    Promise::Pf,
    Promise::Route,
    Promise::Wroute,
    Promise::Audio,
    Promise::Video,
    Promise::Bpf,
];

/// Returns the set that contains one promise.
pub(crate) fn single(promise: Promise) -> Promises
    ensures { result.0 ≡ mask promise }
{
    Promises::from_bits_retain(1 << promise.bit())
}

/// Returns whether a set contains a promise.
pub fn has(set: Promises, promise: Promise) -> bool
    ensures { result ≡ contains set.0 promise }
{
    set.contains(single(promise))
}

// Returns the first of some promises whose keyword is `word`.
fn find_by_name(promises: &[Promise], word: &[u8]) -> Option<Promise>
    ensures { result ≡ find (λ p. bytes_eq (promise_name p) word.now) promises.now }
{
    promises
        .iter()
        .copied()
        .find(|promise| promise.name().as_bytes() == word)
}

// Returns the first of some promises that is in `asked` but not in `held`.
fn find_increase(promises: &[Promise], held: Promises, asked: Promises) -> Option<Promise>
    ensures { result ≡ find (λ p. contains asked.0 p && not (contains held.0 p)) promises.now }
{
    promises
        .iter()
        .copied()
        .find(|promise| has(asked, *promise) && !has(held, *promise))
}

/// Returns the promise whose keyword is `word`.
pub(crate) fn promise_of(word: &[u8]) -> Option<Promise>
    ensures { result ≡ promise_of word.now }
{
    find_by_name(&ALL, word)
}

/// Returns the first promise that is in `asked` but not in `held`.
pub(crate) fn first_increase(held: Promises, asked: Promises) -> Option<Promise>
    ensures { result ≡ first_increase held.0 asked.0 }
{
    find_increase(&ALL, held, asked)
}
