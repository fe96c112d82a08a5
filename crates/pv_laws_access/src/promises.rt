//! Laws of refusals and kills that name a promise, pledge(2).

ghost use Rattle.pv_laws_access.specs.Promises.{FirstMissingIsNamed, FirstIncreaseIsNamed, PromiseRefusesExactly, PromiseKillsExactly};

/// A promise is named as missing if and only if a need of the call is not met and the promise is the first of such a
/// need, in the order stdio, rpath, wpath, cpath, proc, exec, unveil.
pub fn first_missing_is_named()
    ensures { FirstMissingIsNamed }
{}

/// A keyword is named as an increase if and only if it is requested and not held, and each earlier requested keyword is
/// held.
pub fn first_increase_is_named()
    ensures { FirstIncreaseIsNamed }
{}

/// A refusal names a promise if and only if it is the first missing one, under `error`, with ENOSYS; or, without
/// `error`, the first keyword that a pledge requests and the process does not hold, with EPERM, the promises before the
/// execpromises.
pub fn promise_refuses_exactly()
    ensures { PromiseRefusesExactly }
{}

/// A kill names a promise if and only if it is the first missing one and the process lacks `error`.
pub fn promise_kills_exactly()
    ensures { PromiseKillsExactly }
{}
