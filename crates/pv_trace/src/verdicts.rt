//! The decisions about a call that a trace reports, as values.
ghost use Rattle.std.specs.Prelude.{◌≡◌, ◌≤◌, length, take, IfSome, option_map};
ghost use Rattle.pv_model.specs.declared.call.Call.{Call};
ghost use Rattle.pv_model.specs.Machine.{call_of, promise_words, unveil_words};
ghost use Rattle.pv_model.specs.Trace.{asked_permissions as permissions_asked};
ghost use Rattle.pv_trace.specs.Steps.{refusal_verdict, moved_by};
ghost use Rattle.pv_trace.specs.Reported.{promise_words_of, unveil_words_of, moved_words_of};
ghost use Rattle.pv_trace.specs.Words.{promise_verdict_of};

use crate::line::{Direction, PromiseVerdict, UnveilVerdict};
use pv_model::{CallRef, Cause, Errno, Outcome, Perms, Promise, Walks};

// Returns the verdict of an error: the call lacks a promise, or it requests an increase of promises.
fn verdict_of(errno: Errno) -> PromiseVerdict
    ensures { promise_verdict_of result ≡ refusal_verdict errno }
{
    match errno {
        Errno::ENOSYS => PromiseVerdict::Refused,
        _ => PromiseVerdict::Increase,
    }
}

/// Returns the promise that decided the outcome of a call, with the decision, or `None` if no promise did.
pub fn reported_promise(outcome: Outcome) -> Option<(Promise, PromiseVerdict)>
    ensures { (call : Call) → promise_words_of call result ≡ promise_words call outcome }
{
    match outcome {
        Outcome::Killed(promise) => Some((promise, PromiseVerdict::Killed)),
        Outcome::Failed(errno, Cause::Promise(promise)) => Some((promise, verdict_of(errno))),
        _ => None,
    }
}

// Returns the permissions that a call requires at the last place to which it walked.
#[tactic(auto, unfolding(pv_model::specs::Trace::asked_permissions))]
fn asked_permissions(call: CallRef<'_>, walks: u8) -> Perms
    ensures { result ≡ permissions_asked (call_of call.entry) walks }
{
    match (call.walks(), walks) {
        (Walks::One(walk) | Walks::Two(walk, _), 1) => walk.needed,
        (Walks::Two(_, walk), 2) => walk.needed,
        _ => Perms::NONE,
    }
}

/// Returns the decision of the unveil table about a call that started `walks` walks, or `None` if the table decided
/// nothing.
pub fn reported_table_verdict(
    call: CallRef<'_>,
    walks: u8,
    outcome: Outcome,
) -> Option<UnveilVerdict>
    ensures { unveil_words_of result ≡ unveil_words (call_of call.entry) walks outcome }
{
    match outcome {
        Outcome::Failed(_, Cause::Unveil(None)) => {
            Some(UnveilVerdict::NoEntry(asked_permissions(call, walks)))
        }
        Outcome::Failed(_, Cause::Unveil(Some(entry))) => {
            Some(UnveilVerdict::EntryLacks(entry, asked_permissions(call, walks)))
        }
        Outcome::Failed(_, Cause::Locked) => Some(UnveilVerdict::Locked),
        _ => None,
    }
}

// Returns the first `count` bytes, or all if there are fewer.
fn front_of(bytes: &[u8], count: usize) -> &[u8]
    ensures text { result.now ≡ take count bytes.now }
    ensures few { length result.now ≤ length bytes.now }
{
    if count < bytes.len() {
        &bytes[..count]
    } else {
        bytes
    }
}

/// Returns the bytes that a call transferred, with the direction, or `None` if it transferred none. They are at the
/// start of `front`, the buffer of the process.
pub fn reported_bytes<'a>(
    front: &'a [u8],
    call: CallRef<'_>,
    outcome: Outcome,
) -> Option<(Direction, &'a [u8])>
    ensures words { moved_words_of (option_map (λ moved. (moved.0, moved.1.now)) result) ≡ moved_by front.now (call_of call.entry) outcome }
    ensures few { IfSome result (λ moved. length moved.1.now ≤ length front.now) }
{
    match (outcome, call) {
        (Outcome::Text(taken), _) => Some((Direction::Gave, front_of(front, taken.len as usize))),
        (Outcome::Value(count), CallRef::Write(_, _)) => {
            Some((Direction::Took, front_of(front, count as usize)))
        }
        _ => None,
    }
}
