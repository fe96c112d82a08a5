//! The lines of a program, as bytes.
ghost use Rattle.std.specs.Prelude.{◌≡◌, ◌++◌, codes, IfOk, OnOk};
ghost use Rattle.pv_model.specs.Machine.{answer_line, answer_line_bytes};
ghost use Rattle.pv_model.specs.Answers.Policy.{granted_text};
ghost use Rattle.pv_policy.specs.Usage.{need_bytes, new_permission_bytes};

use pv_model::Perms;
use pv_needs::answers::{Letters, Line};
use pv_streams::{Decimal, Plain, text_of};
use std::alloc::{AllocError, Global};

/// Returns the lines of a call with a need: its line BY, which is given, and the need.
///
/// # Errors
///
/// `AllocError`, if there is no memory.
#[tactic(auto, unfolding(pv_model::specs::Trace::text_line))]
pub(crate) fn need_lines(
    alloc: Global,
    by: &[u8],
    pid: u32,
    need: &[u8],
    line: u16,
) -> Result<Vec<u8>, AllocError>
    ensures { IfOk result (λ bytes. bytes.items ≡ need_bytes by.now pid need.now line) }
{
    let text = (Plain(need), Plain(b", line "), Decimal(u32::from(line)));
    let line = Line {
        pid,
        word: *b"PLDG",
        text,
    };
    text_of(alloc, &(Plain(by), line))
}

// Returns the lines of a walk that asks for new permissions.
#[tactic(auto, unfolding(pv_model::specs::Trace::text_line))]
fn walk_lines(
    alloc: Global,
    by: &[u8],
    pid: u32,
    new: Perms,
    words: &[u8],
) -> Result<Vec<u8>, AllocError>
    ensures { IfOk result (λ bytes. bytes.items ≡ by.now ++ answer_line_bytes (answer_line pid (codes "UNVL") (granted_text new words.now))) }
{
    let line = Line {
        pid,
        word: *b"UNVL",
        text: (Letters(new), Plain(b", "), Plain(words)),
    };
    text_of(alloc, &(Plain(by), line))
}

/// Appends the lines of a walk that asks for new permissions, if there are any: the line BY of its step, which is
/// given, and the permissions.
///
/// # Errors
///
/// `AllocError`, if there is no memory.
pub(crate) fn push_new(
    alloc: Global,
    lines: &mut Vec<u8>,
    by: &[u8],
    pid: u32,
    new: Perms,
    words: &[u8],
) -> Result<(), AllocError>
    ensures { OnOk result (lines.new.items ≡ lines.old.items ++ new_permission_bytes by.now pid new words.now) }
{
    if Perms::NONE.covers(new) {
        return Ok(());
    }
    let text = walk_lines(alloc, by, pid, new, words)?;
    lines.extend_from_slice(&text)
}
