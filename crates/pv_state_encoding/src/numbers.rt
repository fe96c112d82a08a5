//! Numbers, and short lists of numbers.
ghost use Rattle.std.specs.Prelude.{◌≡◌, ◌≤◌, ◌∷◌, ◌++◌, [], length, OnOk};
ghost use Rattle.std.specs.List.{list_all};
ghost use Rattle.pv_model.specs.Machine.{bool_numbers, bytes_numbers, integer_numbers};
ghost use Rattle.pv_model.specs.Answers.Numbers.{mode_numbers, permissions_numbers};
ghost use Rattle.pv_state_encoding.specs.Packed.{IsAdded, is_small, packed_in, packed_all};

use pv_model::{Mode, Perms};
use std::alloc::AllocError;

/// Appends a number.
///
/// # Errors
///
/// `AllocError`, if there is no memory. The key then has a prefix of the encoding.
pub fn push_number(key: &mut Vec<u8>, number: u64) -> Result<(), AllocError>
    ensures { OnOk result (IsAdded (number ∷ []) key.old.items key.new.items) }
{
    let mut rest = number;
    let mut left: u8 = 9;
    while left > 0 && rest >= 128 {
        key.push(128 + (rest % 128) as u8)?;
        rest /= 128;
        left -= 1;
    }
    key.push(rest as u8)?;
    Ok(())
}

// Returns whether each of the bytes is encoded as itself. It has no branch, so that several bytes can be tested at once.
fn are_small(bytes: &[u8]) -> bool
    ensures { result ≡ list_all is_small bytes.now }
{
    let mut small = true;
    for byte in bytes {
        small &= *byte < 128;
    }
    small
}

// Appends each of the bytes as a number, one by one.
#[tactic(auto, using(crate::proofs::AppendedNumbers::added_more, crate::proofs::AppendedNumbers::added_none, crate::proofs::AppendedNumbers::added_all))]
fn push_each_item(key: &mut Vec<u8>, bytes: &[u8]) -> Result<(), AllocError>
    ensures { OnOk result (IsAdded bytes.now key.old.items key.new.items) }
{
    for byte in bytes {
        push_number(key, u64::from(*byte))?;
    }
    Ok(())
}

/// Appends each of the bytes as a number.
///
/// # Errors
///
/// As for `push_number`.
#[tactic(auto, using(crate::proofs::AppendedNumbers::added_small))]
pub fn push_items(key: &mut Vec<u8>, bytes: &[u8]) -> Result<(), AllocError>
    ensures { OnOk result (IsAdded bytes.now key.old.items key.new.items) }
{
    if are_small(bytes) {
        key.extend_from_slice(bytes)?;
        return Ok(());
    }
    push_each_item(key, bytes)
}

/// Appends a byte string, preceded by its length.
///
/// # Errors
///
/// As for `push_number`.
#[tactic(auto, using(crate::proofs::AppendedNumbers::added_then, crate::proofs::AppendedNumbers::added_both))]
pub fn push_bytes(key: &mut Vec<u8>, bytes: &[u8]) -> Result<(), AllocError>
    ensures { OnOk result (IsAdded (bytes_numbers bytes.now) key.old.items key.new.items) }
{
    push_number(key, bytes.len() as u64)?;
    push_items(key, bytes)
}

/// Appends a boolean.
///
/// # Errors
///
/// As for `push_number`.
pub fn push_bool(key: &mut Vec<u8>, value: bool) -> Result<(), AllocError>
    ensures { OnOk result (IsAdded (bool_numbers value) key.old.items key.new.items) }
{
    if value {
        push_number(key, 1)
    } else {
        push_number(key, 0)
    }
}

/// Appends a signed number.
///
/// # Errors
///
/// As for `push_number`.
#[tactic(auto, using(crate::proofs::AppendedNumbers::added_then))]
pub fn push_integer(key: &mut Vec<u8>, number: i32) -> Result<(), AllocError>
    ensures { OnOk result (IsAdded (integer_numbers number) key.old.items key.new.items) }
{
    if number >= 0 {
        push_number(key, 0)?;
        push_number(key, u64::from(number.unsigned_abs()))
    } else {
        push_number(key, 1)?;
        push_number(key, u64::from((!number).unsigned_abs()))
    }
}

/// Appends the mode of an open file.
///
/// # Errors
///
/// As for `push_number`.
pub fn push_mode(key: &mut Vec<u8>, mode: Mode) -> Result<(), AllocError>
    ensures { OnOk result (IsAdded (mode_numbers mode) key.old.items key.new.items) }
{
    match mode {
        Mode::Read => push_number(key, 0),
        Mode::Write => push_number(key, 1),
        Mode::ReadWrite => push_number(key, 2),
    }
}

/// Appends permissions.
///
/// # Errors
///
/// As for `push_number`.
#[tactic(auto, using(crate::proofs::AppendedNumbers::added_both))]
pub fn push_permissions(key: &mut Vec<u8>, permissions: Perms) -> Result<(), AllocError>
    ensures { OnOk result (IsAdded (permissions_numbers permissions) key.old.items key.new.items) }
{
    push_bool(key, permissions.r)?;
    push_bool(key, permissions.w)?;
    push_bool(key, permissions.x)?;
    push_bool(key, permissions.c)
}
