//! Programs that processes share.
ghost use Rattle.std.specs.Prelude.{◌≡◌, ◌≢◌, ℕ, ◌+◌, ◌<◌, ◌≤◌, ◌==◌, [], ◌∷◌, replicate, length, position, slice_get, slice_set, vec_len, IfOk, OnOk};
ghost use Rattle.pv_procs.specs.Slots.{users_at, shared_program_at};

use pv_model::limits::PROCESSES;
use pv_script::Program;
use std::alloc::{AllocError, Global};
use std::mem::swap;

/// A slot for a program that live processes share, with their number. A program without users stays until another one
/// replaces it.
#[derive(Drop)]
pub(crate) struct Shared {
    pub(crate) program: Program,
    pub(crate) users: u32,
}

/// Creates all slots. The first has a program with one user.
pub(crate) fn first_programs(alloc: Global, program: Program) -> Result<Vec<Shared>, AllocError>
    ensures { IfOk result (λ programs. programs.items
        ≡ (record { program = program; users = 1 }) ∷ replicate 31 (record { program = []; users = 0 })) }
{
    let mut programs = Vec::with_capacity(alloc, PROCESSES)?;
    programs.push(Shared { program, users: 1 })?;
    let unused = Program::empty(alloc)?;
    for _slot in 0..PROCESSES - 1 {
        let program = unused.share()?;
        programs.push(Shared { program, users: 0 })?;
    }
    Ok(programs)
}

/// Replaces the slots in a vector, which has room for them, by copies of others, which share their programs.
///
/// # Errors
///
/// Returns `AllocError` if the reference count of a program is at its limit.
pub(crate) fn share_programs(
    programs: &mut Vec<Shared>,
    others: &[Shared],
) -> Result<(), AllocError>
    ensures { OnOk result (programs.new.items ≡ others.now) }
{
    programs.clear();
    for other in others {
        programs.push(Shared {
            program: other.program.share()?,
            users: other.users,
        })?;
    }
    Ok(())
}

/// Puts prepared programs in the first slots. The programs in the other slots before `most` then have no users.
pub(crate) fn put_programs(programs: &mut [Shared], prepared: &mut [Shared], most: usize)
    requires within { length prepared.old ≤ length programs.old }
    requires most { most ≤ length programs.old }
    requires rest { (k : ℕ) → most ≤ k → users_at programs.old k ≡ 0 }
    ensures put { (k : ℕ) → k < length prepared.old → slice_get programs.new k ≡ slice_get prepared.old k }
    ensures rest { (k : ℕ) → length prepared.old ≤ k → users_at programs.new k ≡ 0 }
    ensures long { length programs.new ≡ length programs.old }
{
    let count = prepared.len();
    for k in 0..count {
        swap(&mut programs[k], &mut prepared[k]);
    }
    for k in count..most {
        programs[k].users = 0;
    }
}

/// Removes a user of the program in slot `k`.
pub(crate) fn unreference(programs: &mut [Shared], k: usize)
    requires within { k < length programs.old }
    requires used { 0 < users_at programs.old k }
    ensures users { users_at programs.new k + 1 ≡ users_at programs.old k }
    ensures other_users { (j : ℕ) → j ≢ k → users_at programs.new j ≡ users_at programs.old j }
    ensures programs { (j : ℕ) → shared_program_at programs.new j ≡ shared_program_at programs.old j }
{
    programs[k].users -= 1;
}

/// Adds a user to the program in slot `k`.
pub(crate) fn take_up(programs: &mut [Shared], k: usize)
    requires within { k < length programs.old }
    requires few { users_at programs.old k < PROCESSES }
    ensures users { users_at programs.new k ≡ users_at programs.old k + 1 }
    ensures other_users { (j : ℕ) → j ≢ k → users_at programs.new j ≡ users_at programs.old j }
    ensures programs { (j : ℕ) → shared_program_at programs.new j ≡ shared_program_at programs.old j }
{
    programs[k].users += 1;
}

/// Returns a slot whose program has no user.
pub(crate) fn free_program(programs: &[Shared]) -> Option<usize>
    ensures { result ≡ position (λ shared. shared.users == 0) programs.now }
{
    programs.iter().position(|shared| shared.users == 0)
}
