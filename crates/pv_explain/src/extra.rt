//! The choice of the lines that are added to a brief explanation.

/// The lines that are added to those of a brief explanation.
#[derive(Clone, Copy)]
pub struct Extra {
    /// Why a call failed that neither a promise nor a table refused, and the effect of an execve(2) on the restraints
    /// of its process.
    pub errors: bool,
    /// The reason why each checked walk was allowed.
    pub allowed: bool,
}
