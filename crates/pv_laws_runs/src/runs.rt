//! Laws of every run that an accepted input starts.

ghost use Rattle.pv_laws_runs.specs.Runs.{ReachedIsValid, RunsAreJustified, RunsNeverAddRights, RunsKeepOthers, SealedReportsNothing, FrozenStaysUnchanged, AcceptedImagesStart, ImagesStart, BundlesStart};

/// An accepted image starts in a state to which the laws of runs apply.
pub fn accepted_images_start()
    ensures { AcceptedImagesStart }
{}

/// A run on an image whose checks succeed starts in a state to which the laws of runs apply.
pub fn images_start()
    ensures { ImagesStart }
{}

/// A run of a bundle whose checks succeed starts in a state to which the laws of runs apply.
pub fn bundles_start()
    ensures { BundlesStart }
{}

/// Invariant: every state that a run reaches is valid.
pub fn reached_is_whole()
    ensures { ReachedIsValid }
{}

/// Complete mediation: each touch of each step is justified by the promises that the process has, and by a place that
/// its table allows or a descriptor of the process.
pub fn runs_are_just()
    ensures { RunsAreJustified }
{}

/// Monotonicity of privilege: while a process stays live in one program image, it loses no restraint, whichever
/// processes make the steps in between.
pub fn runs_never_loosen()
    ensures { RunsNeverAddRights }
{}

/// Noninterference in the state: a step of another process leaves a live process live, and changes only its parent.
pub fn runs_keep_others()
    ensures { RunsKeepOthers }
{}

/// Confidentiality: from every reachable state in which a file is sealed, it stays sealed, and replacing its bytes by
/// others of equal length changes no byte of the trace, and nothing in the final state but these bytes.
pub fn sealed_reports_nothing()
    ensures { SealedReportsNothing }
{}

/// Integrity: from every reachable state in which a file is frozen, it stays frozen, and its bytes stay the same.
pub fn frozen_is_left()
    ensures { FrozenStaysUnchanged }
{}
