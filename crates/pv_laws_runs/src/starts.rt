//! Laws of the inputs that a machine starts from.

ghost use Rattle.pv_laws_runs.specs.Asked.{BundlesAreAsked, ImagesAreAsked};
ghost use Rattle.pv_laws_runs.specs.OwnSources.{StartedBundlesAreAccepted, StartedBundlesAreTheirOwn};
ghost use Rattle.pv_laws_runs.specs.Starts.{ProgramsAreInRange, ManifestsMakeFirstTrees, ImagesHoldFirstTrees, BootIsValid};

/// Bytes that parse as a program are a valid program: it has at most 256 lines, and each argument is in its range.
pub fn programs_are_in_range()
    ensures { ProgramsAreInRange }
{}

/// The tree of a manifest, alone or in a bundle, is a valid first tree: it is well-formed, each node other than the
/// root has a name, and the image has room for it.
pub fn manifests_make_first_trees()
    ensures { ManifestsMakeFirstTrees }
{}

/// The tree that an image holds is a valid first tree. In particular, it has room, because the blocks that its nodes
/// use are distinct data blocks.
pub fn images_hold_first_trees()
    ensures { ImagesHoldFirstTrees }
{}

/// The state in which a machine starts is valid.
pub fn boot_is_whole()
    ensures { BootIsValid }
{}

/// The checks of a run on an image succeed with a machine and a schedule if and only if the bytes are an image of a
/// tree on which that machine boots, and the text encodes that schedule.
pub fn images_are_asked()
    ensures { ImagesAreAsked }
{}

/// The checks of a run of a bundle succeed with a machine and a schedule if and only if the entries of its manifest
/// make a tree on which that machine boots, and the lines after the manifest encode that schedule.
pub fn bundles_are_asked()
    ensures { BundlesAreAsked }
{}

/// A bundle on which the machine starts is its own source, if each of its lines ends with an LF and no line `name` makes
/// `/init`: `pvsim source` accepts it and writes the same bytes.
pub fn started_bundles_are_their_own()
    ensures accepted { StartedBundlesAreAccepted }
    ensures own { StartedBundlesAreTheirOwn }
{}
