//! Laws of copies between images and host directories.
ghost use Rattle.pv_host_copy.specs.Given.{NeedsNoSource};
ghost use Rattle.pv_host_copy.specs.GivenWorked.{AllGivenWorked};
ghost use Rattle.pv_host_copy.specs.Shown.{ExportIsImported};

/// The host directory that an export makes of a tree is imported as exactly the manifest that the export created, in
/// the same order, with the same hard links, and no entry is skipped. This holds for every tree whose nodes an image of
/// the version can contain, whatever identities the host gives to the nodes. So the image of an exported directory is
/// the image of the tree's manifest.
pub fn export_is_imported()
    ensures { ExportIsImported }
{}

/// Without entries of a source, an import makes the tree of the manifest of the host directory.
pub fn import_needs_no_source()
    ensures { NeedsNoSource }
{}

/// Every worked example holds: the definitions compute exactly the entries and the tree that `specs/GivenWorked.antt`
/// states.
pub fn worked_imports_are_as_they_are_written()
    ensures { AllGivenWorked }
{}
