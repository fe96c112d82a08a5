//! Laws of unveil tables.
ghost use Rattle.pv_model.specs.Machine.{Tree, Table};
ghost use Rattle.pv_model.specs.Unveil.{RightsAgree};
ghost use Rattle.pv_unveil.specs.Up.{LeadsToDirectory};

/// In every tree, the entry that a climb from a directory finds is the one that governs the directory: its own entry,
/// or else the one that governs its parent. The root and removed directories inherit no entry.
pub fn rights_flow_down()
    ensures { (t : Tree) (table : Table) → RightsAgree t table }
{}

/// In a well-formed tree, every path leads from a directory to a place that unveil(2) can check: the name of the place
/// is in a directory, or its node is a directory. This holds for all bytes of the path.
pub fn leads_to_directory()
    ensures { LeadsToDirectory }
{}
