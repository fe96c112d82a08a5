//! Laws of how a step changes the permissions of a process at a place.

ghost use Rattle.pv_laws_answers.specs.OverTime.{PermissionsDecreaseWithoutChange, PermissionsDecreaseWithoutC, PermissionsIncreaseByChanges, ChangesShowC};

/// If a step of a process with a locked table starts no new program image and changes no entry, the process gains no
/// permission at any place.
pub fn without_change_letters_go()
    ensures { PermissionsDecreaseWithoutChange }
{}

/// If a step of a process with a locked table starts no new program image, and no entry of the table grants c or the
/// promises lack `cpath`, the process gains no permission at any place.
pub fn without_c_letters_go()
    ensures { PermissionsDecreaseWithoutC }
{}

/// If a step of a process with a locked table starts no new program image and gives the process a permission at a
/// place, it changed the entry there or an entry for a directory at or above the place's directory.
pub fn letters_come_by_changes()
    ensures { PermissionsIncreaseByChanges }
{}

/// Before any step, its process has c at each entry that the step changes.
pub fn changes_show_c()
    ensures { ChangesShowC }
{}
