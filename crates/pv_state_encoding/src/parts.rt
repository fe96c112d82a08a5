//! Parts, and groups of parts.
ghost use Rattle.std.specs.Prelude.{◌≡◌, ◌++◌, ◌∷◌, [], OnOk};
ghost use Rattle.pv_state_encoding.specs.Groups.{groups_of, parts_of};

use std::alloc::AllocError;

/// Appends a part to a group.
///
/// # Errors
///
/// `AllocError`, if there is no memory.
pub(crate) fn push_part(group: &mut Vec<Vec<u8>>, part: Vec<u8>) -> Result<(), AllocError>
    ensures { OnOk result (parts_of group.new ≡ parts_of group.old ++ part.items ∷ []) }
{
    group.push(part)?;
    Ok(())
}

/// Appends a group.
///
/// # Errors
///
/// `AllocError`, if there is no memory.
pub(crate) fn push_group(
    groups: &mut Vec<Vec<Vec<u8>>>,
    group: Vec<Vec<u8>>,
) -> Result<(), AllocError>
    ensures { OnOk result (groups_of groups.new.items ≡ groups_of groups.old.items ++ parts_of group ∷ []) }
{
    groups.push(group)?;
    Ok(())
}
