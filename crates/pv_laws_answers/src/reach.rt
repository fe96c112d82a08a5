//! Laws of the answer `reach`: the permissions of a process at each place.

ghost use Rattle.pv_laws_answers.specs.Reach.{ReachIsExact, RenameIsExact, OpenShowsR, OpenShowsW, ExecveShowsX, UnlinkShowsC};
ghost use Rattle.pv_laws_answers.specs.ReachNames.{ReachBeginsWithNames, ReachListsTheListing};

/// If a call makes one walk and needs exactly the promises that correspond to the permissions that it needs at the end,
/// then neither a promise nor the table refuses it if and only if `reach` shows all these permissions at that place.
pub fn reach_is_exact()
    ensures { ReachIsExact }
{}

/// Neither a promise nor the table refuses a rename if and only if `reach` shows c at both its places.
pub fn rename_is_exact()
    ensures { RenameIsExact }
{}

/// If a path leads to a place, and a descriptor and an open file are free, then an open for reading that does not
/// follow a final link is refused by neither a promise nor the table if and only if `reach` shows r there.
pub fn open_shows_r()
    ensures { OpenShowsR }
{}

/// If a path leads to a place, and a descriptor and an open file are free, then an open for writing that does not
/// follow a final link is refused by neither a promise nor the table if and only if `reach` shows w there.
pub fn open_shows_w()
    ensures { OpenShowsW }
{}

/// If a path leads to a place that is not a symbolic link, an execve is refused by neither a promise nor the table if
/// and only if `reach` shows x there.
pub fn execve_shows_x()
    ensures { ExecveShowsX }
{}

/// If a path leads to a place, an unlink is refused by neither a promise nor the table if and only if `reach` shows c
/// there.
pub fn unlink_shows_c()
    ensures { UnlinkShowsC }
{}

/// The names that `reach` lists are those of the listing, in its order: each name to which entries lead from the root,
/// once, with its path, its node and its place. The text for a process begins with one line for each.
pub fn reach_lists_the_listing()
    ensures names { ReachListsTheListing }
    ensures lines { ReachBeginsWithNames }
{}
