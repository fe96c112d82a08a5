//! Laws of images: the values that are read from the bytes of an image agree with the relations of the format, and
//! bytes mount if and only if they are an image of a tree.

ghost use Rattle.pv_laws_trees.specs.Faults.{FirstErrorIsNamed};
ghost use Rattle.pv_laws_trees.specs.Inodes.{InodesAreTested, BlocksAreTested, ContentsAreTested, PlacesAreTested, NamesAreSlots, ReachedInFewSteps};
ghost use Rattle.pv_laws_trees.specs.Slots.{SlotsAreRead};
ghost use Rattle.pv_laws_trees.specs.Starts.{StartsIfInitParses};
ghost use Rattle.pv_laws_trees.specs.Mounts.{MountsImages, HoldsOneTree, AcceptedImagesBoot};

/// Bytes are slots with the given entries if and only if they consist of complete slots whose names have the stated
/// lengths, and the entries are those that the slots contain.
pub fn slots_are_read_as_written()
    ensures { SlotsAreRead }
{}

/// The error for bytes that are not an image is their first one, in the format's order of errors and with the least
/// inode number.
pub fn first_fault_is_named()
    ensures { FirstErrorIsNamed }
{}

/// A machine starts on a tree if and only if `init` is absent or is an executable file that parses as a program, and it
/// starts in the first state of that program.
pub fn machine_starts_if_init_parses()
    ensures { StartsIfInitParses }
{}

/// An inode passes the test of its kind and size if and only if the kind is one of the five and may have that size.
pub fn inodes_are_tested()
    ensures { InodesAreTested }
{}

/// An inode passes the test of its blocks if and only if they are data blocks, distinct, and not used by an inode with
/// a lesser number.
pub fn blocks_are_tested()
    ensures { BlocksAreTested }
{}

/// An inode passes the test of its content if and only if each slot contains the number of an inode in use and a valid
/// name, no name occurs twice, and a link's text contains no zero byte.
pub fn contents_are_tested()
    ensures { ContentsAreTested }
{}

/// An inode passes the test of its place if and only if it is free and not the root, or its number of names is one that
/// its kind may have and equals the stored count, and slots lead to it from the root.
pub fn places_are_tested()
    ensures { PlacesAreTested }
{}

/// If no directory contains a name twice, a node has one name for each slot that contains its number.
pub fn names_are_slots()
    ensures { NamesAreSlots }
{}

/// If no directory contains a name twice and every entry names an inode, a node that entries reach from the root is
/// reached within n steps, if there are n inodes.
pub fn reached_in_few_steps()
    ensures { ReachedInFewSteps }
{}

/// Bytes mount as a tree if and only if they are an image of that tree.
pub fn images_mount()
    ensures { MountsImages }
{}

/// Bytes are an image of at most one tree.
pub fn images_hold_one_tree()
    ensures { HoldsOneTree }
{}

/// An image is accepted if and only if it mounts and a machine boots on its tree.
pub fn accepted_images_boot()
    ensures { AcceptedImagesBoot }
{}
