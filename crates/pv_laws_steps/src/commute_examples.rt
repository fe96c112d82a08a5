//! Worked runs of two processes, by computation: steps that commute, and steps that do not.

ghost use Rattle.pv_laws_steps.specs.CommuteExamples.{OrderExamples, OffsetExamples, WriteExamples};
ghost use Rattle.pv_laws_steps.specs.CommuteExamples.{DescriptorExamples, DirectoryExamples};
ghost use Rattle.pv_laws_steps.specs.HoldingExamples.{UnveilExamples, ExecveExamples, FullImageExamples};
ghost use Rattle.pv_laws_steps.specs.GrowingExamples.{GrowingExamples, CutExamples};
ghost use Rattle.pv_laws_steps.specs.EntriesExamples.{EntryExamples};

/// After a fork, the getpids of both processes commute; but two lseeks in a shared open file do not, because each
/// continues at the offset where the other stopped.
pub fn order_happens()
    ensures { OrderExamples }
{}

/// A read and an unlink of the file commute; but a read and a write of the file do not, nor do a listing and the
/// creation of a name in the directory.
pub fn offsets_happen()
    ensures { OffsetExamples }
{}

/// Two closes of descriptors for one open file commute; but an open gets a different number after a close that removes
/// an open file.
pub fn descriptors_happen()
    ensures { DescriptorExamples }
{}

/// An fchdir and an rmdir of the directory commute; but a chdir fails after the rmdir, and a mkdir gets a different
/// number after a chdir that leaves a directory without a name.
pub fn directories_happen()
    ensures { DirectoryExamples }
{}

/// An unveil of a directory and an open of it commute; but after a rename of the directory, the unveil adds an entry
/// for the old name.
pub fn unveils_happen()
    ensures { UnveilExamples }
{}

/// An execve that closes a descriptor and a close of the other descriptor commute; but the execve fails after an unlink
/// of its file, and an open or a mkdir gets another number after an execve that frees an open file or a directory.
pub fn execves_happen()
    ensures { ExecveExamples }
{}

/// If an image is full, a mkdir and a chdir out of a directory without a name commute as long as another process still
/// references that directory; but a chdir that releases the directory makes room for the mkdir.
pub fn full_images_happen()
    ensures { FullImageExamples }
{}

/// A write that extends its file within a block and an unlink of the file commute; but a read, an lseek to the end and
/// a call through the same open file observe the extension, and only the first of two writes gets the last block.
pub fn growing_happens()
    ensures { GrowingExamples }
{}

/// An ftruncate within a block and a call through the same open file commute; but a read and an lseek to the end depend
/// on the new length, and an ftruncate that frees a block makes room for a write.
pub fn cuts_happen()
    ensures { CutExamples }
{}

/// A listing of a directory and a rename of it commute; but a listing of its parent returns the new name, a symlink
/// takes the last block from a write, an fstat depends on the new length of a file, and a getppid returns the process
/// that adopted the caller.
pub fn entries_happen()
    ensures { EntryExamples }
{}

/// A write within a file and a stat of the file commute; but of two writes to the same bytes the later one prevails,
/// and an lseek to the end depends on a write that extends the file.
pub fn writes_happen()
    ensures { WriteExamples }
{}
