//! Directories of a host.
ghost use Rattle.std.specs.Prelude.{◌≢◌, ℕ, List, Option, Err, IfOk, IfSome, IsSome, IsTrue};
ghost use Rattle.pv_host_copy.specs.Hosts.{HostEntries, is_ordered};
ghost use Rattle.pv_host_copy.specs.Reporting.{IsFewer, IsNextReportedName, ReportsEntry};

use crate::entry::HostEntry;
use crate::fault::HostFault;
use crate::file::HostFile;
use std::alloc::Global;

/// A directory of a host: an iterator over its entries. Their names ascend in the order of their bytes, so that the
/// image of a directory does not depend on the order in which the host lists it.
///
/// Contracts see the entries that remain, if they are known. Those of a directory of the real system are unknown. A
/// host has no means to open an entry relative to a directory, so an entry is found by its path. An import assumes that
/// nobody else writes in the directory meanwhile.
pub trait HostDirectory: Sized + Drop {
    /// The type of an open file.
    type Reader: HostFile + Drop;

    /// The entries that remain, if they are known.
    ghost rest: { Self → Option HostEntries };

    /// The last name that was returned, if there is one.
    ghost last: { Self → Option (List ℕ) };

    /// An upper bound of the number of entries that remain, in this directory and in those below it.
    ghost left: { Self → ℕ };

    /// Returns the next entry, or `None` after the last. If the entries of a directory are known, reading it does not
    /// fail with `Read`.
    ///
    /// # Errors
    ///
    /// Returns `Read` if the host fails to read the entry. Returns `Memory` if memory cannot be allocated.
    fn next(&mut self, alloc: Global) -> Result<Option<HostEntry<Self, Self::Reader>>, HostFault>
        ensures reported { IfOk result (λ reported. IfSome (rest self.old) (λ entries. ReportsEntry rest Self.Reader.bytes entries reported (rest self.new))) }
        ensures ordered { IfOk result (λ reported. IsNextReportedName (last self.old) reported (last self.new)) }
        ensures fewer { IfOk result (λ reported. IsFewer left (left self.old) reported (left self.new)) }
        ensures known { IsSome (rest self.old) → result ≢ Err HostFault.Read };

    /// If the entries that remain are known, their names ascend, and come after the last one.
    ghost ascends: { (s : Self) → IfSome (rest s) (λ entries. IsTrue (is_ordered (last s) entries)) };
}
