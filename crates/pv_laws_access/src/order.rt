//! Laws of the order of names in getdents(2), listings and reports.

ghost use Rattle.pv_laws_access.specs.Order.{ReportsTheNextName, NamesReportedAscend, ListingsAscend};

/// getdents returns the least name of the directory, in byte order, above the last name returned through the open file,
/// and the open file records it. It returns no bytes if and only if there is no such name.
pub fn getdents_reports_the_next_name()
    ensures { ReportsTheNextName }
{}

/// Of two names that getdents returns through one open file, by any processes and with any steps in between, the later
/// one is greater in byte order. So no name is returned twice through one open file.
pub fn names_reported_ascend()
    ensures { NamesReportedAscend }
{}

/// A listing of a tree, and a report of a state, visit each path from the root exactly once, in ascending order, name
/// by name: `/d/a` before `/d.x`. A report has lines for files only.
pub fn listings_ascend()
    ensures { ListingsAscend }
{}
