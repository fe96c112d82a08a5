//! Laws of the gains of an attacker who takes over a process of a program, at each of its lines, by the reduced search.

ghost use Rattle.pv_laws_schedules.specs.ReducedExposure.{UnlistedLinesAreClosedReduced, UnlistedLinesReadNothingReduced, ListedLinesHappenReduced, WitnessesLeadReduced, SafeFilesAreClosedReduced};
ghost use Rattle.pv_laws_schedules.specs.UnlistedRuns.{UnlistedFilesAreSealedReduced, UnlistedLinesRunEquallyReduced};

/// If the reduced search is complete, after every schedule a process of a program at a line that is not listed under LEAK
/// for a file's description is closed to each file with this description.
pub fn unlisted_lines_are_closed_reduced()
    ensures { UnlistedLinesAreClosedReduced }
{}

/// If the reduced search is complete, after every schedule the next step of a process of a program at a line that is not
/// listed under READ for a file's description reads no file with this description.
pub fn unlisted_lines_read_nothing_reduced()
    ensures { UnlistedLinesReadNothingReduced }
{}

/// If the reduced search is complete, after every schedule, from a process at a line that is not listed under LEAK for a
/// file's description: no run of this process and those that are forked from it depends on the bytes of the file, given
/// their number.
pub fn unlisted_lines_run_alike_reduced()
    ensures { UnlistedLinesRunEquallyReduced }
{}

/// If the reduced search is complete, after every schedule a file with a name is sealed if all live processes are at lines
/// that are not listed under LEAK for its description, so no run of any processes depends on its bytes.
pub fn unlisted_files_are_sealed_reduced()
    ensures { UnlistedFilesAreSealedReduced }
{}

/// For each line that the reduced search lists, some schedule leads to a process of the program at this line and a file
/// with the description, and the statement of the list is true of them.
pub fn listed_lines_happen_reduced()
    ensures { ListedLinesHappenReduced }
{}

/// The witness of a line LEAK, PEER or EDIT by the reduced search leads to a process at the greatest of its lines and a file
/// with the description, for the reason that is given; that of a line READ ends with the step that reads the file.
pub fn witnesses_lead_reduced()
    ensures { WitnessesLeadReduced }
{}

/// If the reduced search is complete, after every schedule each process of a program is closed to each file that is
/// listed as safe for it.
pub fn safe_files_are_closed_reduced()
    ensures { SafeFilesAreClosedReduced }
{}
