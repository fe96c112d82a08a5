//! Laws of the gains of an attacker who takes over a process of a program, at each of its lines.

ghost use Rattle.pv_laws_schedules.specs.Exposure.{ReasonsAreExact, UnlistedLinesHaveNoReason, UnlistedLinesAreClosed, UnlistedLinesCloseAll, UnlistedLinesAreFixed, UnlistedLinesReadNothing, ListedLinesHappen, WitnessesLead, SafeFilesAreClosed, EachFileIsListed};
ghost use Rattle.pv_laws_schedules.specs.ShortestWitnesses.{FindingWitnessesAreShortest};
ghost use Rattle.pv_laws_schedules.specs.UnlistedRuns.{UnlistedFilesAreSealed, UnlistedLinesKeep, UnlistedLinesRunEqually, UnlistedLinesSeal};

/// A reason LEAK, PEER, EDIT or READ is found for a process and a file if and only if the process is not closed to the
/// file, if it is and another live process is not, if it is not fixed to the file, or if its next step reads the file.
pub fn reasons_are_exact()
    ensures { ReasonsAreExact }
{}

/// If a search is complete, in every schedule there is no reason about a process of a program and a file if the line of
/// the process is not listed for the kind of the reason and the file's description.
pub fn unlisted_lines_have_no_reason()
    ensures { UnlistedLinesHaveNoReason }
{}

/// If a search is complete, in every schedule a process of a program at a line that is not listed under LEAK for a file's
/// description is closed to each file with this description.
pub fn unlisted_lines_are_closed()
    ensures { UnlistedLinesAreClosed }
{}

/// If a search is complete, in every schedule with a process of a program at a line that is listed neither under LEAK nor
/// under PEER for a file's description, all live processes are closed to each file with this description.
pub fn unlisted_lines_shut_all()
    ensures { UnlistedLinesCloseAll }
{}

/// If a search is complete, in every schedule a process of a program at a line that is not listed under EDIT for a file's
/// description is fixed to each file with this description.
pub fn unlisted_lines_are_fixed()
    ensures { UnlistedLinesAreFixed }
{}

/// If a search is complete, in every schedule the next step of a process of a program at a line that is not listed under
/// READ for a file's description reads no file with this description.
pub fn unlisted_lines_read_nothing()
    ensures { UnlistedLinesReadNothing }
{}

/// If a search is complete, in every schedule, from a process at a line that is not listed under LEAK for a file's
/// description: no run of this process and those that are forked from it depends on the bytes of the file, given their
/// number.
pub fn unlisted_lines_run_alike()
    ensures { UnlistedLinesRunEqually }
{}

/// If a search is complete, in every schedule, from a process at a line that is not listed under EDIT for a file's
/// description: no run of this process and those that are forked from it changes the bytes of the file while it is there.
pub fn unlisted_lines_keep()
    ensures { UnlistedLinesKeep }
{}

/// If a search is complete, in every schedule with a process at a line that is listed neither under LEAK nor under PEER for
/// the description of a file with a name, this file is sealed, so no run of any processes depends on its bytes.
pub fn unlisted_lines_seal()
    ensures { UnlistedLinesSeal }
{}

/// If a search is complete, in every schedule a file with a name is sealed if all live processes are at lines that are not
/// listed under LEAK for its description, so no run of any processes depends on its bytes.
pub fn unlisted_files_are_sealed()
    ensures { UnlistedFilesAreSealed }
{}

/// For each listed line, some schedule leads to a process of the program at this line and a file with the description, and
/// the statement of the list is true of them.
pub fn listed_lines_happen()
    ensures { ListedLinesHappen }
{}

/// The witness of a line LEAK, PEER or EDIT leads to a process at the greatest of its lines and a file with the
/// description, for the reason that is given; that of a line READ ends with the step that reads the file.
pub fn witnesses_lead()
    ensures { WitnessesLead }
{}

/// If after a schedule the statement of a list is true of a process of the program at the greatest of the lines and a file
/// with the description, this schedule is no shorter than the one to the state of the line's witness.
pub fn finding_witnesses_are_shortest()
    ensures { FindingWitnessesAreShortest }
{}

/// If a search is complete, in every schedule in which a process of a program is live, all live processes are closed to
/// each file that is listed as safe for the program.
pub fn safe_files_are_closed()
    ensures { SafeFilesAreClosed }
{}

/// The files of a tree, by which findings are listed, are all its files, named or held.
pub fn each_file_is_listed()
    ensures { EachFileIsListed }
{}
