//! Laws of the data of a process that `access`, `policy` and `exposure` show in a state: the reduced search finds them.

ghost use Rattle.pv_laws_classes.specs.Shown.{EachProcessIsSeen, BothSearchesSeeTheSame, EachAccessIsListedReduced, ListedAccessesHappenReduced, ReducedAccessesAreSame};

/// If the reduced search is complete, then for each live process after each schedule, it visits a state in which this process
/// may make the next step and shows the same, with a witness that is no longer than the schedule.
pub fn each_process_is_seen()
    ensures { EachProcessIsSeen }
{}

/// If the reduced and the full search are complete, each visits, for each live process of each state that the other
/// visits, a state in which this process shows the same, with a witness that is no longer.
pub fn both_see_the_same()
    ensures { BothSearchesSeeTheSame }
{}

/// If the reduced search is complete, each access of each step of a live process in each schedule is listed. With given
/// files, so is each that is about one of them.
pub fn each_access_is_listed_reduced()
    ensures { EachAccessIsListedReduced }
{}

/// Each access that `access --reduced` lists is one of the last step of its witness, no schedule of live processes with
/// such an access is shorter, and no two have the same line, whether the search is complete or not.
pub fn listed_accesses_happen_reduced()
    ensures { ListedAccessesHappenReduced }
{}

/// If the reduced and the full search are complete, both list the same accesses, with witnesses of the same lengths,
/// and the same files as unread; so they do about given files.
pub fn reduced_accesses_are_same()
    ensures { ReducedAccessesAreSame }
{}
