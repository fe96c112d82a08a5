//! Laws of the answer `needs`: the sufficient and the necessary promises and permissions of one program image of a
//! process.

ghost use Rattle.pv_laws_answers.specs.ProcessImages.{ProcessImagesAreOfCalls, ProcessImagesAreOfTheRun, ListedPromisesAreEnough, ListedPromisesAreNeeded, ImagePermissionsAreEnough, ImagePermissionsAreNeeded};

/// The program images that the text lists consist of the calls of the run.
pub fn process_images_are_of_calls()
    ensures { ProcessImagesAreOfCalls }
{}

/// Each call of a program image is made by the process in a state of the run.
pub fn process_images_are_of_the_run()
    ensures { ProcessImagesAreOfTheRun }
{}

/// If a process has all the promises listed for a program image throughout, no promise kills it or refuses any of the
/// image's calls.
pub fn listed_promises_are_enough()
    ensures { ListedPromisesAreEnough }
{}

/// If a process lacks a listed promise (and wpath too if the promise is rpath and wpath would do), every call that
/// needed it is killed or refused, in particular the first one.
pub fn listed_promises_are_needed()
    ensures { ListedPromisesAreNeeded }
{}

/// If the process's table is replaced by one that grants all listed permissions at each listed target, no call has an
/// UNVL line, except for a second walk whose call was refused at the first walk in the run.
pub fn listed_letters_are_enough()
    ensures { ImagePermissionsAreEnough }
{}

/// If the process's table is replaced by one that lacks a listed permission at one target, but grants all listed
/// permissions at the others, the entry that governs the target refuses every call that needed the permission there, in
/// particular the first one.
pub fn listed_letters_are_needed()
    ensures { ImagePermissionsAreNeeded }
{}
