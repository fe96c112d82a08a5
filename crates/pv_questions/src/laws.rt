//! Laws of answers: a bundle or a manifest gives the same answers as the image that is made of it.
//!
//! Each function has an empty body. Its contract is the law, which the check proves.
ghost use Rattle.pv_questions.specs.Laws.{BundlesAnswerUnderTheirSchedules, CutsKeepFirstSteps, ImagesAnswerAsTheirManifests, ImagesAreNoSources, ImagesBootAsManifests, ManifestsAreSources, ManifestsStandAlone, WitnessesAreReadBack};

/// States that a manifest alone parses the same where a bundle is allowed.
pub fn manifests_stand_alone()
    ensures { ManifestsStandAlone }
{}

/// States that an image gives the same answer to each question as the manifest that it is made from, under each schedule
/// that is given beside them.
pub fn images_answer_as_their_manifests()
    ensures { ImagesAnswerAsTheirManifests }
{}

/// States that a bundle gives the same answer to each question under its own schedule as its manifest alone under that
/// schedule.
pub fn bundles_answer_under_their_schedules()
    ensures { BundlesAnswerUnderTheirSchedules }
{}

/// States that the machine of an image is that of the manifest that it is made from, so their comparisons are equal.
pub fn images_boot_as_manifests()
    ensures { ImagesBootAsManifests }
{}

/// States that a file that is an image is not taken for a source.
pub fn images_are_no_sources()
    ensures { ImagesAreNoSources }
{}

/// States that a bundle or a manifest is taken for a source.
pub fn manifests_are_sources()
    ensures { ManifestsAreSources }
{}

/// States that the steps of a schedule that is cut are the first steps of the schedule.
pub fn cuts_keep_first_steps()
    ensures { CutsKeepFirstSteps }
{}

/// States that the text of a witness, which `--by` takes, parses as its turns, whose steps are those of the witness, within
/// the limits of a schedule: 65,536 turns, and 99,999 for a process number and a count.
pub fn witnesses_are_read_back()
    ensures { WitnessesAreReadBack }
{}
