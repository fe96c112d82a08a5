//! A worked run with a sealed file and a frozen file.

ghost use Rattle.pv_laws_runs.specs.Examples.{SecrecyExamples};

/// After four steps of a worked run, one file is sealed that was exposed before and that three more steps write;
/// another file is frozen.
pub fn secrets_happen()
    ensures { SecrecyExamples }
{}
