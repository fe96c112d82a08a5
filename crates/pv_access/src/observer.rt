//! The observer of the accesses of steps.
ghost use Rattle.std.specs.Prelude.{◌≡◌, ◌≤◌, IfOk, OnOk};
ghost use Rattle.pv_named_files.specs.FirstPaths.{files_given, first_tree};
ghost use Rattle.pv_reduced.specs.Kinds.{IsSearchedBy, observed_by};
ghost use Rattle.pv_streams.specs.Sinks.{FailsBy, WritesOr};
ghost use Rattle.pv_access.specs.Texts.{access_texts};

use crate::step::step_with_accesses;
use pv_model::StepFault;
use pv_named_files::FirstPaths;
use pv_reduced::SearchKind;
use pv_reduced::explore_crate::{FirstMachine, Observer, Progress, Searched};
use pv_reduced::session::Session;
use pv_streams::{Sink, Stop};
use std::alloc::Global;
use std::marker::{Brand, PhantomData};

/// The first tree of a search, and the files that its lines are about.
pub(crate) trait Subject {
    ghost use Rattle.std.specs.Prelude.{List};
    ghost use Rattle.pv_model.specs.Machine.{Bytes, Tree};

    /// The first tree.
    ghost first: { Tree };

    /// The texts of the paths of the files.
    ghost files: { List Bytes };
}

impl Subject for Brand {
    ghost use Rattle.std.specs.Prelude.{[]};
    ghost use Rattle.pv_access.specs.Subjects.{no_tree};

    ghost first = { no_tree };

    ghost files = { [] };
}

/// An observer of the accesses of each step: the line of each access, and a note of each file that is read or executed.
#[derive(Drop)]
pub(crate) struct AccessObserver<'a, S: Subject> {
    paths: &'a FirstPaths<'a>,
    of: PhantomData<S>,
    ghost first: { first_tree paths.now ≡ S.first },
    ghost files: { files_given paths.now ≡ S.files },
}

impl<'a, S: Subject> Observer for AccessObserver<'a, S> {
    ghost use Rattle.pv_access.specs.Alike.{access_texts-seen};
    ghost use Rattle.pv_access.specs.Texts.{access_texts};

    ghost observe = { access_texts S.files S.first };

    ghost depends_on_seen = { access_texts-seen S.files S.first };

    fn step(
        &mut self,
        alloc: Global,
        session: &mut Session,
        pid: u32,
    ) -> Result<Vec<Vec<u8>>, StepFault> {
        step_with_accesses(alloc, self.paths, session, pid)
    }
}

/// Searches with the observer of accesses: see `SearchKind::search`.
///
/// # Errors
///
/// - `Memory`, if there is no memory.
/// - `Write`, if a write failed. The sink received a prefix of the lines.
pub(crate) fn search_accesses<S: Subject, W: Sink, P: Progress>(
    alloc: Global,
    kind: SearchKind,
    paths: &FirstPaths<'_>,
    first_machine: &FirstMachine,
    states: u32,
    progress: &mut P,
    out: &mut W,
) -> Result<Searched, Stop>
    requires states { 1 ≤ states }
    requires first { first_tree paths.now ≡ S.first }
    requires files { files_given paths.now ≡ S.files }
    ensures written { WritesOr W.Sink FailsBy (observed_by (access_texts S.files S.first) states first_machine.now kind) out.old out.new result }
    ensures found { IfOk result (λ r. IsSearchedBy (access_texts S.files S.first) states first_machine.now kind r.states r.complete r.endings r.texts) }
{
    let observer = AccessObserver::<S> {
        paths,
        of: PhantomData,
    };
    kind.search(alloc, first_machine, states, observer, progress, out)
}
