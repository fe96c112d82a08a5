//! Records of the demands of calls, by process and process image.
ghost use Rattle.std.specs.Prelude.{◌≡◌, ◌≤◌, ◌<◌, if◌then◌else◌, ℕ, None, [], length, IfOk, OnOk, option_to_list};
ghost use Rattle.std.specs.List.{list_any};
ghost use Rattle.pv_model.specs.Machine.{same_judged as same_by_definition, same_promise, all_promises, same_target as same_target_by_definition};
ghost use Rattle.pv_needs.specs.ProcessImages.{IsProcessMore, call_more, first_recorded_walk, first_walks, index_of as index_of_target, nothing_asked, once_more, current_image_index, process_more, promises_more, process_images_at, target_with_walk, walk_more, walks_more};

use pv_model::{Perms, Promise, Target};
use pv_promises::ALL;
use std::alloc::{AllocError, Global};
use std::marker::Model;

/// The value at which a count saturates.
pub(crate) const MANY: u64 = 18_446_744_073_709_551_615;

/// The number of promises.
pub(crate) const PROMISES: usize = 32;

/// A walk that is checked against a table: the unveil target of its place, this target in words, and the permissions
/// that it needs.
#[derive(Drop)]
pub(crate) struct JudgedWalk<'a> {
    target: &'a Target,
    words: &'a [u8],
    permissions: Perms,
}

impl<'a> Model for JudgedWalk<'a> {
    ghost use Rattle.pv_model.specs.Answers.Needs.{Judged};

    ghost Value = { Judged };

    ghost view = { λ j. record { target = j.target.now; words = j.words.now; permissions = j.permissions } };
}

impl<'a> JudgedWalk<'a> {
    /// Returns the walk to a target, with the target in words and the needed permissions.
    pub(crate) fn new(target: &'a Target, words: &'a [u8], permissions: Perms) -> JudgedWalk<'a>
        ensures { result ≡ record { target = target.now; words = words.now; permissions = permissions } }
    {
        JudgedWalk {
            target,
            words,
            permissions,
        }
    }
}

/// The record of the walks to a target: the target, also in words, and the permissions of all walks.
#[derive(Drop)]
pub(crate) struct RecordedWalks {
    target: Target,
    words: Vec<u8>,
    permissions: Perms,
}

impl Model for RecordedWalks {
    ghost use Rattle.pv_model.specs.Answers.Needs.{Judged};

    ghost Value = { Judged };

    ghost view = { λ j. record { target = j.target; words = j.words.items; permissions = j.permissions } };
}

impl RecordedWalks {
    // Returns the record of a first walk.
    fn new(alloc: Global, walk: JudgedWalk<'_>) -> Result<RecordedWalks, AllocError>
        ensures { IfOk result (λ recorded. recorded ≡ walk.entry) }
    {
        let JudgedWalk {
            target,
            words,
            permissions,
        } = walk;
        Ok(RecordedWalks {
            target: target.copy(),
            words: words.to_vec(alloc)?,
            permissions,
        })
    }

    /// Returns the target in words.
    pub(crate) fn words(&self) -> &[u8]
        ensures { result.now ≡ self.now.words }
    {
        &self.words
    }

    /// Returns the permissions of all walks.
    pub(crate) fn permissions(&self) -> Perms
        ensures { result ≡ self.now.permissions }
    {
        self.permissions
    }
}

/// The checked walks of a call, at most two, in their order.
#[derive(Drop)]
pub(crate) struct JudgedWalks<'a> {
    /// The first walk, if it is checked and ends at a place.
    pub(crate) first: Option<JudgedWalk<'a>>,
    /// The second walk, if it is checked and ends at a place.
    pub(crate) second: Option<JudgedWalk<'a>>,
}

/// The demands of a call.
#[derive(Drop)]
pub(crate) struct Asked<'a> {
    /// The line of the call in its program.
    pub(crate) line: u16,
    /// The promises that the call needed. If either of two promises was enough, the first is listed.
    pub(crate) promises: &'a [Promise],
    /// The walks that were checked.
    pub(crate) walks: JudgedWalks<'a>,
    /// Whether the call loaded a program and so ended its process image.
    pub(crate) ends_process_image: bool,
}

impl<'a> Model for Asked<'a> {
    ghost use Rattle.pv_model.specs.Answers.Needs.{Asked as AskedByDefinition};
    ghost use Rattle.pv_needs.specs.ProcessImages.{judged_in};

    ghost Value = { AskedByDefinition };

    ghost view = { λ a. record { line = a.line; promises = a.promises.now; walks = judged_in a.walks; ends_process_image = a.ends_process_image } };
}

/// A count of calls or walks, and the line of the last.
#[derive(Clone, Copy)]
pub(crate) struct Times {
    /// The count, which saturates at `MANY`.
    pub(crate) count: u64,
    /// The line of the last one, or 0 if the count is 0.
    pub(crate) last: u16,
}

impl Times {
    // Counts one more, at a line.
    fn add(&mut self, line: u16)
        ensures { self.new ≡ once_more self.old line }
    {
        self.count = self.count.saturating_add(1);
        self.last = line;
    }
}

/// A target at which walks were checked, with the permissions of all of them and their count.
#[derive(Drop)]
pub(crate) struct RecordedTarget {
    /// The target and the permissions of all walks to it.
    pub(crate) judged: RecordedWalks,
    /// The count of walks.
    pub(crate) times: Times,
}

/// The record of a process image: the count for each promise, the targets at which its walks were checked, in the order
/// of the first walk to each, and whether its last call ended it.
#[derive(Drop)]
pub(crate) struct ProcessImage {
    promises: [Times; PROMISES],
    targets: Vec<RecordedTarget>,
    ended: bool,
}

impl Model for ProcessImage {
    ghost use Rattle.std.specs.Prelude.{◌≡◌, length};
    ghost use Rattle.pv_needs.specs.ProcessImages.{RecordedImage};
    ghost use Rattle.pv_needs.specs.declared.process_images.TheConstants.{PROMISES};

    ghost Value = { RecordedImage };

    ghost view = { λ s. record { promises = s.promises; targets = s.targets.items; ended = s.ended } };

    ghost invariant = { λ s. length s.promises ≡ PROMISES };
}

/// The records of the process images of a process, in their order.
#[derive(Drop)]
pub(crate) struct ProcessImages {
    process_images: Vec<ProcessImage>,
}

impl Model for ProcessImages {
    ghost use Rattle.std.specs.Prelude.{List};
    ghost use Rattle.pv_needs.specs.ProcessImages.{RecordedImage};

    ghost Value = { List RecordedImage };

    ghost view = { λ s. s.process_images.items };
}

/// The records of all processes, by process number.
#[derive(Drop)]
pub(crate) struct Recorded {
    processes: Vec<ProcessImages>,
}

impl Model for Recorded {
    ghost use Rattle.std.specs.Prelude.{◌≤◌, List, length};
    ghost use Rattle.pv_needs.specs.ProcessImages.{RecordedImage};

    ghost Value = { List (List RecordedImage) };

    ghost view = { λ k. k.processes.items };

    ghost invariant = { λ k. length k.processes.items ≤ 4294967296 };
}

// Returns a walk if it was begun.
fn if_begun<'a>(is_begun: bool, walk: Option<JudgedWalk<'a>>) -> Option<JudgedWalk<'a>>
    ensures { result ≡ (if is_begun then walk.entry else None) }
{
    if is_begun { walk } else { None }
}

impl<'a> JudgedWalks<'a> {
    /// Returns no walks.
    pub(crate) fn none() -> JudgedWalks<'a>
        ensures first { result.first ≡ None }
        ensures second { result.second ≡ None }
    {
        JudgedWalks {
            first: None,
            second: None,
        }
    }

    /// Returns the first `count` walks.
    pub(crate) fn first_ones(self, count: u8) -> JudgedWalks<'a>
        ensures { result ≡ first_walks self.entry count }
    {
        let JudgedWalks { first, second } = self;
        JudgedWalks {
            first: if_begun(count >= 1, first),
            second: if_begun(count >= 2, second),
        }
    }
}

// Returns whether two targets are equal.
fn same_target(a: &Target, b: &Target) -> bool
    ensures { result ≡ same_target_by_definition a.now b.now }
{
    match (a, b) {
        (Target::Directory(one), Target::Directory(other)) => one == other,
        (
            Target::Name { dir, name },
            Target::Name {
                dir: other_dir,
                name: other,
            },
        ) => dir == other_dir && name.as_slice() == other.as_slice(),
        _ => false,
    }
}

// Returns whether two walks lead to the same target, in the same words.
fn same_judged(a: &RecordedWalks, b: &JudgedWalk<'_>) -> bool
    ensures { result ≡ same_by_definition a.now b.now }
{
    same_target(&a.target, b.target) && a.words.as_slice() == b.words
}

// Returns whether a promise is among those that a call needed.
fn is_needed(promise: Promise, needed: &[Promise]) -> bool
    ensures { result ≡ list_any (same_promise promise) needed.now }
{
    needed.iter().any(|other| promise.bit() == other.bit())
}

// Counts a call for each of these promises that it needed.
fn count_promises(all: &[Promise], promises: &mut [Times], needed: &[Promise], line: u16)
    requires { length promises.old ≡ length all.now }
    ensures { promises.new ≡ promises_more all.now promises.old needed.now line }
{
    for (k, promise) in all.iter().enumerate() {
        if is_needed(*promise, needed) {
            promises[k].add(line);
        }
    }
}

impl RecordedTarget {
    // Returns the record of the first walk to a target.
    fn new(alloc: Global, walk: JudgedWalk<'_>, line: u16) -> Result<RecordedTarget, AllocError>
        ensures { IfOk result (λ target. target ≡ first_recorded_walk line walk.entry) }
    {
        Ok(RecordedTarget {
            judged: RecordedWalks::new(alloc, walk)?,
            times: Times {
                count: 1,
                last: line,
            },
        })
    }

    // Adds another walk to the target.
    fn add(&mut self, permissions: Perms, line: u16)
        ensures { self.new ≡ target_with_walk self.old line permissions }
    {
        self.judged.permissions = self.judged.permissions.join(permissions);
        self.times.add(line);
    }
}

// Returns the index of the target to which a walk leads.
fn index_of(targets: &[RecordedTarget], walk: &JudgedWalk<'_>) -> Option<usize>
    ensures { result ≡ index_of_target targets.now walk.now }
{
    targets
        .iter()
        .position(|target| same_judged(&target.judged, walk))
}

// Records a walk to a known target or to a new one.
fn keep_walk(
    alloc: Global,
    targets: &mut Vec<RecordedTarget>,
    line: u16,
    walk: JudgedWalk<'_>,
) -> Result<(), AllocError>
    ensures { OnOk result (targets.new.items ≡ walk_more targets.old.items line walk.entry) }
{
    match index_of(targets, &walk) {
        Some(k) => targets[k].add(walk.permissions, line),
        None => {
            let target = RecordedTarget::new(alloc, walk, line)?;
            targets.push(target)?;
        }
    }
    Ok(())
}

// Records a walk, if there is one.
fn keep_some(
    alloc: Global,
    targets: &mut Vec<RecordedTarget>,
    line: u16,
    walk: Option<JudgedWalk<'_>>,
) -> Result<(), AllocError>
    ensures { OnOk result (targets.new.items ≡ walks_more targets.old.items line (option_to_list walk.entry)) }
{
    match walk {
        Some(walk) => keep_walk(alloc, targets, line, walk),
        None => Ok(()),
    }
}

impl ProcessImage {
    // Returns the record of a process image before its first call.
    fn new(alloc: Global) -> ProcessImage
        ensures { result ≡ nothing_asked }
    {
        ProcessImage {
            promises: [Times { count: 0, last: 0 }; PROMISES],
            targets: Vec::new(alloc),
            ended: false,
        }
    }

    /// Returns the counts of the calls that needed each promise.
    pub(crate) fn promises(&self) -> &[Times; PROMISES]
        ensures value { result.now ≡ self.now.promises }
        ensures count { length result.now ≡ PROMISES }
    {
        &self.promises
    }

    /// Returns the targets at which the walks were checked, in the order of the first walk to each.
    pub(crate) fn targets(&self) -> &[RecordedTarget]
        ensures { result.now ≡ self.now.targets }
    {
        &self.targets
    }

    // Returns whether the last call ended the process image.
    fn has_ended(&self) -> bool
        ensures { result ≡ self.now.ended }
    {
        self.ended
    }

    // Records the demands of a call.
    fn keep(&mut self, alloc: Global, asked: Asked<'_>) -> Result<(), AllocError>
        ensures { OnOk result (self.new ≡ call_more self.old asked.entry) }
    {
        let Asked {
            line,
            promises,
            walks,
            ends_process_image,
        } = asked;
        let JudgedWalks { first, second } = walks;
        count_promises(&ALL, &mut self.promises, promises, line);
        self.ended = ends_process_image;
        keep_some(alloc, &mut self.targets, line, first)?;
        keep_some(alloc, &mut self.targets, line, second)
    }
}

// Returns the index of the current process image: the last one, if it has not ended.
fn index_of_open(process_images: &[ProcessImage]) -> Option<usize>
    ensures { result ≡ current_image_index process_images.now }
{
    match process_images.last() {
        Some(process_image) if !process_image.has_ended() => Some(process_images.len() - 1),
        _ => None,
    }
}

// Reserves room for exactly one process image if there is none. Most processes have only one.
fn make_room(process_images: &mut Vec<ProcessImage>) -> Result<(), AllocError>
    ensures { process_images.new.items ≡ process_images.old.items }
{
    if process_images.is_empty() {
        process_images.reserve_exact(1)?;
    }
    Ok(())
}

impl ProcessImages {
    // Returns an empty list of records.
    fn new(alloc: Global) -> ProcessImages
        ensures { result ≡ [] }
    {
        ProcessImages {
            process_images: Vec::new(alloc),
        }
    }

    /// Returns the records of the process images.
    pub(crate) fn as_slice(&self) -> &[ProcessImage]
        ensures { result.now ≡ self.now }
    {
        &self.process_images
    }

    // Records the demands of a call, in the current process image or in a new one.
    fn keep(&mut self, alloc: Global, asked: Asked<'_>) -> Result<(), AllocError>
        ensures { OnOk result (self.new ≡ process_more self.old asked.entry) }
    {
        if let Some(k) = index_of_open(&self.process_images) {
            return self.process_images[k].keep(alloc, asked);
        }
        make_room(&mut self.process_images)?;
        let mut process_image = ProcessImage::new(alloc);
        process_image.keep(alloc, asked)?;
        self.process_images.push(process_image)?;
        Ok(())
    }
}

// Extends the list of processes up to a process number.
fn reach_to(
    alloc: Global,
    processes: &mut Vec<ProcessImages>,
    index: usize,
) -> Result<(), AllocError>
    requires { index < 4294967296 }
    ensures reached { OnOk result (index < length processes.new.items) }
    ensures few { length processes.old.items ≤ 4294967296 → length processes.new.items ≤ 4294967296 }
    ensures same { OnOk result ((pid : ℕ) → process_images_at processes.new.items pid ≡ process_images_at processes.old.items pid) }
{
    while processes.len() <= index {
        processes.push(ProcessImages::new(alloc))?;
    }
    Ok(())
}

impl Recorded {
    /// Returns an empty set of records.
    pub(crate) fn new(alloc: Global) -> Recorded
        ensures { result ≡ [] }
    {
        Recorded {
            processes: Vec::new(alloc),
        }
    }

    /// Returns the records of the processes, by process number. A process past the end of the list made no call.
    pub(crate) fn as_slice(&self) -> &[ProcessImages]
        ensures value { result.now ≡ self.now }
        ensures few { length result.now ≤ 4294967296 }
    {
        &self.processes
    }

    /// Records the demands of a call of a process.
    ///
    /// # Errors
    ///
    /// `AllocError`, if there is no memory for the record.
    pub(crate) fn keep(
        &mut self,
        alloc: Global,
        pid: u32,
        asked: Asked<'_>,
    ) -> Result<(), AllocError>
        ensures { OnOk result (IsProcessMore self.old pid asked.entry self.new) }
    {
        reach_to(alloc, &mut self.processes, pid as usize)?;
        self.processes[pid as usize].keep(alloc, asked)
    }
}
