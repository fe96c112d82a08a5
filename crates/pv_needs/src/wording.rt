//! Targets of walks in words.
//!
//! To find the path of a directory takes a step for each directory above it. If the previous target in this storage had
//! the same directory, the path is probably the same, and to check this is cheaper.
ghost use Rattle.std.specs.Prelude.{◌≡◌, ◌<◌, ◌++◌, [], codes, length, IsTrue, OnOk};
ghost use Rattle.std.specs.Fmt.{decimal};
ghost use Rattle.pv_model.specs.Machine.{target_words, quote};
ghost use Rattle.pv_needs.specs.KnownWords.{IsKnown, directory_in, known_words};

use crate::paths::{around_last, is_path_of};
use crate::process_images::JudgedWalk;
use pv_answers::TargetWords;
use pv_model::limits::ROOT;
use pv_model::{Perms, Target};
use pv_streams::{Decimal, Gathered, Plain, Quoted, append};
use pv_tree::Tree;
use std::alloc::{AllocError, Global};

// Returns the directory of a target: the target itself, or the directory of its name.
fn directory_of(target: &Target) -> u16
    ensures { result ≡ directory_in target.now }
{
    match target {
        Target::Directory(node) => *node,
        Target::Name { dir, .. } => *dir,
    }
}

// Returns whether this is the path of a target's directory, and that directory is not the root. A directory has only
// one path.
fn is_known(tree: &Tree, target: &Target, path: &[u8]) -> bool
    ensures { IsTrue result → IsKnown tree.now.tree target.now path.now }
{
    let directory = directory_of(target);
    if path.is_empty() || !tree.is_directory(directory) {
        return false;
    }
    is_path_of(tree, directory, path)
}

// Writes in words a directory with this path.
fn write_directory(words: &mut Gathered, node: u16, path: &[u8]) -> Result<(), AllocError>
    requires { words.old.bytes.items ≡ [] }
    ensures { OnOk result (words.new.bytes.items ≡ codes "node " ++ decimal node ++ codes " " ++ quote path.now) }
{
    let number = Decimal(u32::from(node));
    append(words, &(Plain(b"node "), number, Plain(b" "), Quoted(path)))
}

// Writes in words a name in a directory with this path.
fn write_name(words: &mut Gathered, path: &mut Vec<u8>, name: &[u8]) -> Result<(), AllocError>
    requires { words.old.bytes.items ≡ [] }
    ensures { OnOk result (words.new.bytes.items ≡ quote (path.old.items ++ codes "/" ++ name.now)) }
{
    let length = path.len();
    path.push(b'/')?;
    path.extend_from_slice(name)?;
    let appended = append(words, &Quoted(path.as_slice()));
    path.truncate(length);
    appended
}

// Writes in words a target whose directory has this path.
fn write_known(words: &mut Gathered, target: &Target, path: &mut Vec<u8>) -> Result<(), AllocError>
    requires { words.old.bytes.items ≡ [] }
    ensures { OnOk result (words.new.bytes.items ≡ known_words target.now path.old.items) }
{
    match target {
        Target::Directory(node) => write_directory(words, *node, path.as_slice()),
        Target::Name { name, .. } => write_name(words, path, name.as_slice()),
    }
}

// Returns the part of a target's words that is the path of its directory, if it has a path.
fn path_in<'a>(target: &Target, words: &'a [u8]) -> &'a [u8] {
    let end = match target {
        Target::Directory(_) => b'"',
        Target::Name { .. } => b'/',
    };
    let Some((before, _)) = around_last(words, end) else {
        return b"";
    };
    match around_last(before, b'"') {
        Some((_, path)) => path,
        None => b"",
    }
}

// Writes a target in words, and remembers the path of its directory as a guess.
fn write_and_guess(
    words: &mut Gathered,
    tree: &Tree,
    target: &Target,
    path: &mut Vec<u8>,
) -> Result<(), AllocError>
    requires { words.old.bytes.items ≡ [] }
    ensures { OnOk result (words.new.bytes.items ≡ target_words tree.now.tree target.now) }
{
    path.clear();
    append(words, &TargetWords { tree, target })?;
    path.extend_from_slice(path_in(target, words.bytes.as_slice()))
}

/// The target of a walk, with the buffer for its words.
#[derive(Drop)]
pub(crate) struct TargetText {
    target: Target,
    words: Gathered,
    // The path of its directory when it was last computed: a guess.
    path: Vec<u8>,
}

impl TargetText {
    // Returns the root as target, without words.
    fn new(alloc: Global) -> TargetText {
        TargetText {
            target: Target::Directory(ROOT),
            words: Gathered::new(alloc),
            path: Vec::new(alloc),
        }
    }

    /// Sets the target, and writes it in words.
    ///
    /// # Errors
    ///
    /// `AllocError`, if there is no memory for the words.
    #[tactic(auto, using(crate::proofs::KnownPaths::known_is))]
    pub(crate) fn put(&mut self, tree: &Tree, target: Target) -> Result<(), AllocError>
        ensures target { self.new.target ≡ target }
        ensures words { OnOk result (self.new.words.bytes.items ≡ target_words tree.now.tree target) }
    {
        self.target = target;
        self.words.bytes.clear();
        if is_known(tree, &self.target, self.path.as_slice()) {
            write_known(&mut self.words, &self.target, &mut self.path)
        } else {
            write_and_guess(&mut self.words, tree, &self.target, &mut self.path)
        }
    }

    /// Returns the walk to the target that needs the given permissions.
    pub(crate) fn walk(&self, permissions: Perms) -> JudgedWalk<'_>
        ensures { result ≡ record { target = self.now.target; words = self.now.words.bytes.items; permissions = permissions } }
    {
        JudgedWalk::new(&self.target, self.words.bytes.as_slice(), permissions)
    }
}

/// The targets of a call's walks, in words. One value can be reused for any number of calls.
#[derive(Drop)]
pub(crate) struct TargetTexts {
    /// The target of the first walk.
    pub(crate) first: TargetText,
    /// The target of the second walk.
    pub(crate) second: TargetText,
}

impl TargetTexts {
    /// Returns the storage before the first call.
    pub(crate) fn new(alloc: Global) -> TargetTexts {
        TargetTexts {
            first: TargetText::new(alloc),
            second: TargetText::new(alloc),
        }
    }
}
