//! The tree that is built while the blocks of a manifest are checked.
ghost use Rattle.std.specs.Prelude.{◌≡◌, ◌+◌, ◌<◌, ◌==◌, ◌^◌, ℕ, length, Option, None, Some, IfOk, IfErr, MatchResult, option_map};
ghost use Rattle.pv_image_manifest.specs.Entries.{entry_of_line};
ghost use Rattle.pv_image_manifest.specs.Reading.{held_sizes};
ghost use Rattle.pv_model.specs.Machine.{spaced, path_of, add_entry, sizes_of, Entry as MadeEntry};
ghost use Rattle.pv_model.specs.Source.Judged.{image_so_far, checked_first, checked_block, is_init, made_or_reported, with_entry_made, with_entry_of};
ghost use Rattle.pv_source.specs.ReadBlocks.{parsed_block};
ghost use Rattle.pv_source.specs.ReadEntries.{IsEntryOf};
ghost use Rattle.pv_source.specs.LineCheck.{so_far_of, AgreesWithJudgement};
ghost use Rattle.pv_source.specs.Reading.{words_in};

use crate::blocks::{Block, Kind};
use crate::entries::entry_of_block;
use crate::words::{has_no_word, next_word, push_words};
use pv_image_manifest::{Entry, Growing, are_image_sizes, sizes};
use pv_model::ManifestFault;
use std::alloc::{AllocError, Global};

/// The result of checking a line of a manifest.
#[derive(Clone, Copy)]
pub enum LineCheck {
    /// No error.
    Right,
    /// It does not have the form of such a line.
    Form,
    /// It has sizes that no image can have.
    Size,
    /// It creates a `/init` that is not an executable file.
    Init,
    /// Its entry cannot be created.
    Tree(ManifestFault),
    /// There is no room for its entry, and lack of room was reported for an earlier line.
    RoomAgain,
}

/// The tree that the lines so far have built, if it is known, and whether lack of room was reported.
#[derive(Drop)]
pub struct TreeSoFar {
    /// The tree.
    pub tree: Option<Growing>,
    /// Whether lack of room was reported.
    pub lacked_room: bool,
}

impl TreeSoFar {
    // Returns a state whose tree is unknown.
    fn unknown(lacked_room: bool) -> TreeSoFar
        ensures tree { result.tree ≡ None }
        ensures room { result.lacked_room ≡ lacked_room }
    {
        TreeSoFar {
            tree: None,
            lacked_room,
        }
    }
}

// Adds an entry to a known tree.
fn made(
    alloc: Global,
    tree: Growing,
    lacked_room: bool,
    entry: Entry,
) -> Result<(TreeSoFar, LineCheck), ManifestFault>
    ensures found { IfOk result (AgreesWithJudgement (made_or_reported (record { tree = Some tree; lacked_room = lacked_room }) (add_entry entry.line tree (entry_of_line entry).1))) }
    ensures fault { IfErr result (λ fault. fault ≡ ManifestFault.Memory) }
{
    let (tree, fault) = tree.with(alloc, entry)?;
    let (lacked_room, found) = match fault {
        None => (lacked_room, LineCheck::Right),
        Some(ManifestFault::Room(_)) if lacked_room => (true, LineCheck::RoomAgain),
        Some(ManifestFault::Room(line)) => (true, LineCheck::Tree(ManifestFault::Room(line))),
        Some(fault) => (lacked_room, LineCheck::Tree(fault)),
    };
    let so_far = TreeSoFar {
        tree: Some(tree),
        lacked_room,
    };
    Ok((so_far, found))
}

// Adds an entry, if the tree is known.
fn with_entry(
    alloc: Global,
    so_far: TreeSoFar,
    entry: Entry,
) -> Result<(TreeSoFar, LineCheck), ManifestFault>
    ensures found { IfOk result (AgreesWithJudgement (with_entry_made (so_far_of so_far) entry.line (entry_of_line entry).1 so_far.tree)) }
    ensures fault { IfErr result (λ fault. fault ≡ ManifestFault.Memory) }
{
    let TreeSoFar { tree, lacked_room } = so_far;
    match tree {
        Some(tree) => made(alloc, tree, lacked_room, entry),
        None => Ok((TreeSoFar::unknown(lacked_room), LineCheck::Right)),
    }
}

// Returns whether an entry creates `/init`.
fn makes_init(entry: &Entry) -> bool
    ensures { result ≡ is_init (Some (path_of (entry_of_line entry.now).1)) }
{
    entry.path.as_slice() == b"/init".as_slice()
}

// Checks the line of an entry, and returns the result with the state after it.
fn judged_entry(
    alloc: Global,
    so_far: TreeSoFar,
    is_exec: bool,
    entry: Entry,
) -> Result<(TreeSoFar, LineCheck), ManifestFault>
    ensures found { IfOk result (AgreesWithJudgement (with_entry_of (so_far_of so_far) entry.line is_exec (Some (entry_of_line entry).1))) }
    ensures fault { IfErr result (λ fault. fault ≡ ManifestFault.Memory) }
{
    let is_other_init = !is_exec && makes_init(&entry);
    let (so_far, found) = with_entry(alloc, so_far, entry)?;
    if is_other_init {
        Ok((so_far, LineCheck::Init))
    } else {
        Ok((so_far, found))
    }
}

// Checks the line of an entry, or a line that does not have the form of one.
fn judged_form(
    alloc: Global,
    so_far: TreeSoFar,
    is_exec: bool,
    entry: Option<Entry>,
) -> Result<(TreeSoFar, LineCheck), ManifestFault>
    ensures { (number : ℕ) (made : Option MadeEntry) → IsEntryOf number made entry
        → MatchResult result (AgreesWithJudgement (with_entry_of (so_far_of so_far) number is_exec made)) (λ fault. fault ≡ ManifestFault.Memory) }
{
    match entry {
        Some(entry) => judged_entry(alloc, so_far, is_exec, entry),
        None => Ok((TreeSoFar::unknown(so_far.lacked_room), LineCheck::Form)),
    }
}

// Returns whether there is exactly one word.
fn has_one_word(words: &[u8]) -> bool
    ensures { result ≡ (length (words_in words.now) == 1) }
{
    match next_word(words) {
        Some((_, rest)) => has_no_word(rest),
        None => false,
    }
}

/// Checks the line of a block that is not the first, and returns the result with the state after it.
///
/// # Errors
///
/// Returns `Memory` if memory cannot be allocated, and no other error.
pub fn judged_block(
    alloc: Global,
    so_far: TreeSoFar,
    block: &Block,
) -> Result<(TreeSoFar, LineCheck), ManifestFault>
    requires { block.now.number + 1 + length block.now.body.now < 2 ^ 31 }
    ensures found { IfOk result (AgreesWithJudgement (checked_block (so_far_of so_far) (parsed_block block.now))) }
    ensures fault { IfErr result (λ fault. fault ≡ ManifestFault.Memory) }
{
    if block.kind == Kind::Schedule {
        let found = if has_one_word(block.words) {
            LineCheck::Right
        } else {
            LineCheck::Form
        };
        return Ok((so_far, found));
    }
    let is_exec = block.kind == Kind::Program || block.kind == Kind::Taken;
    let entry = entry_of_block(alloc, block)?;
    judged_form(alloc, so_far, is_exec, entry)
}

// Checks the sizes of the first line, and returns the result with a tree that has only a root.
fn judged_sizes(
    alloc: Global,
    blocks: u32,
    inodes: u32,
) -> Result<(TreeSoFar, LineCheck), ManifestFault>
    ensures found { (sizes : ℕ × ℕ) → held_sizes sizes ≡ (blocks, inodes) → IfOk result (AgreesWithJudgement (image_so_far (Some sizes))) }
    ensures fault { IfErr result (λ fault. fault ≡ ManifestFault.Memory) }
{
    if !are_image_sizes(blocks, inodes) {
        return Ok((TreeSoFar::unknown(false), LineCheck::Size));
    }
    let tree = Growing::new(alloc, blocks as u16, inodes as u16)?;
    let so_far = TreeSoFar {
        tree: Some(tree),
        lacked_room: false,
    };
    Ok((so_far, LineCheck::Right))
}

// Parses the sizes in words. A size greater than 4,294,967,295 is parsed as 4,294,967,295.
fn sizes_of_words(alloc: Global, words: &[u8]) -> Result<Option<(u32, u32)>, AllocError>
    ensures { IfOk result (λ o. o ≡ option_map held_sizes (sizes_of (spaced (words_in words.now)))) }
{
    let mut line = Vec::new(alloc);
    push_words(words, &mut line)?;
    Ok(sizes(&line))
}

// Checks the words of the first line.
fn judged_image(alloc: Global, words: &[u8]) -> Result<(TreeSoFar, LineCheck), ManifestFault>
    ensures found { IfOk result (AgreesWithJudgement (image_so_far (sizes_of (spaced (words_in words.now))))) }
    ensures fault { IfErr result (λ fault. fault ≡ ManifestFault.Memory) }
{
    match sizes_of_words(alloc, words)? {
        Some((blocks, inodes)) => judged_sizes(alloc, blocks, inodes),
        None => Ok((TreeSoFar::unknown(false), LineCheck::Form)),
    }
}

/// Checks the line of the first block, which has the sizes of the image, and returns the result with the state after
/// it.
///
/// # Errors
///
/// Returns `Memory` if memory cannot be allocated, and no other error.
pub fn judged_first(alloc: Global, block: &Block) -> Result<(TreeSoFar, LineCheck), ManifestFault>
    ensures found { IfOk result (AgreesWithJudgement (checked_first (parsed_block block.now))) }
    ensures fault { IfErr result (λ fault. fault ≡ ManifestFault.Memory) }
{
    match block.kind {
        Kind::Single => judged_image(alloc, block.words),
        _ => Ok((TreeSoFar::unknown(false), LineCheck::Form)),
    }
}
