//! A process and its permissions by the governing entry.
ghost use Rattle.std.specs.Prelude.{◌≡◌, ◌<◌, length, option_map, IfSome, IsTrue};
ghost use Rattle.pv_answers.specs.Reaching.{all_on, descriptor_words, given_by, may_line, opened_at, permitted_by, reacher_state, reacher_table, who_by, words_on};
ghost use Rattle.pv_model.specs.Machine.{entries_of_table, at_number, is_directory_at, governing_entry};
ghost use Rattle.pv_model.specs.Promises.{holds};
ghost use Rattle.pv_streams.specs.Sinks.{Writes};
ghost use Rattle.pv_calls_state.specs.OfUnveil.Up.{directory_of_place};

use crate::lines::{Line, ModeLetters};
use pv_calls_state::Parts;
use pv_calls_state::files::{Descriptors, OpenFiles};
use pv_calls_state::procs::ProcessRecord;
use pv_calls_state::promises::{Pledge, has};
use pv_calls_state::tree::PlaceRef;
use pv_calls_state::unveil::Table;
use pv_model::limits::DESCRIPTORS;
use pv_model::{Mode, Perms, Promise};
use pv_streams::{Decimal, Failed, Fragment, Plain, Sink, write_whole};

/// A live process of a state.
#[derive(Clone, Copy)]
pub(crate) struct Reacher<'a> {
    /// The state.
    pub(crate) parts: &'a Parts,
    /// The record of the process.
    pub(crate) owned: &'a ProcessRecord,
    /// The number of the process.
    pub(crate) pid: u32,
}

/// Writes a MAY line of a process.
///
/// # Errors
///
/// `Failed`, if a write failed. The sink received a prefix of the line.
pub(crate) fn write_may<W: Sink, P: Fragment + Copy>(
    out: &mut W,
    reacher: &Reacher<'_>,
    text: P,
) -> Result<(), Failed>
    ensures { Writes W.Sink (may_line reacher.now (P.text text)) out.old out.new result }
{
    let line = Line {
        pid: reacher.pid,
        word: *b"MAY ",
        text,
    };
    line.write(out)
}

// Returns whether a promise is held. A process that is not pledged holds all promises.
fn holds(pledge: &Pledge, promise: Promise) -> bool
    ensures { result ≡ holds pledge.now.promises promise }
{
    match pledge.promises() {
        None => true,
        Some(held) => has(held, promise),
    }
}

// Returns the permissions that a table gives by the governing entry: all of them if there is no table.
fn given(table: &Table, entry: Option<u8>) -> Perms
    requires { IfSome entry (λ k. k < length (entries_of_table table.now.table)) }
    ensures { result ≡ given_by table.now.table entry }
{
    if table.is_empty() {
        return Perms {
            r: true,
            w: true,
            x: true,
            c: true,
        };
    }
    match entry {
        Some(k) => table.permissions(k),
        None => Perms::NONE,
    }
}

/// Returns the permissions of a process at a place by its governing entry: those that the table gives and whose
/// promises the process holds.
pub(crate) fn permitted(owned: &ProcessRecord, entry: Option<u8>) -> Perms
    requires { IfSome entry (λ k. k < length (entries_of_table owned.now.unveiled.table)) }
    ensures { result ≡ permitted_by owned.now entry }
{
    let given = given(&owned.unveiled, entry);
    let pledge = &owned.pledge;
    Perms {
        r: given.r && holds(pledge, Promise::Rpath),
        w: given.w && holds(pledge, Promise::Wpath),
        x: given.x && holds(pledge, Promise::Exec),
        c: given.c && holds(pledge, Promise::Cpath),
    }
}

/// Returns the entry that governs a place, if there is one. A link at the place is not followed.
pub(crate) fn governing(reacher: &Reacher<'_>, place: &PlaceRef<'_>) -> Option<u8>
    requires { IsTrue (is_directory_at (reacher_state reacher.now).tree (directory_of_place place.now)) }
    ensures value { result ≡ governing_entry (reacher_state reacher.now).tree (entries_of_table (reacher_table reacher.now)) place.now }
    ensures in_table { IfSome result (λ k. k < length (entries_of_table (reacher_table reacher.now))) }
{
    let tree = reacher.parts.tree();
    reacher.owned.unveiled.governing(tree, place)
}

/// The governor of a place: `no table`, `none`, or the governing entry with its number.
#[derive(Clone, Copy)]
pub(crate) struct Governor<'a> {
    /// The table of the process.
    pub(crate) table: &'a Table,
    /// The governing entry, if there is one.
    pub(crate) entry: Option<u8>,
}

impl<'a> Fragment for Governor<'a> {
    ghost text = { λ g. who_by g.table.now.table g.entry };

    fn write<W: Sink>(&self, out: &mut W) -> Result<(), Failed> {
        if self.table.is_empty() {
            return write_whole(out, b"no table");
        }
        match self.entry {
            None => write_whole(out, b"none"),
            Some(k) => (Plain(b"entry "), Decimal(u32::from(k))).write(out),
        }
    }
}

/// A descriptor, as it follows the words of the node to which it refers.
#[derive(Clone, Copy)]
pub(crate) struct AndDescriptor {
    /// The number of the descriptor.
    pub(crate) number: u8,
    /// The mode of its open file.
    pub(crate) mode: Mode,
}

impl Fragment for AndDescriptor {
    ghost text = { λ d. descriptor_words d.number d.mode };

    fn write<W: Sink>(&self, out: &mut W) -> Result<(), Failed> {
        let number = Decimal(u32::from(self.number));
        let mode = ModeLetters(self.mode);
        (Plain(b", descriptor "), number, Plain(b" "), mode).write(out)
    }
}

// Returns the open file of a descriptor, if it is open.
fn file_at(descriptors: &Descriptors, number: u8) -> Option<usize>
    ensures { result ≡ option_map (λ e. e.file) (at_number descriptors.now number) }
{
    descriptors.at(i32::from(number)).ok()
}

// Returns the node and the mode of an open file, if it exists.
fn opened_file(files: &OpenFiles, file: usize) -> Option<(u16, Mode)>
    ensures { result ≡ option_map (λ f. (f.node, f.mode)) (at_number files.now.files file) }
{
    if files.is_open(file) {
        Some((files.node(file), files.mode(file)))
    } else {
        None
    }
}

/// Returns the node and the mode of a descriptor's open file, if the descriptor is open.
pub(crate) fn opened(reacher: &Reacher<'_>, number: u8) -> Option<(u16, Mode)>
    ensures { result ≡ opened_at reacher.now number }
{
    let file = file_at(&reacher.owned.descriptors, number)?;
    opened_file(reacher.parts.files(), file)
}

// Writes a descriptor if it refers to the given node.
fn write_where_on<W: Sink>(
    out: &mut W,
    node: u16,
    number: u8,
    opened: Option<(u16, Mode)>,
) -> Result<(), Failed>
    ensures { Writes W.Sink (words_on node number opened) out.old out.new result }
{
    match opened {
        Some((on, mode)) if on == node => AndDescriptor { number, mode }.write(out),
        _ => Ok(()),
    }
}

// Writes each descriptor of a process on a node, by ascending number, as it follows the words of the node.
fn write_descriptors_on<W: Sink>(
    out: &mut W,
    reacher: &Reacher<'_>,
    node: u16,
) -> Result<(), Failed>
    ensures { Writes W.Sink (all_on reacher.now node) out.old out.new result }
{
    reacher.owned.descriptors.invariant();
    for number in 0..DESCRIPTORS as u8 {
        write_where_on(out, node, number, opened(reacher, number))?;
    }
    Ok(())
}

/// The descriptors of a process on a node, by ascending number, as they follow the words of the node.
#[derive(Clone, Copy)]
pub(crate) struct AndDescriptors<'a> {
    /// The process.
    pub(crate) reacher: Reacher<'a>,
    /// The number of the node.
    pub(crate) node: u16,
}

impl<'a> Fragment for AndDescriptors<'a> {
    ghost text = { λ d. all_on d.reacher d.node };

    fn write<W: Sink>(&self, out: &mut W) -> Result<(), Failed> {
        write_descriptors_on(out, &self.reacher, self.node)
    }
}
