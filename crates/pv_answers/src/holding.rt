//! The restraints, descriptors and memory of a live process.
ghost use Rattle.std.specs.Prelude.{◌≡◌, ◌<◌, length, option_copied, option_map, IsSome, Some};
ghost use Rattle.pv_answers.specs.Holdings.{descriptor_line, descriptor_lines, entry_line, entry_lines, held_by, memory_bytes, restraint_bytes};
ghost use Rattle.pv_model.specs.Machine.{answer_bytes, entries_of_table, at_number};
ghost use Rattle.pv_model.specs.Answers.ProcessRecord.{listed_text, table_text};
ghost use Rattle.pv_model.specs.Trace.{flag_text};
ghost use Rattle.pv_streams.specs.Sinks.{Writes};

use crate::lines::{Letters, Line, ModeLetters, Pledged};
use crate::nodes::{NodeWords, TargetWords};
use crate::numbers::{BufferFront, Spaced};
use pv_calls_state::Parts;
use pv_calls_state::procs::ProcessRecord;
use pv_calls_state::unveil::Table;
use pv_model::Name;
use pv_model::limits::DESCRIPTORS;
use pv_streams::{Count, Decimal, Failed, Fragment, Plain, Quoted, Sink};

// Returns whether a table is in force and whether it is locked, in words.
fn table_words(table: &Table) -> &'static [u8]
    ensures { result.now ≡ table_text table.now.table table.now.locked }
{
    match (table.is_empty(), table.is_locked()) {
        (true, false) => b"none",
        (true, true) => b"none, locked",
        (false, false) => b"in force",
        (false, true) => b"in force, locked",
    }
}

// Writes the lines of the working directory, the promises and the table.
#[tactic(auto, unfolding(pv_model::specs::Trace::text_line))]
fn write_restraints<W: Sink>(
    out: &mut W,
    parts: &Parts,
    pid: u32,
    owned: &ProcessRecord,
) -> Result<(), Failed>
    ensures { Writes W.Sink (restraint_bytes parts.now pid owned.now) out.old out.new result }
{
    let directory = NodeWords {
        tree: parts.tree(),
        node: owned.directory,
    };
    let promises = Pledged(owned.pledge.promises());
    let execpromises = Pledged(owned.pledge.execpromises());
    let table = Plain(table_words(&owned.unveiled));
    (
        Line {
            pid,
            word: *b"CWD ",
            text: directory,
        },
        Line {
            pid,
            word: *b"PLDG",
            text: promises,
        },
        Line {
            pid,
            word: *b"EXPR",
            text: execpromises,
        },
        Line {
            pid,
            word: *b"UNVL",
            text: table,
        },
    )
        .write(out)
}

// Writes the line of a table entry.
#[tactic(auto, unfolding(pv_model::specs::Trace::text_line))]
fn write_entry<W: Sink>(
    out: &mut W,
    parts: &Parts,
    pid: u32,
    table: &Table,
    number: u8,
) -> Result<(), Failed>
    requires { number < length (entries_of_table table.now.table) }
    ensures { Writes W.Sink (entry_line parts.now pid (entries_of_table table.now.table) number) out.old out.new result }
{
    let permissions = Letters(table.permissions(number));
    let target = TargetWords {
        tree: parts.tree(),
        target: table.target(number),
    };
    let number = Decimal(u32::from(number));
    let text = (
        Plain(b"entry "),
        number,
        Plain(b", "),
        permissions,
        Plain(b", "),
        target,
    );
    Line {
        pid,
        word: *b"UNVL",
        text,
    }
    .write(out)
}

// Writes the lines of all table entries.
fn write_entries<W: Sink>(out: &mut W, parts: &Parts, pid: u32, table: &Table) -> Result<(), Failed>
    ensures { Writes W.Sink (answer_bytes (entry_lines parts.now pid (entries_of_table table.now.table))) out.old out.new result }
{
    for number in 0..table.len() as u8 {
        write_entry(out, parts, pid, table, number)?;
    }
    Ok(())
}

// A word with a plus sign in front, if the flag is set.
#[derive(Clone, Copy)]
struct Flag<'a> {
    holds: bool,
    word: &'a [u8],
}

impl<'a> Fragment for Flag<'a> {
    ghost text = { λ p. flag_text p.holds p.word.now };

    fn write<W: Sink>(&self, out: &mut W) -> Result<(), Failed> {
        if self.holds {
            (Plain(b"+"), Plain(self.word)).write(out)
        } else {
            Ok(())
        }
    }
}

// The last name that getdents(2) gave, if there is one.
#[derive(Clone, Copy)]
struct Listed<'a>(Option<&'a Name>);

impl<'a> Fragment for Listed<'a> {
    ghost text = { λ p. listed_text (option_copied p.0) };

    fn write<W: Sink>(&self, out: &mut W) -> Result<(), Failed> {
        match self.0 {
            Some(name) => (Plain(b", listed "), Quoted(name.as_slice())).write(out),
            None => Ok(()),
        }
    }
}

// Writes the line of a descriptor, given the number of its open file.
#[tactic(auto, unfolding(pv_model::specs::Trace::text_line))]
fn write_descriptor<W: Sink>(
    out: &mut W,
    parts: &Parts,
    pid: u32,
    owned: &ProcessRecord,
    number: u8,
    file: usize,
) -> Result<(), Failed>
    requires file { option_map (λ d. d.file) (at_number owned.now.descriptors number) ≡ Some file }
    requires opened { IsSome (at_number parts.now.files file) }
    ensures { Writes W.Sink (descriptor_line parts.now pid owned.now.descriptors number) out.old out.new result }
{
    let files = parts.files();
    let mode = ModeLetters(files.mode(file));
    let append = Flag {
        holds: files.appends(file),
        word: b"append",
    };
    let close_on_exec = Flag {
        holds: owned.descriptors.marked(number),
        word: b"cloexec",
    };
    let offset = Decimal(files.offset(file));
    let node = NodeWords {
        tree: parts.tree(),
        node: files.node(file),
    };
    let listed = Listed(files.last_name(file));
    let number = Decimal(u32::from(number));
    let front = (number, Plain(b", file "), Count(file as u64), Plain(b", "));
    let opened = (front, mode, append, close_on_exec, Plain(b", offset "));
    let text = (opened, offset, Plain(b", "), node, listed);
    Line {
        pid,
        word: *b"FD  ",
        text,
    }
    .write(out)
}

// Writes the line of a descriptor, or nothing if the descriptor is not open.
fn write_descriptor_line<W: Sink>(
    out: &mut W,
    parts: &Parts,
    pid: u32,
    owned: &ProcessRecord,
    number: u8,
) -> Result<(), Failed>
    ensures { Writes W.Sink (descriptor_line parts.now pid owned.now.descriptors number) out.old out.new result }
{
    let Ok(file) = owned.descriptors.at(i32::from(number)) else {
        return Ok(());
    };
    if !parts.files().is_open(file) {
        return Ok(());
    }
    write_descriptor(out, parts, pid, owned, number, file)
}

// Writes the lines of all descriptors.
fn write_descriptors<W: Sink>(
    out: &mut W,
    parts: &Parts,
    pid: u32,
    owned: &ProcessRecord,
) -> Result<(), Failed>
    ensures { Writes W.Sink (answer_bytes (descriptor_lines parts.now pid owned.now.descriptors)) out.old out.new result }
{
    owned.descriptors.invariant();
    for number in 0..DESCRIPTORS as u8 {
        write_descriptor_line(out, parts, pid, owned, number)?;
    }
    Ok(())
}

// Writes the lines of the registers and the buffer.
#[tactic(auto, unfolding(pv_model::specs::Trace::text_line))]
fn write_memory<W: Sink>(out: &mut W, pid: u32, owned: &ProcessRecord) -> Result<(), Failed>
    ensures { Writes W.Sink (memory_bytes pid owned.now) out.old out.new result }
{
    let registers = owned.context.registers();
    let buffer = BufferFront(owned.context.buffer());
    let first = Line {
        pid,
        word: *b"REGS",
        text: Spaced(&registers),
    };
    let second = Line {
        pid,
        word: *b"BUF ",
        text: buffer,
    };
    (first, second).write(out)
}

/// Writes the lines of the restraints, descriptors and memory of a live process. Writes nothing if the process is not
/// live.
///
/// # Errors
///
/// `Failed`, if a write failed. The sink received a prefix of the lines.
pub(crate) fn write_held<W: Sink>(out: &mut W, parts: &Parts, pid: u32) -> Result<(), Failed>
    ensures { Writes W.Sink (answer_bytes (held_by parts.now pid)) out.old out.new result }
{
    let Some(owned) = parts.live_record(pid) else {
        return Ok(());
    };
    write_restraints(out, parts, pid, owned)?;
    write_entries(out, parts, pid, &owned.unveiled)?;
    write_descriptors(out, parts, pid, owned)?;
    write_memory(out, pid, owned)
}
