//! The line of a program.
ghost use Rattle.std.specs.Prelude.{◌≡◌, ◌++◌, codes, decimal, option_map, OnOk};
ghost use Rattle.pv_model.specs.Machine.{answer_line, answer_line_bytes, program_of, listed_path};
ghost use Rattle.pv_model.specs.Answers.ProgramNames.{program_line};
ghost use Rattle.pv_programs.specs.Naming.{path_words};

use crate::naming::path_of_program;
use pv_answers::Line;
use pv_answers::tree::Tree;
use pv_script::Program;
use pv_streams::{Count, Failed, Fragment, Gathered, Plain, Quoted, Sink, append};
use std::alloc::{AllocError, Global};

// Returns a path as a listing has it: the path of the root is a slash.
fn listed(path: &[u8]) -> &[u8]
    ensures { result.now ≡ listed_path path.now }
{
    if path.is_empty() { b"/" } else { path }
}

// The number of a program, and the path of its file, or `no file`.
#[derive(Clone, Copy)]
struct Named<'a> {
    number: usize,
    path: Option<&'a [u8]>,
}

impl<'a> Fragment for Named<'a> {
    ghost use Rattle.std.specs.Prelude.{◌++◌, codes, decimal};
    ghost use Rattle.std.specs.Option.{option_copied};
    ghost use Rattle.pv_programs.specs.Naming.{path_words};

    ghost text = { λ p. decimal p.number ++ codes ", " ++ path_words (option_copied p.path) };

    fn write<W: Sink>(&self, out: &mut W) -> Result<(), Failed> {
        let number = Count(self.number as u64);
        match self.path {
            Some(path) => (number, Plain(b", "), Quoted(listed(path))).write(out),
            None => (number, Plain(b", "), Plain(b"no file")).write(out),
        }
    }
}

// Appends the line of a program, given the path of its file.
#[tactic(auto, unfolding(pv_model::specs::Trace::text_line))]
fn append_named(out: &mut Gathered, number: usize, path: &Option<Vec<u8>>) -> Result<(), AllocError>
    ensures { OnOk result (out.new.bytes.items ≡ out.old.bytes.items ++ answer_line_bytes (answer_line 0 (codes "PROG") (decimal number ++ codes ", " ++ path_words (option_map (λ p. p.items) path.now)))) }
{
    let path = match path {
        Some(path) => Some(path.as_slice()),
        None => None,
    };
    let line = Line {
        pid: 0,
        word: *b"PROG",
        text: Named { number, path },
    };
    append(out, &line)
}

/// Appends the line PROG of a program: its number, and the path of the first executable file of a tree that parses as
/// it, in the order of a listing, or `no file`.
///
/// # Errors
///
/// `AllocError`, if there is no memory.
pub fn append_program_line(
    alloc: Global,
    out: &mut Gathered,
    tree: &Tree,
    number: usize,
    program: &Program,
) -> Result<(), AllocError>
    ensures { OnOk result (out.new.bytes.items ≡ out.old.bytes.items ++ answer_line_bytes (program_line program_of tree.now.tree number program.now)) }
{
    let path = path_of_program(alloc, tree, program)?;
    append_named(out, number, &path)
}
