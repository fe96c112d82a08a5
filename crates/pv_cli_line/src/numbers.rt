//! The explanation of a numeric argument that is not a number: its name, the word, and its expected form.
ghost use Rattle.pv_cli_line.specs.Messages.{WritesMore};

use crate::lines::push_excerpt;
use crate::matches::reached_in;
use crate::parser::parser;
use crate::texts::{count_of, is_verbose, size_of, states_of, version_of};
use clap::ArgMatches;
use pv_streams::{Sink, write_through};
use std::alloc::{AllocError, Global};
use std::convert::AsStr;

// The form of a numeric argument.
#[derive(Clone, Copy)]
enum Form {
    // A number of 32 bits.
    Size,
    // A number of steps.
    Count,
    // A number of states.
    States,
    // A version of an image.
    Version,
}

impl Form {
    // Returns whether a word has the form.
    fn accepts(self, word: &str) -> bool {
        match self {
            Form::Size => size_of(word).is_some(),
            Form::Count => count_of(Some(word), 1).is_some(),
            Form::States => states_of(Some(word)).is_some(),
            Form::Version => version_of(Some(word)).is_some(),
        }
    }

    // Returns the form in words.
    fn words(self) -> &'static str {
        match self {
            Form::Size => "expected 0 to 4294967295, in decimal without leading zeros",
            Form::Count => "expected 1 to 65536, in decimal without leading zeros",
            Form::States => "expected 1 to 4294967295, in decimal without leading zeros",
            Form::Version => "expected 1 or 2",
        }
    }
}

// A numeric argument: its name in the parser, its name in a command line, and its form.
struct NumberRow {
    argument: &'static str,
    shown: &'static str,
    form: Form,
}

// The numeric arguments except the number of steps and the process of `reach`.
const NUMBERS: &[NumberRow] = &[
    NumberRow {
        argument: "BLOCKS",
        shown: "BLOCKS",
        form: Form::Size,
    },
    NumberRow {
        argument: "INODES",
        shown: "INODES",
        form: Form::Size,
    },
    NumberRow {
        argument: "slice",
        shown: "--slice",
        form: Form::Count,
    },
    NumberRow {
        argument: "states",
        shown: "--states",
        form: Form::States,
    },
    NumberRow {
        argument: "image-version",
        shown: "--image-version",
        form: Form::Version,
    },
];

// A numeric argument that is not a number.
#[derive(Clone, Copy)]
struct Faulty<'a> {
    shown: &'static str,
    word: &'a str,
    form: Form,
}

// Returns the argument with its word, if the word does not have the form.
fn faulty_word<'a>(shown: &'static str, word: Option<&'a str>, form: Form) -> Option<Faulty<'a>> {
    let word = word?;
    if form.accepts(word) {
        return None;
    }
    Some(Faulty { shown, word, form })
}

// Returns the process of `reach`, if it is not a number.
fn faulty_process<'a>(inner: &ArgMatches<'a>) -> Option<Faulty<'a>> {
    let run = reached_in(inner).ok()?;
    faulty_word("PID", run.further, Form::Size)
}

// Returns the first numeric argument in the matches that is not a number.
fn faulty_in<'a>(matches: &ArgMatches<'a>) -> Option<Faulty<'a>> {
    let (command, inner) = matches.subcommand()?;
    if command == "reach" {
        if let Some(faulty) = faulty_process(inner) {
            return Some(faulty);
        }
    }
    for row in NUMBERS {
        let word = inner.get_str(row.argument);
        if let Some(faulty) = faulty_word(row.shown, word, row.form) {
            return Some(faulty);
        }
    }
    let form = if command == "turns" {
        Form::Count
    } else {
        Form::Size
    };
    faulty_word("--steps", inner.get_str("steps"), form)
}

// Appends a line for an argument that is not a number.
fn push_faulty(alloc: Global, out: &mut Vec<u8>, faulty: Faulty<'_>) -> Result<(), AllocError> {
    let Faulty { shown, word, form } = faulty;
    out.extend_from_slice(format!(in alloc; "  {shown} '")?.as_bytes())?;
    push_excerpt(alloc, out, word.as_bytes())?;
    let wanted = form.words();
    out.extend_from_slice(format!(in alloc; "': {wanted}\n")?.as_bytes())
}

// Returns the explanation of a numeric argument that is not a number, if the words ask for one.
fn explanation<S: AsStr>(alloc: Global, words: &[S]) -> Result<Vec<u8>, AllocError> {
    let mut out = Vec::new(alloc);
    let Ok(matches) = parser(alloc)?.try_get_matches_from_mut(words) else {
        return Ok(out);
    };
    if !is_verbose(&matches) {
        return Ok(out);
    }
    if let Some(faulty) = faulty_in(&matches) {
        push_faulty(alloc, &mut out, faulty)?;
    }
    Ok(out)
}

// Writes the explanation of a numeric argument that is not a number, if the words ask for one. If there is no memory or
// a write fails, nothing more is written.
#[tactic(auto, using(crate::proofs::MessageParts::more_written, crate::proofs::MessageParts::more_nothing))]
pub(crate) fn explain_number<S: AsStr, E: Sink>(alloc: Global, words: &[S], errors: &mut E)
    ensures { WritesMore E.Sink errors.old errors.new }
{
    let Ok(text) = explanation(alloc, words) else {
        return;
    };
    let _written = write_through(errors, &text);
}
