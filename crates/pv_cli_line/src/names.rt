//! The files of a command, as the explanation of an error names them.
ghost use Rattle.std.specs.Prelude.{◌≤◌, IfSome, length, vec_len};

use pv_cli_commands::questions::{
    Format, Input, Inputs, Question, Turns, Unshown, answer, is_source,
};
use pv_cli_commands::{Asking, Command, Files, Import, InputFile, ScheduleInput};
use pv_source::translate;
use pv_streams::{Gathered, SOURCE_BYTES, read_whole};
use std::alloc::Global;

// What a file is expected to be.
#[derive(Clone, Copy, PartialEq, Eq)]
pub(crate) enum Wanted {
    // An image or a source.
    Any,
    // An image.
    Image,
    // A text that is taken as it is: a bundle or a manifest.
    Text,
    // A source.
    Source,
}

// The files of a command.
#[derive(Clone, Copy)]
pub(crate) struct Names<'a> {
    // The file of the bundle, the manifest, the source or the image.
    pub(crate) first: &'a str,
    // What that file is expected to be.
    pub(crate) wanted: Wanted,
    // The same in words.
    pub(crate) words: &'static str,
    // The advice if that file is an image in place of a text, or a text in place of an image.
    pub(crate) hint: &'static str,
    // Whether `-` means the standard input.
    pub(crate) has_input: bool,
    // The file of the schedule, or the other of two inputs.
    pub(crate) second: Option<&'a str>,
    // The file that is written.
    pub(crate) out: Option<&'a str>,
}

impl<'a> Names<'a> {
    // Returns the first file, or `None` if it is the standard input.
    pub(crate) fn first_file(self) -> Option<&'a str> {
        if self.has_input && self.first == "-" {
            return None;
        }
        Some(self.first)
    }

    // Returns the first file in words.
    pub(crate) fn first_words(self) -> &'a str {
        self.first_file().unwrap_or("standard input")
    }
}

// Returns the files of a command that reads an input. `words` is what a bundle is expected to be.
fn input_named<'a>(input: InputFile<'a>, words: &'static str) -> Names<'a> {
    let (first, wanted, words, hint) = match input {
        InputFile::Any(name) => (name, Wanted::Any, "an image or a source", ""),
        InputFile::Bundle(name) => (name, Wanted::Text, words, "; omit -b for an image"),
        InputFile::Source(name) => (name, Wanted::Source, "a source", ""),
    };
    Names {
        first,
        wanted,
        words,
        hint,
        has_input: true,
        second: None,
        out: None,
    }
}

// Returns the files of a command that reads a text and never an image in place of it.
fn text_named<'a>(input: InputFile<'a>, words: &'static str) -> Names<'a> {
    Names {
        hint: "",
        ..input_named(input, words)
    }
}

// Returns the files of a command that reads an image and never a text in place of it.
fn image_named<'a>(first: &'a str, second: Option<&'a str>, out: Option<&'a str>) -> Names<'a> {
    Names {
        first,
        wanted: Wanted::Image,
        words: "an image",
        hint: "; 'pvsim mkimg' makes one from a manifest",
        has_input: false,
        second,
        out,
    }
}

// Returns the name of the file of an input, if it is not the standard input.
fn file_of(input: InputFile<'_>) -> Option<&str> {
    match input {
        InputFile::Any("-") | InputFile::Bundle("-") | InputFile::Source("-") => None,
        InputFile::Any(name) | InputFile::Bundle(name) | InputFile::Source(name) => Some(name),
    }
}

// Returns the translation of a source, if it has no errors and is not too long.
fn translation_of(alloc: Global, source: &[u8]) -> Option<Vec<u8>>
    requires { length source.now ≤ SOURCE_BYTES }
    ensures { IfSome result (λ text. vec_len text ≤ SOURCE_BYTES) }
{
    let mut reported = Gathered::new(alloc);
    let text = translate(alloc, b"", source, &mut reported).ok()?;
    if text.len() > SOURCE_BYTES {
        return None;
    }
    Some(text)
}

// Returns the input that a file is, if it can be read again.
fn read_again<F: Files>(alloc: Global, files: &F, input: InputFile<'_>) -> Option<Input> {
    let name = file_of(input)?;
    if !files.is_regular(name) {
        return None;
    }
    let mut reader = files.open(name).ok()?;
    let bytes = read_whole(alloc, &mut reader).ok()?;
    match input {
        InputFile::Bundle(_) => {
            let format = Format::Text;
            Some(Input { format, bytes })
        }
        InputFile::Any(_) if !is_source(&bytes) => {
            let format = Format::Image;
            Some(Input { format, bytes })
        }
        InputFile::Any(_) | InputFile::Source(_) => {
            let bytes = translation_of(alloc, &bytes)?;
            let format = Format::Text;
            Some(Input { format, bytes })
        }
    }
}

// Returns whether the machine on the tree of an input starts.
fn starts<F: Files>(alloc: Global, files: &F, input: InputFile<'_>) -> bool {
    let Some(input) = read_again(alloc, files, input) else {
        return false;
    };
    let inputs = Inputs {
        input,
        turns: Turns::Own,
        steps: None,
    };
    let (mut notes, mut turns) = (Vec::new(alloc), Gathered::new(alloc));
    let question = Question::Turns { slice: 1, steps: 1 };
    answer(
        alloc,
        question,
        inputs,
        &mut notes,
        &mut Unshown,
        &mut turns,
    )
    .is_ok()
}

// Returns the files of a comparison. The one in error comes first.
fn compared_named<'a, F: Files>(
    alloc: Global,
    files: &F,
    first: InputFile<'a>,
    second: InputFile<'a>,
) -> Names<'a> {
    let words = "a manifest or bundle";
    let is_second = starts(alloc, files, first)
        || file_of(first).is_none() && !starts(alloc, files, second);
    let (at_fault, other) = if is_second {
        (second, first)
    } else {
        (first, second)
    };
    Names {
        second: file_of(other),
        ..input_named(at_fault, words)
    }
}

// Returns the files of a question about an input.
fn asked_named(asking: Asking<'_>) -> Names<'_> {
    let Asking {
        question,
        input,
        schedule,
        ..
    } = asking;
    let second = match schedule {
        ScheduleInput::File("-")
        | ScheduleInput::Own
        | ScheduleInput::Turns(_)
        | ScheduleInput::Fair => None,
        ScheduleInput::File(name) => Some(name),
    };
    let takes_manifest = matches!(
        question,
        Question::Listing
            | Question::File(_)
            | Question::Turns { .. }
            | Question::Explore { .. }
            | Question::Access { .. }
            | Question::Exposure { .. }
            | Question::Policy { .. }
            | Question::Graph { .. }
    );
    let words = if takes_manifest || !matches!(schedule, ScheduleInput::Own) {
        "a manifest or bundle"
    } else {
        "a bundle"
    };
    let names = Names {
        second,
        ..input_named(input, words)
    };
    match question {
        Question::Trace => Names { hint: "", ..names },
        _ => names,
    }
}

// Returns the files of an import.
fn import_named(import: Import<'_>) -> Names<'_> {
    let out = Some(import.image);
    match import.source {
        Some(source) => Names {
            out,
            ..text_named(InputFile::Source(source), "a source")
        },
        None => image_named(import.directory, None, out),
    }
}

// Returns the files of a command.
pub(crate) fn names_of<'a, F: Files>(alloc: Global, files: &F, command: Command<'a>) -> Names<'a> {
    match command {
        Command::Compare { first, second, .. } => compared_named(alloc, files, first, second),
        Command::Ask(asking) => asked_named(asking),
        Command::WriteSource { source, .. } => text_named(InputFile::Source(source), "a source"),
        Command::MakeImage { manifest, image } => Names {
            has_input: false,
            out: Some(image),
            ..text_named(InputFile::Bundle(manifest), "a manifest")
        },
        Command::RunImage {
            image,
            schedule,
            out,
        } => image_named(image, Some(schedule), Some(out)),
        Command::ImportDirectory(import) => import_named(import),
        Command::MigrateImage { image, out, .. } => image_named(image, None, Some(out)),
        Command::ExportImage { input, directory } => Names {
            out: Some(directory),
            ..input_named(input, "")
        },
    }
}
