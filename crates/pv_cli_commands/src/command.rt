//! Commands and their arguments.

use pv_model::Version;
use pv_questions::Question;
use pv_source::Output;

/// The file of an input that has a tree. `-` is the standard input.
#[derive(Clone, Copy)]
pub enum InputFile<'a> {
    /// An image, or a source, which is translated.
    Any(&'a str),
    /// A bundle or a manifest, which is taken as it is.
    Bundle(&'a str),
    /// A source, which is translated whatever its first line is.
    Source(&'a str),
}

/// The schedule of a run.
#[derive(Clone, Copy)]
pub enum ScheduleInput<'a> {
    /// That of the source or bundle.
    Own,
    /// The schedule in a file. `-` is the standard input.
    File(&'a str),
    /// Turns with `, ` between, as `explore` writes a witness.
    Turns(&'a str),
    /// The fair schedule.
    Fair,
}

/// A question about the tree of an input, or about a run of the machine that boots on it.
#[derive(Clone, Copy)]
pub struct Asking<'a> {
    /// The question.
    pub question: Question<'a>,
    /// The input.
    pub input: InputFile<'a>,
    /// The schedule. If an audit has a path and no schedule, and the input is an image, the path is the file of the
    /// schedule.
    pub schedule: ScheduleInput<'a>,
    /// The number of steps after which the schedule is cut.
    pub steps: Option<u32>,
}

/// The import of a host directory as an image.
#[derive(Clone, Copy)]
pub struct Import<'a> {
    /// The directory.
    pub directory: &'a str,
    /// The file to which the image is written.
    pub image: &'a str,
    /// The version of the image.
    pub version: Version,
    /// Whether entries that an image can't have are skipped.
    pub skips: bool,
    /// The file of a source whose entries are added. `-` is the standard input.
    pub source: Option<&'a str>,
}

/// A command.
#[derive(Clone, Copy)]
pub enum Command<'a> {
    /// Answers a question.
    Ask(Asking<'a>),
    /// Compares the possible steps of two inputs under all schedules.
    Compare {
        /// The first input.
        first: InputFile<'a>,
        /// The second input.
        second: InputFile<'a>,
        /// The maximum number of visited pairs of states: 0 counts as 1.
        pairs: u32,
    },
    /// Writes the output for a source, or reports the lines in error.
    WriteSource {
        /// The file of the source. `-` is the standard input.
        source: &'a str,
        /// The output.
        kind: Output,
    },
    /// Makes the image of a manifest.
    MakeImage {
        /// The file of the manifest.
        manifest: &'a str,
        /// The file to which the image is written.
        image: &'a str,
    },
    /// Runs a schedule on an image.
    RunImage {
        /// The file of the image.
        image: &'a str,
        /// The file of the schedule.
        schedule: &'a str,
        /// The file to which the image after the run is written.
        out: &'a str,
    },
    /// Makes an image of version 2 from an image of version 1.
    MigrateImage {
        /// The file of the image.
        image: &'a str,
        /// The file to which the new image is written.
        out: &'a str,
        /// The number of blocks in the new image.
        blocks: u32,
        /// The number of inodes in the new image.
        inodes: u32,
    },
    /// Makes an image of a host directory, with the entries of a source if one is given.
    ImportDirectory(Import<'a>),
    /// Makes a host directory from the tree of an input.
    ExportImage {
        /// The input.
        input: InputFile<'a>,
        /// The directory. It is created if it does not exist; otherwise it must be empty.
        directory: &'a str,
    },
}
