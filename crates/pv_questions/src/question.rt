//! Questions.
ghost use Rattle.std.specs.Prelude.{◌≡◌};
ghost use Rattle.pv_questions.specs.FilePaths.{paths_of};

use pv_policy::reduced::SearchKind;

/// The paths of the files that an answer is about: at most 8. Without a path, the answer is about all files.
#[derive(Clone, Copy)]
pub struct Files<'a> {
    /// The paths. They are a tuple, since the prover does not check the loans of an enum that holds an array of references.
    pub paths: (
        Option<&'a [u8]>,
        Option<&'a [u8]>,
        Option<&'a [u8]>,
        Option<&'a [u8]>,
        Option<&'a [u8]>,
        Option<&'a [u8]>,
        Option<&'a [u8]>,
        Option<&'a [u8]>,
    ),
}

impl<'a> Files<'a> {
    /// Returns the paths as an array.
    pub fn to_array(self) -> [Option<&'a [u8]>; 8]
        ensures { result ≡ paths_of self.entry }
    {
        let (a, b, c, d, e, f, g, h) = self.paths;
        [a, b, c, d, e, f, g, h]
    }
}

/// A question about the tree of an input, or about a run of the machine that boots on it.
#[derive(Clone, Copy)]
pub enum Question<'a> {
    /// The trace of the run.
    Trace,
    /// The state of each process after the run.
    State,
    /// The permissions of the next call of each live process after the run, or of the live process with this number.
    Reach(Option<u32>),
    /// The explained trace of the run.
    Explain {
        /// Whether the reason is also written for each failed call that neither a promise nor a table refused, and the
        /// effect of each execve(2) on the restraints of its process.
        errors: bool,
        /// Whether a line is also written for each walk that was checked and allowed.
        allowed: bool,
    },
    /// The demands of each program on its sandbox in the run.
    Needs {
        /// Whether the calls that a promise or a table refused are left out.
        granted: bool,
    },
    /// The verdict on the file at a path after the run, or on all files.
    Audit(Option<&'a str>),
    /// The same verdicts, with a line for each reason of each process if a file is exposed.
    Reasons(Option<&'a str>),
    /// A line for each name of the tree.
    Listing,
    /// The bytes of the file at a path. The path is walked from the root; links are followed, and no unveil table
    /// applies.
    File(&'a str),
    /// A fair schedule.
    Turns {
        /// The maximum number of steps in a turn: 0 counts as 1.
        slice: u32,
        /// The maximum number of steps in all turns together.
        steps: u32,
    },
    /// What can happen under all schedules.
    Explore {
        /// The search.
        kind: SearchKind,
        /// The maximum number of visited states: 0 counts as 1.
        states: u32,
    },
    /// Which process can access what under all schedules.
    Access {
        /// The search.
        kind: SearchKind,
        /// The files that the answer is about.
        files: Files<'a>,
        /// The maximum number of visited states: 0 counts as 1.
        states: u32,
    },
    /// The gains of an attacker who takes over a process, at each line of its program.
    Exposure {
        /// The search.
        kind: SearchKind,
        /// The files that the answer is about.
        files: Files<'a>,
        /// The maximum number of visited states: 0 counts as 1.
        states: u32,
    },
    /// The needs of each program under all schedules, and the promises and permissions that it holds and never uses.
    Policy {
        /// The search.
        kind: SearchKind,
        /// Whether the calls that a promise or a table refused are left out.
        granted: bool,
        /// The maximum number of visited states: 0 counts as 1.
        states: u32,
    },
    /// The state graph.
    Graph {
        /// Whether each state is written with its tree and the permissions of its processes.
        tree: bool,
        /// The maximum number of visited states: 0 counts as 1.
        states: u32,
    },
}
