//! The parser of the command line, built from the table of the commands.
ghost use Rattle.std.specs.Prelude.{◌≡◌, false, IfOk, map};
ghost use Rattle.std.specs.Option.{option_or};
ghost use Rattle.clap.specs.Words.{app_of, rule_of};
ghost use Rattle.clap.specs.declared.builder.command.Command.TheViews.{out-Command as fields_of};
ghost use Rattle.pv_cli_line.specs.Parser.{IsParserOf, app_of_row, bare_app, long_rule, pvsim_app, repeated_rule, rule_of_argument, schedule_apps, search_apps, with_flags, with_rows};

use clap::{Arg, ArgAction, Command as Parser};
use std::alloc::{AllocError, Global};

// An argument of a command: its name and its help.
enum Argument {
    // A required text.
    Required(&'static str, &'static str),
    // An optional text.
    Optional(&'static str, &'static str),
    // An option with one text, whose name in the help may differ.
    Named {
        name: &'static str,
        short: Option<char>,
        value: &'static str,
        help: &'static str,
    },
    // An option with one text, and its old name, which the help does not show.
    Renamed {
        name: &'static str,
        old: &'static str,
        value: &'static str,
        help: &'static str,
    },
    // An option with one text, which may be given more than once.
    Repeated {
        name: &'static str,
        value: &'static str,
        help: &'static str,
    },
    // A flag.
    Flag {
        name: &'static str,
        short: Option<char>,
        help: &'static str,
    },
}

use Argument::{Flag, Named, Optional, Renamed, Repeated, Required};

// A command: its name, its help, the end of its help with the limits of the answer and an example, and its arguments
// in order.
struct CommandRow {
    name: &'static str,
    about: &'static str,
    example: &'static str,
    arguments: &'static [Argument],
}

// The flag that once asked for an explanation of errors. It may be given before or after the name of a command.
const VERBOSE: Argument = Flag {
    name: "verbose",
    short: Some('v'),
    help: "explain an error, which is the default",
};

// The flag that turns explanations off. It may be given before or after the name of a command.
const QUIET: Argument = Flag {
    name: "quiet",
    short: Some('q'),
    help: "do not explain an error, and leave out notes; without -q the file, the system's reason, the line and the expected form follow it",
};

// The option that names a bundle, in place of the input.
const BUNDLE: Argument = Named {
    name: "bundle",
    short: Some('b'),
    value: "FILE",
    help: "a bundle or a manifest in place of FILE, taken as it is; '-' is standard input",
};

// The option that names the input.
const SOURCE: Argument = Named {
    name: "source",
    short: Some('s'),
    value: "FILE",
    help: "the same as FILE",
};

// The input that has a tree. It is omitted if an option names it.
const FILE: Argument = Optional(
    "FILE",
    "an image, or a source, which 'pvsim source' translates to a manifest or bundle; '-' is standard input",
);

// A schedule. It is omitted if turns are given, or if the input has its own.
const SCHEDULE: Argument = Optional(
    "SCHEDULE",
    "the schedule: the turns of the processes (default: that of the source); '-' is standard input",
);

// The turns of a run, in place of a schedule.
const BY: Argument = Named {
    name: "by",
    short: None,
    value: "TURNS",
    help: "turns in place of SCHEDULE, as 'explore' writes them: 'PID COUNT, PID COUNT'",
};

// The flag of the fair schedule, in place of a schedule.
const FAIR: Argument = Flag {
    name: "turns",
    short: None,
    help: "in place of SCHEDULE, the one that 'turns' writes: the processes in turn, until none can go on, for at most 65536 steps",
};

// The number of steps after which the schedule of a run is cut.
const FIRST: Argument = Named {
    name: "steps",
    short: None,
    value: "N",
    help: "run only the first N steps of the schedule",
};

// The first of two inputs, which is the second if a bundle is given.
const FIRST_INPUT: Argument = Optional(
    "FILE",
    "an image or a source; with -b, the second bundle; '-' is standard input",
);

// The second of two inputs.
const OTHER: Argument = Optional("OTHER", "the other image or source");

// The first of two bundles, in place of the first of two inputs.
const FIRST_BUNDLE: Argument = Named {
    name: "bundle",
    short: Some('b'),
    value: "FILE",
    help: "the first bundle; the word is then the second bundle; both are taken as they are",
};

// The maximum number of pairs of states that a comparison visits.
const PAIRS: Argument = Named {
    name: "states",
    short: None,
    value: "N",
    help: "the maximum number of pairs of states: 1 to 4294967295 (default 1000000); the exit status is 5 if a pair is left out",
};

// The maximum number of states that a search visits.
const STATES: Argument = Named {
    name: "states",
    short: None,
    value: "N",
    help: "the maximum number of states: 1 to 4294967295 (default 1000000); the exit status is 5 if a state is left out",
};

// The files that the answer of a search is about.
const FILES: Argument = Repeated {
    name: "file",
    value: "PATH",
    help: "keep only the lines about the file at this path in the image, under each path that it has; at most 8 times",
};

const REDUCED: Argument = Flag {
    name: "reduced",
    short: None,
    help: "visit fewer states: identify those that differ only in numbers of open files and in values that are never read, and make steps on registers together",
};

// The flag of a question about needs that leaves refused calls out.
const GRANTED: Argument = Flag {
    name: "granted",
    short: None,
    help: "leave out the calls that a promise or an unveil table refused",
};

// The commands on a tree and on one run, in the order in which the help lists them.
const RUNS: &[CommandRow] = &[
    CommandRow {
        name: "run-tree",
        about: "Run a bundle and write its trace",
        example: "Example, with the files of examples/:\n  pvsim run-tree motd.bundle",
        arguments: &[
            Flag {
                name: "source",
                short: Some('s'),
                help: "FILE is a source, which 'pvsim source' translates to a bundle",
            },
            Required(
                "FILE",
                "a bundle: a manifest, the line 'schedule' and a schedule; '-' is standard input",
            ),
            BY,
            FIRST,
        ],
    },
    CommandRow {
        name: "source",
        about: "Convert a source to a manifest or bundle, or report its errors",
        example: "Example, with the files of examples/:\n  pvsim source sources/motd",
        arguments: &[
            Required(
                "FILE",
                "a source: a manifest or bundle with comments, labels and extra blanks; '-' is standard input",
            ),
            Flag {
                name: "lines",
                short: None,
                help: "write a line for each instruction instead: its line in the source, its program and its line there",
            },
        ],
    },
    CommandRow {
        name: "mkimg",
        about: "Make an image from a manifest",
        example: "Example, with the files of examples/:\n  pvsim mkimg motd.manifest image",
        arguments: &[
            Required(
                "MANIFEST",
                "the manifest: the sizes and the contents of the image",
            ),
            Required("IMAGE", "the image file to write"),
        ],
    },
    CommandRow {
        name: "ls",
        about: "List the tree of an image or a source",
        example: "Example, with the files of examples/:\n  pvsim ls motd.bundle",
        arguments: &[BUNDLE, SOURCE, FILE],
    },
    CommandRow {
        name: "run",
        about: "Run an image under a schedule, and write the trace and the final image",
        example: "Example, with the files of examples/:\n  pvsim run image motd.schedule out",
        arguments: &[
            Required("IMAGE", "the image"),
            Required("SCHEDULE", "the schedule: the turns of the processes"),
            Required("OUT", "the image file to write"),
        ],
    },
    CommandRow {
        name: "audit",
        about: "Run an image or a source, and report which files are sealed",
        example: "'sealed' is about later calls, of any program. Bytes that were read before and copies are not covered.\n\nExample, with the files of examples/:\n  pvsim audit sealed.bundle",
        arguments: &[
            BUNDLE,
            SOURCE,
            BY,
            FAIR,
            FIRST,
            FILE,
            SCHEDULE,
            Optional("PATH", "a file in the image (default: all files)"),
            Flag {
                name: "reasons",
                short: None,
                help: "print a line for each reason of each process, in place of the first",
            },
        ],
    },
    CommandRow {
        name: "state",
        about: "Run an image or a source, and print the state of each process",
        example: "Example, with the files of examples/:\n  pvsim state privsep.bundle --steps 9",
        arguments: &[BUNDLE, SOURCE, BY, FAIR, FIRST, FILE, SCHEDULE],
    },
    CommandRow {
        name: "reach",
        about: "Run an image or a source, and print the operations that each process may perform at each place",
        example: "This is about the next call alone: two calls may do what neither may do, see audit.\n\nExample, with the files of examples/:\n  pvsim reach daemon.bundle",
        arguments: &[
            BUNDLE,
            SOURCE,
            BY,
            FAIR,
            FIRST,
            FILE,
            SCHEDULE,
            Optional("PID", "a process number (default: all processes)"),
        ],
    },
    CommandRow {
        name: "explain",
        about: "Run an image or a source, and write the trace with the reason for each result",
        example: "Example, with the files of examples/:\n  pvsim explain error.bundle",
        arguments: &[
            BUNDLE,
            SOURCE,
            BY,
            FAIR,
            FIRST,
            FILE,
            SCHEDULE,
            Flag {
                name: "errors",
                short: None,
                help: "say why each call failed that neither a promise nor an unveil table refused, and what each execve did to promises, execpromises, table and lock: the default, unless --brief is given",
            },
            Flag {
                name: "brief",
                short: None,
                help: "say why a call failed only if a promise or an unveil table refused it",
            },
            Flag {
                name: "allowed",
                short: None,
                help: "say what allowed each path that was checked: the unveil entry, or that there is no table",
            },
        ],
    },
    CommandRow {
        name: "needs",
        about: "Run an image or a source, and print the promises and paths that each program used",
        example: "This is about one run: another schedule may need more, see policy.\n\nExample, with the files of examples/:\n  pvsim needs motd.bundle",
        arguments: &[BUNDLE, SOURCE, BY, FAIR, FIRST, FILE, SCHEDULE, GRANTED],
    },
    CommandRow {
        name: "cat",
        about: "Write the contents of a file in an image or a source",
        example: "Example, with the files of examples/:\n  pvsim cat motd.bundle /etc/motd",
        arguments: &[
            BUNDLE,
            SOURCE,
            FILE,
            Optional("PATH", "the path of the file in the image"),
        ],
    },
    CommandRow {
        name: "turns",
        about: "Write a schedule that runs the processes of an image or a source in turn",
        example: "Example, with the files of examples/:\n  pvsim turns privsep.bundle --slice 3",
        arguments: &[
            BUNDLE,
            SOURCE,
            FILE,
            Named {
                name: "slice",
                short: None,
                value: "K",
                help: "the maximum number of steps in a turn: 1 to 65536 (default 1)",
            },
            Named {
                name: "steps",
                short: None,
                value: "N",
                help: "the maximum number of steps in the schedule: 1 to 65536 (default 1000)",
            },
        ],
    },
];

// The commands on all schedules and those that convert images, which the help lists after the others.
const SEARCHES: &[CommandRow] = &[
    CommandRow {
        name: "explore",
        about: "Print everything that can happen under any schedule of an image or a source, each with a shortest schedule",
        example: "Example, with the files of examples/:\n  pvsim explore race-first.bundle",
        arguments: &[BUNDLE, SOURCE, FILE, STATES, REDUCED],
    },
    CommandRow {
        name: "access",
        about: "Print which process can access which file under any schedule, each with a shortest schedule",
        example: "A file is shown by its path at that step, and after 'first' by its path in the image if that is another one.\n\nExample, with the files of examples/:\n  pvsim access race-first.bundle --file /etc/key",
        arguments: &[BUNDLE, SOURCE, FILE, STATES, REDUCED, FILES],
    },
    CommandRow {
        name: "exposure",
        about: "Print at which lines of each program a process could still reach each file, whatever it called next",
        example: "An attacker controls one process. LEAK and EDIT are about its own calls; PEER: another process could hand the file over;\nREAD: what was read there is still in the buffer later.\n\nExample, with the files of examples/:\n  pvsim exposure privsep.bundle",
        arguments: &[BUNDLE, SOURCE, FILE, STATES, REDUCED, FILES],
    },
    CommandRow {
        name: "policy",
        about: "Print the promises and permissions that each program needs under any schedule, and those that it never uses",
        example: "A child and a new program inherit promises and permissions. Ask compare before you drop one that this program never uses.\n\nExample, with the files of examples/:\n  pvsim policy daemon.bundle",
        arguments: &[BUNDLE, SOURCE, FILE, STATES, REDUCED, GRANTED],
    },
    CommandRow {
        name: "compare",
        about: "Say whether two images or sources let the same happen under any schedule, calls of pledge and unveil aside",
        example: "'the same' is about these programs. An attacker makes other calls: see audit and exposure.\n\nExample, with the files of examples/:\n  pvsim compare motd.bundle motd.manifest",
        arguments: &[FIRST_BUNDLE, FIRST_INPUT, OTHER, PAIRS],
    },
    CommandRow {
        name: "graph",
        about: "Write the states that an image or a source can reach under any schedule, and the steps between them",
        example: "Example, with the files of examples/:\n  pvsim graph race-first.bundle",
        arguments: &[
            BUNDLE,
            SOURCE,
            FILE,
            STATES,
            Flag {
                name: "tree",
                short: None,
                help: "also write the tree of each state and the operations that each process may perform",
            },
        ],
    },
    CommandRow {
        name: "migrate",
        about: "Convert an image from version 1 to version 2, and keep the inode numbers",
        example: "Example, with the files of examples/:\n  pvsim migrate image larger 1024 256",
        arguments: &[
            Required("IMAGE", "an image of version 1"),
            Required("OUT", "the image file to write"),
            Required(
                "BLOCKS",
                "the number of blocks of the new image: at most 65535",
            ),
            Required(
                "INODES",
                "the number of inodes of the new image: at most 4096, and not fewer than before",
            ),
        ],
    },
    CommandRow {
        name: "import",
        about: "Make an image from a host directory: directories, files, symbolic links and hard links",
        example: "Example, with the files of examples/:\n  pvsim import . image --image-version 2 --with sources/motd",
        arguments: &[
            Required("DIR", "the host directory"),
            Required("IMAGE", "the image file to write"),
            Renamed {
                name: "image-version",
                old: "version",
                value: "V",
                help: "the version of the image: 1 or 2 (default 1)",
            },
            Flag {
                name: "skip",
                short: None,
                help: "skip entries that an image cannot hold; they are reported with or without this option",
            },
            Named {
                name: "with",
                short: None,
                value: "SOURCE",
                help: "add the programs and files of a source, in place of what DIR has at their paths; the size of the image is the greatest of its version, whatever the source says, and its schedule is ignored; '-' is standard input",
            },
        ],
    },
    CommandRow {
        name: "export",
        about: "Make a host directory from an image or a source: directories, files, symbolic links and hard links",
        example: "Example, with the files of examples/:\n  pvsim export motd.bundle tree",
        arguments: &[
            Required("FILE", "an image or a source; '-' is standard input"),
            Required(
                "DIR",
                "the directory to create; it must be empty or not exist",
            ),
        ],
    },
];

// Adds a short form to an argument, if one is given.
fn with_short<'a>(argument: Arg<'a>, short: Option<char>) -> Arg<'a>
    ensures { result ≡ record argument.entry { short = option_or short argument.entry.short } }
{
    match short {
        Some(letter) => argument.short(letter),
        None => argument,
    }
}

// Returns an option with one text.
fn option_of<'a>(alloc: Global, name: &'a str, value: &'a str, help: &'a str) -> Arg<'a>
    ensures rule { rule_of result ≡ long_rule name.now }
    ensures local { result.global ≡ false }
{
    Arg::new(alloc, name)
        .action(ArgAction::Set)
        .long(name)
        .value_name(value)
        .help(help)
}

// Returns an option with one text, which may be given more than once.
fn repeated_of<'a>(alloc: Global, name: &'a str, value: &'a str, help: &'a str) -> Arg<'a>
    ensures rule { rule_of result ≡ repeated_rule name.now }
    ensures local { result.global ≡ false }
{
    Arg::new(alloc, name)
        .action(ArgAction::Append)
        .long(name)
        .value_name(value)
        .help(help)
}

// Converts an argument of the table to an argument of the parser.
fn argument_of<'a>(alloc: Global, argument: &Argument) -> Result<Arg<'a>, AllocError>
    ensures rule { IfOk result (λ one. rule_of one ≡ rule_of_argument argument.now) }
    ensures local { IfOk result (λ one. one.global ≡ false) }
{
    match *argument {
        Required(name, help) => Ok(
            Arg::new(alloc, name)
                .action(ArgAction::Set)
                .required(true)
                .help(help),
        ),
        Optional(name, help) => Ok(Arg::new(alloc, name).action(ArgAction::Set).help(help)),
        Named {
            name,
            short,
            value,
            help,
        } => Ok(with_short(option_of(alloc, name, value, help), short)),
        Renamed {
            name,
            old,
            value,
            help,
        } => option_of(alloc, name, value, help).alias(old),
        Repeated { name, value, help } => Ok(repeated_of(alloc, name, value, help)),
        Flag { name, short, help } => {
            let flag = Arg::new(alloc, name)
                .action(ArgAction::SetTrue)
                .long(name)
                .help(help);
            Ok(with_short(flag, short))
        }
    }
}

// Adds the flags that may be given before or after the name of a command.
fn with_flags<'a>(alloc: Global, parser: Parser<'a>) -> Result<Parser<'a>, AllocError>
    ensures app { IfOk result (λ more. app_of more ≡ with_flags (app_of parser.entry)) }
    ensures globals { (fields_of parser.entry).has_globals ≡ false → IfOk result (λ more. (fields_of more).has_globals ≡ false) }
{
    let verbose = parser.arg(argument_of(alloc, &VERBOSE)?)?;
    let quiet = verbose.arg(argument_of(alloc, &QUIET)?)?;
    Ok(quiet)
}

// Returns the parser of a command.
fn command_parser<'a>(alloc: Global, row: &CommandRow) -> Result<Parser<'a>, AllocError>
    ensures { IfOk result (IsParserOf (app_of_row row.now)) }
{
    let bare = Parser::new(alloc, row.name)
        .about(row.about)
        .after_help(row.example);
    let mut parser = with_flags(alloc, bare)?;
    for argument in row.arguments {
        parser = parser.arg(argument_of(alloc, argument)?)?;
    }
    Ok(parser)
}

// Adds commands to the parser.
fn with_commands<'a>(
    alloc: Global,
    mut parser: Parser<'a>,
    rows: &[CommandRow],
) -> Result<Parser<'a>, AllocError>
    ensures { IfOk result (λ more. app_of more ≡ with_rows (app_of parser.entry) rows.now) }
{
    for row in rows {
        parser = parser.subcommand(command_parser(alloc, row)?)?;
    }
    Ok(parser)
}

// Returns the parser of the program without commands.
fn bare_parser<'a>(alloc: Global) -> Result<Parser<'a>, AllocError>
    ensures { IfOk result (λ parser. app_of parser ≡ bare_app) }
{
    let bare = Parser::new(alloc, "pvsim")
        .version("0.1.0")
        .about(
            "A teaching kernel with OpenBSD's pledge and unveil. Without arguments, pvsim runs the bundle on standard input.",
        )
        .subcommand_required(true);
    with_flags(alloc, bare)
}

// Returns the table of the commands on a tree and on one run.
fn runs() -> &'static [CommandRow]
    ensures { map app_of_row result.now ≡ schedule_apps }
{
    RUNS
}

// Returns the table of the commands on all schedules and of those that convert images.
fn searches() -> &'static [CommandRow]
    ensures { map app_of_row result.now ≡ search_apps }
{
    SEARCHES
}

// Returns the parser of the command line.
pub(crate) fn parser<'a>(alloc: Global) -> Result<Parser<'a>, AllocError>
    ensures { IfOk result (λ parser. app_of parser ≡ pvsim_app) }
{
    let parser = with_commands(alloc, bare_parser(alloc)?, runs())?;
    with_commands(alloc, parser, searches())
}
