//! The command in the matches of the parser.
ghost use Rattle.std.specs.Prelude.{◌≡◌, ◌≤◌, ◌++◌, [], codes, false, length, None, Some, true, IfErr, IfOk, option_map};
ghost use Rattle.std.specs.Option.{IsSomeAnd};
ghost use Rattle.clap.specs.Words.{first_of, found_of, rows_of, subcommand_rows_of as entered};
ghost use Rattle.pv_cli_line.specs.Line.{AreLast, FindsNamed, IsCommandIn, IsComparedIn, IsAboutFiles, IsGivenBy, IsGivenIn, IsNumberIn, IsReachIn, IsReadOnce, IsRunIn, IsScheduledBy, IsScheduledIn, IsSearchName, IsTracedBy, IsTracedIn, LacksCommand, Never, NeverBoth, NeverRun, errors_entered, is_digits, kind_in, input_file_name, list_of, size_in, words_entered};
ghost use Rattle.pv_cli_line.specs.Words.{IsAsking, asking_of_tree, number_or_lack, words_of};

use crate::texts::{count_of, files_in, is_given, size_of, states_of, text_in, version_of};
use clap::ArgMatches;
use pv_cli_commands::questions::{Question, SearchKind};
use pv_cli_commands::{Asking, Command, Import, InputFile, Output, ScheduleInput};

// Why matches have no command.
#[derive(Clone, Copy, PartialEq, Eq)]
pub(crate) enum NoCommand {
    // Words are missing, or there are too many.
    Words,
    // A numeric argument is not a number.
    Number,
    // There are more files than a question has.
    ManyFiles,
}

// The words of a command besides its options, in order.
#[derive(Clone, Copy)]
enum Words<'a> {
    // There is no word.
    Zero,
    // There is one.
    One(&'a str),
    // There are two.
    Two(&'a str, &'a str),
    // There are three.
    Three(&'a str, &'a str, &'a str),
}

// The input of a command, and the words after it.
#[derive(Clone, Copy)]
struct Given<'a> {
    input: InputFile<'a>,
    words: Words<'a>,
}

// The input of a question about a run, its schedule, and the word after them.
#[derive(Clone, Copy)]
pub(crate) struct Run<'a> {
    input: InputFile<'a>,
    schedule: ScheduleInput<'a>,
    pub(crate) further: Option<&'a str>,
}

// Returns a number, if there is one.
fn number(value: Option<u32>) -> Result<u32, NoCommand>
    ensures { result ≡ number_or_lack value }
{
    value.ok_or(NoCommand::Number)
}

// Returns the text of a required argument.
fn required<'a>(inner: &ArgMatches<'a>, argument: &str) -> Result<&'a str, NoCommand>
    ensures found { IfOk result (λ text. first_of argument.now (rows_of (found_of inner.now)) ≡ Some text.now) }
    ensures none { IfErr result (λ lack. (lack ≡ NoCommand.Words) × (first_of argument.now (rows_of (found_of inner.now)) ≡ None)) }
{
    text_in(inner, argument).ok_or(NoCommand::Words)
}

// Returns a word before others. There are at most two others.
fn before<'a>(first: Option<&'a str>, words: Words<'a>) -> Words<'a>
    requires { length (words_of words) ≤ 2 }
    ensures { words_of result ≡ list_of (option_map (λ word. word.now) first.entry) ++ words_of words.entry }
{
    match (first, words) {
        (Some(first), Words::Zero) => Words::One(first),
        (Some(first), Words::One(second)) => Words::Two(first, second),
        (Some(first), Words::Two(second, third)) => Words::Three(first, second, third),
        (Some(_), Words::Three(..)) | (None, _) => words,
    }
}

// Returns the words of a command beside its options. `last` is the name of the last.
fn words_in<'a>(inner: &ArgMatches<'a>, last: &str) -> Words<'a>
    ensures { words_of result ≡ words_entered (rows_of (found_of inner.now)) last.now }
{
    let third = before(text_in(inner, last), Words::Zero);
    let second = before(text_in(inner, "SCHEDULE"), third);
    before(text_in(inner, "FILE"), second)
}

// Returns the input of a command and the words after it, if no option names the input: the first word is the input.
fn given_first<'a>(words: Words<'a>) -> Result<Given<'a>, NoCommand>
    ensures found { IfOk result (λ given. IsGivenBy None None (words_of words.entry) given.input (words_of given.words)) }
    ensures none { IfErr result (λ lack. (lack ≡ NoCommand.Words) × NeverBoth (IsGivenBy None None (words_of words.entry))) }
{
    let (name, words) = match words {
        Words::Zero => return Err(NoCommand::Words),
        Words::One(name) => (name, Words::Zero),
        Words::Two(name, first) => (name, Words::One(first)),
        Words::Three(name, first, second) => (name, Words::Two(first, second)),
    };
    Ok(Given {
        input: InputFile::Any(name),
        words,
    })
}

// Returns the input of a command and the words after it: that of `--bundle` or `--source`, or the first word. `last` is
// the name of the last word.
fn given_in<'a>(inner: &ArgMatches<'a>, last: &str) -> Result<Given<'a>, NoCommand>
    ensures found { IfOk result (λ given. IsGivenIn (rows_of (found_of inner.now)) last.now given.input (words_of given.words)) }
    ensures none { IfErr result (λ lack. (lack ≡ NoCommand.Words) × NeverBoth (IsGivenIn (rows_of (found_of inner.now)) last.now)) }
{
    let words = words_in(inner, last);
    match (text_in(inner, "bundle"), text_in(inner, "source")) {
        (Some(_), Some(_)) => Err(NoCommand::Words),
        (Some(name), None) => Ok(Given {
            input: InputFile::Bundle(name),
            words,
        }),
        (None, Some(name)) => Ok(Given {
            input: InputFile::Any(name),
            words,
        }),
        (None, None) => given_first(words),
    }
}

// Returns the word after a schedule that takes no word, if these words are no more. `is_last` says whether the command
// takes a word after its schedule.
fn last_of<'a>(words: Words<'a>, is_last: bool) -> Result<Option<&'a str>, NoCommand>
    ensures found { IfOk result (λ further. AreLast is_last (words_of words.entry) (option_map (λ word. word.now) further)) }
    ensures none { IfErr result (λ lack. (lack ≡ NoCommand.Words) × Never (AreLast is_last (words_of words.entry))) }
{
    match words {
        Words::Zero => Ok(None),
        Words::One(word) if is_last => Ok(Some(word)),
        _ => Err(NoCommand::Words),
    }
}

// Returns the schedule of a question about a run and the word after it, if these words are they and no option gives the
// schedule.
fn schedule_first<'a>(
    words: Words<'a>,
    is_last: bool,
) -> Result<(ScheduleInput<'a>, Option<&'a str>), NoCommand>
    ensures found { IfOk result (λ p. IsScheduledBy None false is_last (words_of words.entry) p.0 (option_map (λ word. word.now) p.1)) }
    ensures none { IfErr result (λ lack. (lack ≡ NoCommand.Words) × NeverBoth (IsScheduledBy None false is_last (words_of words.entry))) }
{
    match words {
        Words::One(name) if !is_last => Ok((ScheduleInput::File(name), None)),
        Words::Two(name, word) if is_last => Ok((ScheduleInput::File(name), Some(word))),
        _ => Ok((ScheduleInput::Own, last_of(words, is_last)?)),
    }
}

// Returns the schedule of a question about a run and the word after it, if these words are they. `is_last` says whether
// the command takes a word after the schedule.
fn schedule_of<'a>(
    inner: &ArgMatches<'a>,
    words: Words<'a>,
    is_last: bool,
) -> Result<(ScheduleInput<'a>, Option<&'a str>), NoCommand>
    ensures found { IfOk result (λ p. IsScheduledIn (rows_of (found_of inner.now)) is_last (words_of words.entry) p.0 (option_map (λ word. word.now) p.1)) }
    ensures none { IfErr result (λ lack. (lack ≡ NoCommand.Words) × NeverBoth (IsScheduledIn (rows_of (found_of inner.now)) is_last (words_of words.entry))) }
{
    match (text_in(inner, "by"), is_given(inner, "turns")) {
        (Some(_), true) => Err(NoCommand::Words),
        (Some(turns), false) => Ok((ScheduleInput::Turns(turns), last_of(words, is_last)?)),
        (None, true) => Ok((ScheduleInput::Fair, last_of(words, is_last)?)),
        (None, false) => schedule_first(words, is_last),
    }
}

// Returns the name of the file of an input.
fn name_of(input: InputFile<'_>) -> &str
    ensures { result.now ≡ input_file_name input.entry }
{
    match input {
        InputFile::Any(name) | InputFile::Bundle(name) | InputFile::Source(name) => name,
    }
}

// Returns the input and the schedule of a question about a run, if they are not both the standard input.
fn run_of<'a>(
    input: InputFile<'a>,
    schedule: ScheduleInput<'a>,
    further: Option<&'a str>,
) -> Result<Run<'a>, NoCommand>
    ensures found { IfOk result (λ run. (run.input ≡ input.entry) × (run.schedule ≡ schedule.entry) × (run.further ≡ further.entry) × IsReadOnce input.entry schedule.entry) }
    ensures none { IfErr result (λ lack. (lack ≡ NoCommand.Words) × (IsReadOnce input.entry schedule.entry → ⊥)) }
{
    if name_of(input) == "-" && matches!(schedule, ScheduleInput::File("-")) {
        return Err(NoCommand::Words);
    }
    Ok(Run {
        input,
        schedule,
        further,
    })
}

// Returns the input and the schedule of a question about a run.
fn run_in<'a>(inner: &ArgMatches<'a>) -> Result<Run<'a>, NoCommand>
    ensures found { IfOk result (λ run. IsRunIn (rows_of (found_of inner.now)) (codes "PATH") false run.input run.schedule (option_map (λ word. word.now) run.further)) }
    ensures none { IfErr result (λ lack. (lack ≡ NoCommand.Words) × NeverRun (IsRunIn (rows_of (found_of inner.now)) (codes "PATH") false)) }
{
    let given = given_in(inner, "PATH")?;
    let (schedule, further) = schedule_of(inner, given.words, false)?;
    run_of(given.input, schedule, further)
}

// Returns the input and the schedule of a question about a run, and the word with the name `last` after them.
fn run_and_word_in<'a>(inner: &ArgMatches<'a>, last: &str) -> Result<Run<'a>, NoCommand>
    ensures found { IfOk result (λ run. IsRunIn (rows_of (found_of inner.now)) last.now true run.input run.schedule (option_map (λ word. word.now) run.further)) }
    ensures none { IfErr result (λ lack. (lack ≡ NoCommand.Words) × NeverRun (IsRunIn (rows_of (found_of inner.now)) last.now true)) }
{
    let given = given_in(inner, last)?;
    let (schedule, further) = schedule_of(inner, given.words, true)?;
    run_of(given.input, schedule, further)
}

// Returns whether a word has only digits.
fn is_digits(word: &str) -> bool
    ensures { result ≡ is_digits word.now }
{
    word.as_bytes().iter().all(|byte| byte.is_ascii_digit())
}

// Returns the input and the schedule of `reach`, and the word of the process. A single word after an input that may be
// an image is the schedule, unless it has only digits.
pub(crate) fn reached_in<'a>(inner: &ArgMatches<'a>) -> Result<Run<'a>, NoCommand>
    ensures found { IfOk result (λ run. IsReachIn (rows_of (found_of inner.now)) run.input run.schedule (option_map (λ word. word.now) run.further)) }
    ensures none { IfErr result (λ lack. (lack ≡ NoCommand.Words) × NeverRun (IsReachIn (rows_of (found_of inner.now)))) }
{
    let run = run_and_word_in(inner, "PID")?;
    match run {
        Run {
            input: InputFile::Any(_),
            schedule: ScheduleInput::Own,
            further: Some(word),
        } if !is_digits(word) => run_of(run.input, ScheduleInput::File(word), None),
        _ => Ok(run),
    }
}

// Returns the number of steps after which a schedule is cut.
fn steps_in(inner: &ArgMatches<'_>) -> Result<Option<u32>, NoCommand>
    ensures found { IfOk result (IsNumberIn (first_of (codes "steps") (rows_of (found_of inner.now)))) }
    ensures none { IfErr result (λ lack. (lack ≡ NoCommand.Number) × IsSomeAnd (first_of (codes "steps") (rows_of (found_of inner.now))) (λ word. size_in word ≡ None)) }
{
    match text_in(inner, "steps") {
        Some(word) => Ok(Some(number(size_of(word))?)),
        None => Ok(None),
    }
}

// Returns the command of a question about a run.
fn asked<'a>(
    inner: &ArgMatches<'a>,
    question: Question<'a>,
    run: Run<'a>,
) -> Result<Command<'a>, NoCommand>
    ensures found { IfOk result (IsAsking question.entry run.entry (first_of (codes "steps") (rows_of (found_of inner.now)))) }
    ensures none { IfErr result (λ lack. (lack ≡ NoCommand.Number) × IsSomeAnd (first_of (codes "steps") (rows_of (found_of inner.now))) (λ word. size_in word ≡ None)) }
{
    let Run {
        input,
        schedule,
        ..
    } = run;
    let steps = steps_in(inner)?;
    Ok(Command::Ask(Asking {
        question,
        input,
        schedule,
        steps,
    }))
}

// Returns the input of `run-tree`.
fn traced_input<'a>(inner: &ArgMatches<'a>) -> Result<InputFile<'a>, NoCommand>
    ensures found { IfOk result (IsTracedIn (rows_of (found_of inner.now))) }
    ensures none { IfErr result (λ lack. (lack ≡ NoCommand.Words) × Never (IsTracedIn (rows_of (found_of inner.now)))) }
{
    let file = required(inner, "FILE")?;
    if is_given(inner, "source") {
        return Ok(InputFile::Source(file));
    }
    Ok(InputFile::Bundle(file))
}

// Returns the schedule of `run-tree`.
fn traced_schedule<'a>(inner: &ArgMatches<'a>) -> ScheduleInput<'a>
    ensures { IsTracedBy (first_of (codes "by") (rows_of (found_of inner.now))) result }
{
    match text_in(inner, "by") {
        Some(turns) => ScheduleInput::Turns(turns),
        None => ScheduleInput::Own,
    }
}

// Returns the `run-tree` command.
fn traced_in<'a>(inner: &ArgMatches<'a>) -> Result<Command<'a>, NoCommand>
    ensures { FindsNamed (codes "run-tree") (rows_of (found_of inner.now)) result }
{
    let run = Run {
        input: traced_input(inner)?,
        schedule: traced_schedule(inner),
        further: None,
    };
    asked(inner, Question::Trace, run)
}

// Returns the `reach` command.
fn reach_in<'a>(inner: &ArgMatches<'a>) -> Result<Command<'a>, NoCommand>
    ensures { FindsNamed (codes "reach") (rows_of (found_of inner.now)) result }
{
    let run = reached_in(inner)?;
    let pid = match run.further {
        Some(word) => Some(number(size_of(word))?),
        None => None,
    };
    asked(inner, Question::Reach(pid), run)
}

// Returns the `audit` command.
fn audit_in<'a>(inner: &ArgMatches<'a>) -> Result<Command<'a>, NoCommand>
    ensures { FindsNamed (codes "audit") (rows_of (found_of inner.now)) result }
{
    let run = run_and_word_in(inner, "PATH")?;
    if is_given(inner, "reasons") {
        return asked(inner, Question::Reasons(run.further), run);
    }
    asked(inner, Question::Audit(run.further), run)
}

// Returns whether `explain` writes the reasons of errors and the lines of execve(2): unless `brief` is given without
// `errors`.
fn has_reasons(inner: &ArgMatches<'_>) -> bool
    ensures { result ≡ errors_entered (rows_of (found_of inner.now)) }
{
    is_given(inner, "errors") || !is_given(inner, "brief")
}

// Returns the `explain` command.
fn explain_in<'a>(inner: &ArgMatches<'a>) -> Result<Command<'a>, NoCommand>
    ensures { FindsNamed (codes "explain") (rows_of (found_of inner.now)) result }
{
    let run = run_in(inner)?;
    let question = Question::Explain {
        errors: has_reasons(inner),
        allowed: is_given(inner, "allowed"),
    };
    asked(inner, question, run)
}

// Returns the `state` command.
fn state_in<'a>(inner: &ArgMatches<'a>) -> Result<Command<'a>, NoCommand>
    ensures { FindsNamed (codes "state") (rows_of (found_of inner.now)) result }
{
    let run = run_in(inner)?;
    asked(inner, Question::State, run)
}

// Returns the `needs` command.
fn needs_in<'a>(inner: &ArgMatches<'a>) -> Result<Command<'a>, NoCommand>
    ensures { FindsNamed (codes "needs") (rows_of (found_of inner.now)) result }
{
    let run = run_in(inner)?;
    let granted = is_given(inner, "granted");
    asked(inner, Question::Needs { granted }, run)
}

// Returns the command of a question about a tree.
fn asked_of_tree<'a>(question: Question<'a>, input: InputFile<'a>) -> Command<'a>
    ensures { result ≡ asking_of_tree question.entry input.entry }
{
    Command::Ask(Asking {
        question,
        input,
        schedule: ScheduleInput::Own,
        steps: None,
    })
}

// Returns the input of a command that takes no further word.
fn tree_in<'a>(inner: &ArgMatches<'a>) -> Result<InputFile<'a>, NoCommand>
    ensures found { IfOk result (λ file. IsGivenIn (rows_of (found_of inner.now)) (codes "PATH") file []) }
    ensures none { IfErr result (λ lack. (lack ≡ NoCommand.Words) × Never (λ file. IsGivenIn (rows_of (found_of inner.now)) (codes "PATH") file [])) }
{
    match given_in(inner, "PATH")? {
        Given {
            input,
            words: Words::Zero,
        } => Ok(input),
        _ => Err(NoCommand::Words),
    }
}

// Returns the `ls` command.
fn listing_in<'a>(inner: &ArgMatches<'a>) -> Result<Command<'a>, NoCommand>
    ensures { FindsNamed (codes "ls") (rows_of (found_of inner.now)) result }
{
    let input = tree_in(inner)?;
    Ok(asked_of_tree(Question::Listing, input))
}

// Returns the `cat` command.
fn cat_in<'a>(inner: &ArgMatches<'a>) -> Result<Command<'a>, NoCommand>
    ensures { FindsNamed (codes "cat") (rows_of (found_of inner.now)) result }
{
    match given_in(inner, "PATH")? {
        Given {
            input,
            words: Words::One(path),
        } => Ok(asked_of_tree(Question::File(path), input)),
        _ => Err(NoCommand::Words),
    }
}

// Returns the `turns` command.
fn turns_in<'a>(inner: &ArgMatches<'a>) -> Result<Command<'a>, NoCommand>
    ensures { FindsNamed (codes "turns") (rows_of (found_of inner.now)) result }
{
    let input = tree_in(inner)?;
    let slice = number(count_of(text_in(inner, "slice"), 1))?;
    let steps = number(count_of(text_in(inner, "steps"), 1_000))?;
    Ok(asked_of_tree(Question::Turns { slice, steps }, input))
}

// Returns the kind of a search, which the flag `reduced` chooses.
fn kind_in(inner: &ArgMatches<'_>) -> SearchKind
    ensures { result ≡ kind_in (rows_of (found_of inner.now)) }
{
    if is_given(inner, "reduced") {
        SearchKind::Reduced
    } else {
        SearchKind::Full
    }
}

// Returns the command of a search that may be about given files.
fn about_files_in<'a>(inner: &ArgMatches<'a>, name: &str) -> Result<Command<'a>, NoCommand>
    requires { IsAboutFiles name.now }
    ensures { FindsNamed name.now (rows_of (found_of inner.now)) result }
{
    let input = tree_in(inner)?;
    let files = files_in(inner).ok_or(NoCommand::ManyFiles)?;
    let states = number(states_of(text_in(inner, "states")))?;
    let kind = kind_in(inner);
    if name == "access" {
        let question = Question::Access {
            kind,
            files,
            states,
        };
        return Ok(asked_of_tree(question, input));
    }
    let question = Question::Exposure {
        kind,
        files,
        states,
    };
    Ok(asked_of_tree(question, input))
}

// Returns the command of another search.
fn search_in<'a>(inner: &ArgMatches<'a>, name: &str) -> Result<Command<'a>, NoCommand>
    requires { IsSearchName name.now }
    ensures { FindsNamed name.now (rows_of (found_of inner.now)) result }
{
    let input = tree_in(inner)?;
    let states = number(states_of(text_in(inner, "states")))?;
    let kind = kind_in(inner);
    if name == "policy" {
        let granted = is_given(inner, "granted");
        let question = Question::Policy {
            kind,
            granted,
            states,
        };
        return Ok(asked_of_tree(question, input));
    }
    if name == "graph" {
        let tree = is_given(inner, "tree");
        return Ok(asked_of_tree(Question::Graph { tree, states }, input));
    }
    Ok(asked_of_tree(Question::Explore { kind, states }, input))
}

// Returns the two inputs of `compare`: two words, or a bundle and a word.
fn compared_in<'a>(inner: &ArgMatches<'a>) -> Result<(InputFile<'a>, InputFile<'a>), NoCommand>
    ensures found { IfOk result (λ p. IsComparedIn (rows_of (found_of inner.now)) p.0 p.1) }
    ensures none { IfErr result (λ lack. (lack ≡ NoCommand.Words) × NeverBoth (IsComparedIn (rows_of (found_of inner.now)))) }
{
    let file = required(inner, "FILE")?;
    match (text_in(inner, "bundle"), text_in(inner, "OTHER")) {
        (Some("-"), None) if file == "-" => Err(NoCommand::Words),
        (Some(bundle), None) => Ok((InputFile::Bundle(bundle), InputFile::Bundle(file))),
        (None, Some("-")) if file == "-" => Err(NoCommand::Words),
        (None, Some(other)) => Ok((InputFile::Any(file), InputFile::Any(other))),
        _ => Err(NoCommand::Words),
    }
}

// Returns the `compare` command.
fn compare_in<'a>(inner: &ArgMatches<'a>) -> Result<Command<'a>, NoCommand>
    ensures { FindsNamed (codes "compare") (rows_of (found_of inner.now)) result }
{
    let (first, second) = compared_in(inner)?;
    let pairs = number(states_of(text_in(inner, "states")))?;
    Ok(Command::Compare {
        first,
        second,
        pairs,
    })
}

// Returns the `source` command.
fn source_in<'a>(inner: &ArgMatches<'a>) -> Result<Command<'a>, NoCommand>
    ensures { FindsNamed (codes "source") (rows_of (found_of inner.now)) result }
{
    let kind = if is_given(inner, "lines") {
        Output::ProgramLines
    } else {
        Output::Translation
    };
    let source = required(inner, "FILE")?;
    Ok(Command::WriteSource { source, kind })
}

// Returns the `mkimg` command.
fn make_image_in<'a>(inner: &ArgMatches<'a>) -> Result<Command<'a>, NoCommand>
    ensures { FindsNamed (codes "mkimg") (rows_of (found_of inner.now)) result }
{
    let manifest = required(inner, "MANIFEST")?;
    let image = required(inner, "IMAGE")?;
    Ok(Command::MakeImage { manifest, image })
}

// Returns the `run` command.
fn run_image_in<'a>(inner: &ArgMatches<'a>) -> Result<Command<'a>, NoCommand>
    ensures { FindsNamed (codes "run") (rows_of (found_of inner.now)) result }
{
    let image = required(inner, "IMAGE")?;
    let schedule = required(inner, "SCHEDULE")?;
    let out = required(inner, "OUT")?;
    Ok(Command::RunImage {
        image,
        schedule,
        out,
    })
}

// Returns the `migrate` command.
fn migrate_in<'a>(inner: &ArgMatches<'a>) -> Result<Command<'a>, NoCommand>
    ensures { FindsNamed (codes "migrate") (rows_of (found_of inner.now)) result }
{
    let image = required(inner, "IMAGE")?;
    let out = required(inner, "OUT")?;
    let blocks = number(size_of(required(inner, "BLOCKS")?))?;
    let inodes = number(size_of(required(inner, "INODES")?))?;
    Ok(Command::MigrateImage {
        image,
        out,
        blocks,
        inodes,
    })
}

// Returns the `import` command.
fn import_in<'a>(inner: &ArgMatches<'a>) -> Result<Command<'a>, NoCommand>
    ensures { FindsNamed (codes "import") (rows_of (found_of inner.now)) result }
{
    let directory = required(inner, "DIR")?;
    let image = required(inner, "IMAGE")?;
    let version = version_of(text_in(inner, "image-version")).ok_or(NoCommand::Number)?;
    Ok(Command::ImportDirectory(Import {
        directory,
        image,
        version,
        skips: is_given(inner, "skip"),
        source: text_in(inner, "with"),
    }))
}

// Returns the `export` command.
fn export_in<'a>(inner: &ArgMatches<'a>) -> Result<Command<'a>, NoCommand>
    ensures { FindsNamed (codes "export") (rows_of (found_of inner.now)) result }
{
    let input = InputFile::Any(required(inner, "FILE")?);
    let directory = required(inner, "DIR")?;
    Ok(Command::ExportImage { input, directory })
}

// Returns the command with a name in its matches.
fn named_in<'a>(name: &str, inner: &ArgMatches<'a>) -> Result<Command<'a>, NoCommand>
    ensures { FindsNamed name.now (rows_of (found_of inner.now)) result }
{
    match name {
        "run-tree" => traced_in(inner),
        "source" => source_in(inner),
        "mkimg" => make_image_in(inner),
        "ls" => listing_in(inner),
        "run" => run_image_in(inner),
        "audit" => audit_in(inner),
        "state" => state_in(inner),
        "reach" => reach_in(inner),
        "explain" => explain_in(inner),
        "needs" => needs_in(inner),
        "cat" => cat_in(inner),
        "turns" => turns_in(inner),
        "compare" => compare_in(inner),
        "migrate" => migrate_in(inner),
        "import" => import_in(inner),
        "export" => export_in(inner),
        "access" | "exposure" => about_files_in(inner, name),
        "explore" | "policy" | "graph" => search_in(inner, name),
        _ => Err(NoCommand::Words),
    }
}

// Returns the command in the matches.
pub(crate) fn found_in<'a>(matches: &ArgMatches<'a>) -> Result<Command<'a>, NoCommand>
    ensures found { IfOk result (IsCommandIn (entered matches.now)) }
    ensures none { IfErr result (LacksCommand (entered matches.now)) }
{
    let Some((name, inner)) = matches.subcommand() else {
        return Err(NoCommand::Words);
    };
    named_in(name, inner)
}
