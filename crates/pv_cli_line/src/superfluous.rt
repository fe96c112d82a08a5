//! The superfluous word of a command line whose matches have no command.
use crate::texts::is_given;
use clap::ArgMatches;

// A word that a command does not take.
#[derive(Clone, Copy)]
pub(crate) struct Superfluous<'a> {
    pub(crate) command: &'a str,
    pub(crate) word: &'a str,
}

// Returns whether a command takes a schedule.
fn takes_schedule(command: &str) -> bool {
    command == "audit"
        || command == "state"
        || command == "reach"
        || command == "explain"
        || command == "needs"
}

// Returns whether a command takes a word after its input.
fn takes_further(command: &str) -> bool {
    command == "audit" || command == "reach" || command == "cat"
}

// Returns the maximum number of words of a command without its options. An option with the input takes the place of the
// first word, and turns that of the schedule.
fn most_words(command: &str, has_input: bool, has_turns: bool) -> usize {
    if command == "compare" {
        return if has_input { 1 } else { 2 };
    }
    let file = usize::from(!has_input);
    let schedule = usize::from(takes_schedule(command) && !has_turns);
    let further = usize::from(takes_further(command));
    file.saturating_add(schedule).saturating_add(further)
}

// Returns the last word of the command in the matches, if the command takes all words before it and not that one.
pub(crate) fn superfluous_in<'a>(matches: &ArgMatches<'a>) -> Option<Superfluous<'a>> {
    let (command, inner) = matches.subcommand()?;
    let bundle = inner.get_str("bundle");
    let source = inner.get_str("source");
    if bundle.is_some() && source.is_some() {
        return None;
    }
    let file = inner.get_str("FILE");
    let path = inner.get_str("PATH").or(inner.get_str("OTHER"));
    let words = match inner.get_str("SCHEDULE") {
        Some(schedule) => [file, Some(schedule), path.or(inner.get_str("PID"))],
        None => [file, path, None],
    };
    let has_input = bundle.is_some() || source.is_some();
    let has_turns = inner.get_str("by").is_some() || is_given(inner, "turns");
    let most = most_words(command, has_input, has_turns);
    let (first, further) = words.get(most..)?.split_first()?;
    if further.iter().any(|word| word.is_some()) {
        return None;
    }
    let word = (*first)?;
    Some(Superfluous { command, word })
}
