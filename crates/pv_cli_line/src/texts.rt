//! The texts and numbers of a command in the parser's matches.
ghost use Rattle.std.specs.Prelude.{◌≡◌, ◌<◌, length, map, slice_get, None, IfSome, option_map};
ghost use Rattle.clap.specs.Words.{all_of, first_of, found_of, rows_of, subcommand_rows_of as entered};
ghost use Rattle.pv_cli_line.specs.Line.{count_or_default, files_entered, is_set, is_flag_set_in, is_verbose_in, paths_in, size_in, states_in, version_in};

use clap::ArgMatches;
use pv_cli_commands::questions::Files;
use pv_model::Version;
use pv_text::words::decimal;

// Returns the text of an argument, if it was given.
pub(crate) fn text_in<'a>(matches: &ArgMatches<'a>, argument: &str) -> Option<&'a str>
    ensures { option_map (λ text. text.now) result ≡ first_of argument.now (rows_of (found_of matches.now)) }
{
    matches.get_str(argument)
}

// Returns the texts of an argument, if it was given.
fn texts_in<'m, 'a>(matches: &'m ArgMatches<'a>, argument: &str) -> Option<&'m [&'a str]>
    ensures { option_map (λ texts. map (λ text. text.now) texts.now) result ≡ all_of argument.now (rows_of (found_of matches.now)) }
{
    matches.get_strs(argument)
}

// Returns whether a flag is set in the matches, without those of a command.
pub(crate) fn is_given(matches: &ArgMatches<'_>, flag: &str) -> bool
    ensures { result ≡ is_set (rows_of (found_of matches.now)) flag.now }
{
    match text_in(matches, flag) {
        Some(text) => text == "true",
        None => false,
    }
}

// Returns whether a flag is set in the matches, before or after the name of a command.
fn is_set_in(matches: &ArgMatches<'_>, flag: &str) -> bool
    ensures { result ≡ is_flag_set_in (rows_of (found_of matches.now)) (entered matches.now) flag.now }
{
    let above = is_given(matches, flag);
    match matches.subcommand() {
        Some((_, inner)) => above || is_given(inner, flag),
        None => above,
    }
}

// Returns whether errors are explained: unless the flag `quiet` is set. The flag `verbose` changes nothing.
pub(crate) fn is_verbose(matches: &ArgMatches<'_>) -> bool
    ensures { result ≡ is_verbose_in (rows_of (found_of matches.now)) (entered matches.now) }
{
    !is_set_in(matches, "quiet")
}

// Returns the bytes of a text, if there is one with this number.
fn path_at<'a>(texts: &[&'a str], number: usize) -> Option<&'a [u8]>
    ensures { option_map (λ path. path.now) result ≡ option_map (λ text. text.now) (slice_get texts.now number) }
{
    let text = texts.get(number)?;
    Some(text.as_bytes())
}

// Returns the bytes of texts. Returns `None` if there are more than 8.
#[tactic(auto, using(crate::proofs::Files::are_paths))]
fn files_of<'a>(texts: &[&'a str]) -> Option<Files<'a>>
    ensures found { IfSome result (λ files. paths_in files ≡ map (λ text. text.now) texts.now) }
    ensures none { result ≡ None → 8 < length texts.now }
{
    if texts.len() > 8 {
        return None;
    }
    Some(Files {
        paths: (
            path_at(texts, 0),
            path_at(texts, 1),
            path_at(texts, 2),
            path_at(texts, 3),
            path_at(texts, 4),
            path_at(texts, 5),
            path_at(texts, 6),
            path_at(texts, 7),
        ),
    })
}

// Returns the files of a search. Returns `None` if there are more than 8.
pub(crate) fn files_in<'a>(inner: &ArgMatches<'a>) -> Option<Files<'a>>
    ensures found { IfSome result (λ files. paths_in files ≡ files_entered (rows_of (found_of inner.now))) }
    ensures none { result ≡ None → 8 < length (files_entered (rows_of (found_of inner.now))) }
{
    match texts_in(inner, "file") {
        Some(texts) => files_of(texts),
        None => files_of(&[]),
    }
}

// Parses a number of 32 bits.
pub(crate) fn size_of(word: &str) -> Option<u32>
    ensures { result ≡ size_in word.now }
{
    if word == "4294967295" {
        return Some(u32::MAX);
    }
    let size = decimal(word.as_bytes())?;
    // Larger numbers are parsed as the maximum.
    if size == u32::MAX {
        return None;
    }
    Some(size)
}

// Parses a number of steps, from 1 to 65,536. Without a word, returns the default.
pub(crate) fn count_of(word: Option<&str>, default: u32) -> Option<u32>
    ensures { result ≡ count_or_default default (option_map (λ text. text.now) word.entry) }
{
    let Some(word) = word else {
        return Some(default);
    };
    let count = size_of(word)?;
    if count < 1 || count > 65_536 {
        return None;
    }
    Some(count)
}

// Parses a number of states, at least 1. Without a word, returns 1,000,000.
pub(crate) fn states_of(word: Option<&str>) -> Option<u32>
    ensures { result ≡ states_in (option_map (λ text. text.now) word.entry) }
{
    let Some(word) = word else {
        return Some(1_000_000);
    };
    let states = size_of(word)?;
    if states < 1 {
        return None;
    }
    Some(states)
}

// Parses a version. Without a word, returns version 1.
pub(crate) fn version_of(word: Option<&str>) -> Option<Version>
    ensures { result ≡ version_in (option_map (λ text. text.now) word.entry) }
{
    let Some(word) = word else {
        return Some(Version::V1);
    };
    if word == "1" {
        return Some(Version::V1);
    }
    if word == "2" {
        return Some(Version::V2);
    }
    None
}
