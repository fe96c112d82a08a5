//! Checking the lines that belong to blocks: programs and schedules.
ghost use Rattle.std.specs.Prelude.{◌≡◌, ◌+◌, ◌<◌, ◌^◌, ◌||◌, [], length, map, IfOk, OnOk, Some};
ghost use Rattle.pv_model.specs.Source.Judged.{is_init, second_text, errors_in, invalid_turns, invalid_turn};
ghost use Rattle.pv_model.specs.Machine.{reported_if, program_errors};
ghost use Rattle.pv_model.specs.Source.Programs.{is_set_in, and_label, is_invalid};
ghost use Rattle.pv_source.specs.Reading.{words_in, worded_in};
ghost use Rattle.pv_source.specs.ReadBlocks.{parsed_block};
ghost use Rattle.pv_source.specs.ReadPrograms.{borrowed_bytes, name_value, instruction_with, program_lines_in, taken_in};
ghost use Rattle.pv_source.specs.Reporting.{ReportsLines};

use crate::blocks::{Block, Kind};
use crate::entries::second_text;
use crate::explaining;
use crate::faults::Faults;
use crate::lines::{Line, Lines, line_count, next_line};
use crate::programs::{
    Label, Labelled, instruction_count, labels_of, next_labelled, push_instruction,
};
use crate::words::{has_no_word, push_words};
use pv_model::limits::{LINES, SCHEDULE_LINES};
use pv_script::instruction::instruction;
use pv_script::schedule::turn;
use pv_text::lines::split_line;
use std::alloc::{AllocError, Global};

// Returns whether an instruction is invalid, or exceeds the maximum number. `count` is the number of instructions of
// the program, and `before` the number of those that precede it.
fn is_invalid(count: u32, before: u32, text: &[u8]) -> bool
    ensures { result ≡ is_invalid count before (Some text.now) }
{
    before == LINES as u32 || instruction(count.min(LINES as u32) as u16, text).is_err()
}

// Returns whether a label is in a list of names.
fn is_set(label: Option<&[u8]>, names: &[&[u8]]) -> bool
    ensures { result ≡ is_set_in (name_value label.entry) (map borrowed_bytes names.now) }
{
    let Some(own) = label else {
        return false;
    };
    for name in names {
        if own == *name {
            return true;
        }
    }
    false
}

// Returns whether a line of a program has an instruction that is invalid or exceeds the maximum number. `before` is the
// number of instructions that precede it.
#[tactic(auto, using(crate::proofs::SourcePrograms::instruction_some))]
fn has_invalid(
    labels: &[Label],
    count: u32,
    before: u32,
    line: &Labelled,
    text: &mut Vec<u8>,
) -> Result<bool, AllocError>
    ensures { IfOk result (λ invalid. invalid ≡ is_invalid count before (instruction_with labels.now line.now)) }
{
    if has_no_word(line.words) {
        return Ok(false);
    }
    text.clear();
    push_instruction(labels, line.words, text)?;
    Ok(is_invalid(count, before, text))
}

// A program whose lines are being checked: its labels and its number of instructions.
#[derive(Drop)]
struct Judged<'a> {
    labels: Vec<Label<'a>>,
    count: u32,
}

// Reports a line of a program if it has an error. `names` has the labels that previous lines set, and `before` is the
// number of previous instructions.
#[tactic(auto, using(crate::proofs::ReportedLines::reports_when_full))]
fn report_line(
    alloc: Global,
    program: &Judged,
    names: &[&[u8]],
    before: u32,
    line: &Labelled,
    text: &mut Vec<u8>,
    faults: &mut Faults,
) -> Result<(), AllocError>
    ensures { OnOk result (ReportsLines faults.old faults.new (reported_if (is_set_in (name_value line.now.label) (map borrowed_bytes names.now) || is_invalid program.now.count before (instruction_with program.now.labels.items line.now)) line.now.number [])) }
{
    if faults.is_full() {
        return Ok(());
    }
    let invalid = has_invalid(&program.labels, program.count, before, line, text)?;
    if is_set(line.label, names) {
        return faults.report(line.number, explaining::second_label(alloc, line.label)?);
    }
    if invalid {
        let what = explaining::instruction(alloc, program.count, before, &program.labels, text)?;
        return faults.report(line.number, what);
    }
    Ok(())
}

// Appends the label that a line sets, if it sets one.
fn push_name<'a>(names: &mut Vec<&'a [u8]>, label: Option<&'a [u8]>) -> Result<(), AllocError>
    ensures { OnOk result (map borrowed_bytes names.new.items ≡ and_label (name_value label.entry) (map borrowed_bytes names.old.items)) }
{
    if let Some(name) = label {
        names.push(name)?;
    }
    Ok(())
}

// Reports the lines with errors of a program that ends with END.
fn report_program(alloc: Global, body: Lines, faults: &mut Faults) -> Result<(), AllocError>
    requires { body.number + length body.text.now < 2 ^ 31 }
    ensures { OnOk result (ReportsLines faults.old faults.new (program_errors (program_lines_in body.entry))) }
{
    let (labels, count) = labels_of(alloc, body)?;
    let program = Judged { labels, count };
    let mut names = Vec::new(alloc);
    let mut text = Vec::new(alloc);
    let mut before: u32 = 0;
    let mut rest = body;
    while let Some((line, following)) = next_labelled(rest) {
        report_line(alloc, &program, &names, before, &line, &mut text, faults)?;
        push_name(&mut names, line.label)?;
        before += instruction_count(line.words);
        rest = following;
    }
    Ok(())
}

// Reports a line that is copied unchanged if it is not an instruction. `before` is the number of previous lines.
#[tactic(auto, using(crate::proofs::ReportedLines::reports_when_full))]
fn report_taken_line(
    alloc: Global,
    count: u32,
    before: u32,
    number: u32,
    line: &[u8],
    faults: &mut Faults,
) -> Result<(), AllocError>
    ensures { OnOk result (ReportsLines faults.old faults.new (reported_if (is_invalid count before (Some line.now)) number [])) }
{
    if faults.is_full() {
        return Ok(());
    }
    if is_invalid(count, before, line) {
        let what = explaining::taken_instruction(alloc, count, before, line)?;
        return faults.report(number, what);
    }
    Ok(())
}

// Reports the lines with errors of a program whose lines are copied unchanged.
fn report_taken(alloc: Global, body: Lines, faults: &mut Faults) -> Result<(), AllocError>
    requires { body.number + length body.text.now < 2 ^ 31 }
    ensures { OnOk result (ReportsLines faults.old faults.new (program_errors (taken_in body.entry))) }
{
    let count = line_count(body.text);
    let mut before: u32 = 0;
    let mut rest = body.text;
    while let Some((line, following)) = split_line(rest) {
        report_taken_line(alloc, count, before, body.number + before, line, faults)?;
        before += 1;
        rest = following;
    }
    Ok(())
}

// Reports a line of a schedule if it is not a turn, or exceeds the maximum number. `before` is the number of previous
// turns.
#[tactic(auto, using(crate::proofs::ReportedLines::reports_when_full))]
fn report_turn(
    alloc: Global,
    before: u32,
    line: Line,
    text: &mut Vec<u8>,
    faults: &mut Faults,
) -> Result<(), AllocError>
    ensures { OnOk result (ReportsLines faults.old faults.new (reported_if (invalid_turn before (words_in line.entry.words.now)) line.entry.number [])) }
{
    if faults.is_full() {
        return Ok(());
    }
    text.clear();
    push_words(line.words, text)?;
    if before == SCHEDULE_LINES as u32 || turn(text).is_none() {
        return faults.report(line.number, explaining::turn(alloc, before, text)?);
    }
    Ok(())
}

// Reports the lines with errors of a schedule.
fn report_turns(alloc: Global, lines: Lines, faults: &mut Faults) -> Result<(), AllocError>
    requires { lines.number + length lines.text.now < 2 ^ 31 }
    ensures { OnOk result (ReportsLines faults.old faults.new (invalid_turns 0 (worded_in lines.entry))) }
{
    let mut text = Vec::new(alloc);
    let mut before: u32 = 0;
    let mut rest = lines;
    while let Some((line, following)) = next_line(rest) {
        report_turn(alloc, before, line, &mut text, faults)?;
        before += 1;
        rest = following;
    }
    Ok(())
}

/// Returns whether the second word of a line is the text `/init`.
pub fn names_init(words: &[u8]) -> bool
    ensures { result ≡ is_init (second_text (words_in words.now)) }
{
    let Some(path) = second_text(words) else {
        return false;
    };
    path.as_slice() == b"/init".as_slice()
}

/// Reports the lines with errors that belong to a block.
///
/// # Errors
///
/// Returns `AllocError` if memory cannot be allocated.
pub fn report_lines(alloc: Global, block: &Block, faults: &mut Faults) -> Result<(), AllocError>
    requires { block.now.number + 1 + length block.now.body.now < 2 ^ 31 }
    ensures { OnOk result (ReportsLines faults.old faults.new (errors_in (parsed_block block.now))) }
{
    match block.kind {
        Kind::Program => report_program(alloc, block.lines(), faults),
        Kind::Schedule => report_turns(alloc, block.lines(), faults),
        Kind::Taken => {
            if names_init(block.words) {
                report_taken(alloc, block.lines(), faults)
            } else {
                Ok(())
            }
        }
        Kind::Single | Kind::CutOff => Ok(()),
    }
}
