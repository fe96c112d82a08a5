//! Warnings about a source without errors: a pledge(2) that names a promise which does not exist, or an unveil(2) with
//! a byte that is not a permission, fails in every run.
ghost use Rattle.std.specs.Prelude.{◌≡◌, ◌+◌, ◌<◌, ◌^◌, flat_map, length, IfOk, OnOk};
ghost use Rattle.pv_model.specs.declared.limits.TheConstants.{LINES as MAXIMUM};
ghost use Rattle.pv_model.specs.Machine.{instruction_of};
ghost use Rattle.pv_source.specs.Reading.{numbered_lines};
ghost use Rattle.pv_source.specs.ReadBlocks.{parsed_block};
ghost use Rattle.pv_source.specs.Reporting.{ReportsLines};
ghost use Rattle.pv_source.specs.Warnings.{is_warned, lacks_keyword, lacks_permission, warned_in, warned_labelled, warned_line, warned_lines as warned_by_definition, warned_taken};
ghost use Rattle.pv_source.specs.ReadPrograms.{labelled_in};

use crate::blocks::{Block, Kind, next_block};
use crate::explaining;
use crate::faults::Faults;
use crate::judging::names_init;
use crate::lines::Lines;
use crate::programs::next_labelled;
use crate::words::push_words;
use pv_model::limits::LINES;
use pv_model::{Instruction, Perms, Text};
use pv_promises::read_promises;
use pv_script::instruction::instruction;
use pv_text::lines::split_line;
use std::alloc::{AllocError, Global};

// Returns whether a word of a promises argument is not a keyword.
fn lacks_keyword(promises: &Option<Text>) -> bool
    ensures { result ≡ lacks_keyword promises.now }
{
    match promises {
        Some(text) => read_promises(text.as_slice()).is_err(),
        None => false,
    }
}

// Returns whether a byte of a permissions argument is not a permission.
fn lacks_permission(permissions: &Option<Text>) -> bool
    ensures { result ≡ lacks_permission permissions.now }
{
    match permissions {
        Some(text) => Perms::read(text.as_slice()).is_none(),
        None => false,
    }
}

// Returns whether a line is a pledge(2) with a word that is not a keyword, or an unveil(2) with a byte that is not a
// permission.
fn is_warned(line: &[u8]) -> bool
    ensures { result ≡ is_warned (instruction_of MAXIMUM line.now) }
{
    match instruction(LINES as u16, line) {
        Ok(Instruction::Pledge(promises, execpromises)) => {
            lacks_keyword(&promises) || lacks_keyword(&execpromises)
        }
        Ok(Instruction::Unveil(_, permissions)) => lacks_permission(&permissions),
        _ => false,
    }
}

// Warns of a line if it is a pledge(2) with a word that is not a keyword, or an unveil(2) with a byte that is not a
// permission.
fn warn_line(
    alloc: Global,
    number: u32,
    line: &[u8],
    warnings: &mut Faults,
) -> Result<(), AllocError>
    ensures { OnOk result (ReportsLines warnings.old warnings.new (warned_line number line.now)) }
{
    if !is_warned(line) {
        return Ok(());
    }
    warnings.report(number, explaining::unknown_word(alloc, line)?)
}

// Warns of the lines of a program that ends with END.
fn warn_program(alloc: Global, body: Lines, warnings: &mut Faults) -> Result<(), AllocError>
    requires { body.number + length body.text.now < 2 ^ 31 }
    ensures { OnOk result (ReportsLines warnings.old warnings.new (flat_map warned_labelled (labelled_in body.entry))) }
{
    let mut text = Vec::new(alloc);
    let mut rest = body;
    while let Some((line, following)) = next_labelled(rest) {
        text.clear();
        push_words(line.words, &mut text)?;
        warn_line(alloc, line.number, &text, warnings)?;
        rest = following;
    }
    Ok(())
}

// Warns of the lines of a program whose lines are copied unchanged.
fn warn_taken(alloc: Global, body: Lines, warnings: &mut Faults) -> Result<(), AllocError>
    requires { body.number + length body.text.now < 2 ^ 31 }
    ensures { OnOk result (ReportsLines warnings.old warnings.new (flat_map warned_taken (numbered_lines body.entry))) }
{
    let mut rest = body;
    while let Some((line, following)) = split_line(rest.text) {
        warn_line(alloc, rest.number, line, warnings)?;
        rest = Lines {
            text: following,
            number: rest.number + 1,
        };
    }
    Ok(())
}

// Warns of the lines that belong to a block.
fn warn_block(alloc: Global, block: &Block, warnings: &mut Faults) -> Result<(), AllocError>
    requires { block.now.number + 1 + length block.now.body.now < 2 ^ 31 }
    ensures { OnOk result (ReportsLines warnings.old warnings.new (warned_in (parsed_block block.now))) }
{
    match block.kind {
        Kind::Program => warn_program(alloc, block.lines(), warnings),
        Kind::Taken => {
            if names_init(block.words) {
                warn_taken(alloc, block.lines(), warnings)
            } else {
                Ok(())
            }
        }
        Kind::Single | Kind::CutOff | Kind::Schedule => Ok(()),
    }
}

/// Returns the warnings about a source: the first twenty lines with a pledge(2) that names a promise which does not
/// exist, or with an unveil(2) with a byte that is not a permission.
///
/// # Errors
///
/// Returns `AllocError` if memory cannot be allocated.
pub fn warnings_of(alloc: Global, source: &[u8]) -> Result<Faults, AllocError>
    requires { length source.now + 1 < 2 ^ 31 }
    ensures { IfOk result (λ warnings. warnings ≡ warned_by_definition source.now) }
{
    let mut warnings = Faults::new(alloc);
    let mut rest = Lines {
        text: source,
        number: 1,
    };
    while let Some((block, following)) = next_block(rest) {
        warn_block(alloc, &block, &mut warnings)?;
        rest = following;
    }
    let _ = warnings.is_empty();
    Ok(warnings)
}
