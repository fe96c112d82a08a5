//! Checking a whole source.
ghost use Rattle.std.specs.Prelude.{◌≡◌, ◌+◌, ◌<◌, ◌^◌, suc, length, take, IfOk, IfErr, OnOk};
ghost use Rattle.pv_model.specs.Machine.{lines_of, blocks_of, errors_of_blocks, reported_if};
ghost use Rattle.pv_model.specs.Source.Judged.{REPORTED, errors_in};
ghost use Rattle.pv_source.specs.LineCheck.{is_line_reported};
ghost use Rattle.pv_source.specs.ReadBlocks.{parsed_block};
ghost use Rattle.pv_source.specs.Reporting.{ReportsLines};

use crate::blocks::{Block, next_block};
use crate::explaining;
use crate::faults::Faults;
use crate::judging::report_lines;
use crate::lines::{Lines, line_count};
use crate::so_far::{LineCheck, TreeSoFar, judged_block, judged_first};
use pv_model::ManifestFault;
use std::alloc::{AllocError, Global};

// Returns whether the result of a check is reported.
fn is_reported(found: LineCheck) -> bool
    ensures { result ≡ is_line_reported found }
{
    !matches!(found, LineCheck::Right | LineCheck::RoomAgain)
}

// Reports the result of checking the line of a block if it is an error, and then the errors of the lines that belong to
// the block.
#[tactic(auto, using(crate::proofs::ReportedLines::reports_when_full))]
fn report_found(
    alloc: Global,
    block: &Block,
    is_first: bool,
    found: LineCheck,
    faults: &mut Faults,
) -> Result<(), AllocError>
    requires { block.now.number + 1 + length block.now.body.now < 2 ^ 31 }
    ensures { OnOk result (ReportsLines faults.old faults.new (reported_if (is_line_reported found) block.now.number (errors_in (parsed_block block.now)))) }
{
    if faults.is_full() {
        return Ok(());
    }
    if !is_reported(found) {
        return report_lines(alloc, block, faults);
    }
    faults.report(
        block.number,
        explaining::line(alloc, block, is_first, found)?,
    )?;
    report_lines(alloc, block, faults)?;
    Ok(())
}

/// Returns the reported errors of a source: the first twenty, in the order of their lines.
///
/// # Errors
///
/// Returns `Memory` if memory cannot be allocated, and no other error.
pub fn faults_of(alloc: Global, source: &[u8]) -> Result<Faults, ManifestFault>
    requires { length source.now + 1 < 2 ^ 31 }
    ensures reported { IfOk result (λ faults. faults ≡ take REPORTED (errors_of_blocks (suc (length (lines_of source.now))) (blocks_of source.now))) }
    ensures fault { IfErr result (λ fault. fault ≡ ManifestFault.Memory) }
{
    let mut faults = Faults::new(alloc);
    let lines = Lines {
        text: source,
        number: 1,
    };
    let Some((first, following)) = next_block(lines) else {
        faults.report(line_count(source) + 1, explaining::no_image(alloc)?)?;
        let _ = faults.is_empty();
        return Ok(faults);
    };
    let (mut so_far, found) = judged_first(alloc, &first)?;
    report_found(alloc, &first, true, found, &mut faults)?;
    let mut rest = following;
    while let Some((block, following)) = next_block(rest) {
        let (next, found) = judged_block(alloc, so_far, &block)?;
        report_found(alloc, &block, false, found, &mut faults)?;
        so_far = next;
        rest = following;
    }
    let _ = faults.is_empty();
    Ok(faults)
}
