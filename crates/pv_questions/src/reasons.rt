//! Verdicts with every reason.
ghost use Rattle.std.specs.Prelude.{◌≡◌, ◌∷◌, [], Some, option_map};
ghost use Rattle.pv_run.specs.OfAudit.Reasons.{present_reasons};
ghost use Rattle.pv_model.specs.Machine.{audit_node, process_at, root, resolve as resolved};
ghost use Rattle.pv_model.specs.declared.follow.Follow.TheVariants.{Last};
ghost use Rattle.pv_questions.specs.Reasons.{all_reasons, file_lines, node_audited, reason_lines, reasons_by, reasons_report, verdict_at, with_reasons};
ghost use Rattle.pv_streams.specs.Sinks.{FailsBy, Writes, WritesOr};

use pv_listing::{Remarks, write_lines};
use pv_model::limits::ROOT;
use pv_model::{AuditFault, Errno, Follow, Leak, Verdict, Why};
use pv_namei::{PlainLookup, resolve};
use pv_policy::calls_state::Parts;
use pv_run::audit::leaks;
use pv_run::session_crate::Session;
use pv_run::{write_found, write_verdict};
use pv_streams::{Failed, Sink, Stop};
use pv_tree::{PlaceRef, Tree};
use std::alloc::Global;

// Writes the line of a verdict, after the path of the file if there is one.
fn write_verdict_at<W: Sink>(
    out: &mut W,
    path: Option<&[u8]>,
    found: &Verdict,
) -> Result<(), Failed>
    ensures { Writes W.Sink (verdict_at (option_map (λ p. p.now) path.entry) found.now) out.old out.new result }
{
    match path {
        Some(path) => write_found(out, path, found),
        None => write_verdict(out, found),
    }
}

// Writes the line of a reason, if there is one.
fn write_why<W: Sink>(
    out: &mut W,
    path: Option<&[u8]>,
    pid: u32,
    why: Option<Why>,
) -> Result<(), Failed>
    ensures { Writes W.Sink (reason_lines (option_map (λ p. p.now) path.entry) pid (present_reasons (why ∷ []))) out.old out.new result }
{
    match why {
        Some(why) => write_verdict_at(out, path, &Verdict::Exposed(Leak { pid, why })),
        None => Ok(()),
    }
}

// Writes a line for each of the reasons that are present.
fn write_whys<W: Sink>(
    out: &mut W,
    path: Option<&[u8]>,
    pid: u32,
    whys: &[Option<Why>],
) -> Result<(), Failed>
    ensures { Writes W.Sink (reason_lines (option_map (λ p. p.now) path.entry) pid (present_reasons whys.now)) out.old out.new result }
{
    for why in whys {
        write_why(out, path, pid, *why)?;
    }
    Ok(())
}

// Writes a line for each reason why a process is not closed to a file, if the process is live.
fn write_reasons_of<W: Sink>(
    out: &mut W,
    parts: &Parts,
    path: Option<&[u8]>,
    pid: u32,
    node: u16,
) -> Result<(), Failed>
    ensures { Writes W.Sink (reasons_by (option_map (λ p. p.now) path.entry) parts.now node pid (process_at parts.now pid)) out.old out.new result }
{
    if parts.live_record(pid).is_none() {
        return Ok(());
    }
    let whys = leaks(parts, pid, node);
    write_whys(out, path, pid, &whys)
}

// Writes a line for each reason why some live process is not closed to a file.
fn write_all_reasons<W: Sink>(
    out: &mut W,
    parts: &Parts,
    path: Option<&[u8]>,
    node: u16,
) -> Result<(), Failed>
    ensures { Writes W.Sink (all_reasons (option_map (λ p. p.now) path.entry) parts.now node) out.old out.new result }
{
    // The contract of `invariant` states that the numbers ascend.
    parts.invariant();
    let mut last = 0;
    while let Some(pid) = parts.processes().next_number(last) {
        write_reasons_of(out, parts, path, pid, node)?;
        last = pid;
    }
    Ok(())
}

/// Writes the line of a verdict on a file, or a line for each reason of each process if the file is exposed. Each line
/// has the path of the file in front, if there is one.
///
/// # Errors
///
/// `Failed`, if a write failed. The sink received a prefix of the lines.
pub(crate) fn write_reasons<W: Sink>(
    out: &mut W,
    parts: &Parts,
    path: Option<&[u8]>,
    node: u16,
    found: &Verdict,
) -> Result<(), Failed>
    ensures { Writes W.Sink (with_reasons (option_map (λ p. p.now) path.entry) parts.now node found.now) out.old out.new result }
{
    match found {
        Verdict::Exposed(_) => write_all_reasons(out, parts, path, node),
        Verdict::Sealed | Verdict::Frozen => write_verdict_at(out, path, found),
    }
}

// The remarks of a report: for each file its path and its verdict, with every reason.
#[derive(Clone, Copy)]
struct ReasonLines<'a> {
    session: &'a Session,
}

impl<'a> Remarks for ReasonLines<'a> {
    ghost line = { λ s path n. file_lines s.session.now path n (audit_node s.session.now (Some n)) };

    fn write<W: Sink>(&self, out: &mut W, path: &[u8], node: u16) -> Result<(), Failed> {
        match self.session.audit_node(node) {
            Ok(found) => write_reasons(out, self.session.parts(), Some(path), node, &found),
            Err(_) => Ok(()),
        }
    }
}

/// Writes the verdicts on all files of a machine, in the order of a listing, with every reason.
///
/// # Errors
///
/// - `Write`, if a write failed. The sink received a prefix of the lines.
/// - `Memory`, if there is no memory for a path. The sink received a prefix of the lines.
pub(crate) fn write_reasons_report<W: Sink>(
    alloc: Global,
    session: &Session,
    out: &mut W,
) -> Result<(), Stop>
    ensures { WritesOr W.Sink FailsBy (reasons_report session.now) out.old out.new result }
{
    write_lines(alloc, session.parts().tree(), &ReasonLines { session }, out)
}

/// Returns the node at a path. The path is walked from the root; links are followed, and no unveil table applies.
///
/// # Errors
///
/// `Walk` with the error of the walk, or with `ENOENT` if nothing exists at the path.
pub(crate) fn audited_node(tree: &Tree, path: &[u8]) -> Result<u16, AuditFault>
    ensures { result ≡ node_audited (resolved tree.now.tree Last root path.now) }
{
    // The contract of `sizes` states that the tree is well-formed.
    let _ = tree.sizes();
    match resolve(tree, &mut PlainLookup, ROOT, path, Follow::Last) {
        Ok(place) => PlaceRef::of(&place)
            .node()
            .ok_or(AuditFault::Walk(Errno::ENOENT)),
        Err(errno) => Err(AuditFault::Walk(errno)),
    }
}
