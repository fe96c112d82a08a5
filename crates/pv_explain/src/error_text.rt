//! The text of the reason of an error.
ghost use Rattle.std.specs.Prelude.{◌≡◌, ◌++◌, [], ◌∷◌, codes};
ghost use Rattle.std.specs.Fmt.{signed_decimal};
ghost use Rattle.pv_explain.specs.ErrorParts.{reason_in, words_of_kind};
ghost use Rattle.pv_explain.specs.Errors.{node_or_absence_text, failure_text, node_facts, plain_error, reason_text};
ghost use Rattle.pv_explain.specs.Made.{error_after};
ghost use Rattle.pv_laws_states.specs.States.{IsValid};
ghost use Rattle.pv_model.specs.Machine.{answer_bytes, answer_line, answer_line_bytes, call_of, process_at, mode_text, quote, node_at};
ghost use Rattle.pv_streams.specs.Sinks.{Writes};

use crate::errors::{ErrorReason, PathPrefix, reason_of};
use itoa::Buffer;
use pv_model::{CallRef, Cause, Errno, Kind, Mode, Outcome, Place};
use pv_step_lines::answers::{Line as AnswerLine, ModeLetters};
use pv_step_lines::calls_state::Parts;
use pv_streams::{Decimal, Failed, Fragment, Plain, Quoted, Sink, write_whole};
use pv_tree::Tree;

// A signed number in decimal digits.
#[derive(Clone, Copy)]
struct Signed<'a>(&'a i32);

impl<'a> Fragment for Signed<'a> {
    ghost use Rattle.std.specs.Fmt.{signed_decimal};

    ghost text = { λ p. signed_decimal p.0.now };

    fn write<W: Sink>(&self, out: &mut W) -> Result<(), Failed> {
        let mut buffer = Buffer::new();
        write_whole(out, buffer.format(*self.0).as_bytes())
    }
}

// Returns the words for a kind of node.
fn kind_words(kind: Kind) -> &'static [u8]
    ensures { result.now ≡ words_of_kind kind }
{
    match kind {
        Kind::Directory => b" is a directory",
        Kind::File => b" is a file",
        Kind::Executable => b" is an executable file",
        Kind::Symlink => b" is a link",
    }
}

// The kind of a node, its number and its size.
#[derive(Clone, Copy)]
struct NodeFacts<'a> {
    tree: &'a Tree,
    node: u16,
}

impl<'a> Fragment for NodeFacts<'a> {
    ghost use Rattle.pv_explain.specs.Errors.{node_facts};
    ghost use Rattle.pv_model.specs.Tree.{node_at};

    ghost text = { λ p. node_facts p.node (node_at p.tree.now.tree p.node) };

    fn write<W: Sink>(&self, out: &mut W) -> Result<(), Failed> {
        let number = Decimal(u32::from(self.node));
        if !self.tree.is_used(self.node) {
            return (Plain(b" is node "), number).write(out);
        }
        let kind = Plain(kind_words(self.tree.kind(self.node)));
        let size = Decimal(self.tree.size(self.node));
        (kind, Plain(b", node "), number, Plain(b", size "), size).write(out)
    }
}

// Returns the words for the error of a walk.
fn failure_words(errno: Errno) -> &'static [u8]
    ensures { result.now ≡ failure_text errno }
{
    match errno {
        Errno::ENOENT => b" does not exist",
        Errno::ENOTDIR => b" leads through a file",
        Errno::ELOOP => b" leads to a 33rd link",
        Errno::ENAMETOOLONG => b" is too long, or leads to a name or a path that is",
        _ => b" leads nowhere",
    }
}

// Writes the facts of a node at a place without a name.
fn write_unnamed<W: Sink>(out: &mut W, tree: &Tree, node: u16) -> Result<(), Failed>
    ensures { Writes W.Sink (node_facts node (node_at tree.now.tree node) ++ codes ", without a name") out.old out.new result }
{
    (NodeFacts { tree, node }, Plain(b", without a name")).write(out)
}

// Writes the facts of the node of an entry, or that it does not exist.
fn write_entry<W: Sink>(out: &mut W, tree: &Tree, node: Option<u16>) -> Result<(), Failed>
    ensures { Writes W.Sink (node_or_absence_text tree.now.tree node) out.old out.new result }
{
    match node {
        Some(node) => NodeFacts { tree, node }.write(out),
        None => write_whole(out, b" does not exist"),
    }
}

// The end of a walk.
#[derive(Clone, Copy)]
struct EndText<'a> {
    tree: &'a Tree,
    end: &'a Result<Place, Errno>,
}

impl<'a> Fragment for EndText<'a> {
    ghost use Rattle.pv_explain.specs.Errors.{end_text};

    ghost text = { λ p. end_text p.tree.now.tree p.end.now };

    fn write<W: Sink>(&self, out: &mut W) -> Result<(), Failed> {
        let tree = self.tree;
        match self.end {
            Ok(Place::Node(node)) => write_unnamed(out, tree, *node),
            Ok(
                Place::At {
                    node: Some(node),
                    ..
                },
            ) => NodeFacts { tree, node: *node }.write(out),
            Ok(Place::At { node, .. }) => write_entry(out, tree, *node),
            Err(errno) => write_whole(out, failure_words(*errno)),
        }
    }
}

// A prefix of a path, and the end of the walk along it.
#[derive(Clone, Copy)]
struct PrefixText<'a> {
    tree: &'a Tree,
    prefix: &'a PathPrefix<'a>,
}

impl<'a> Fragment for PrefixText<'a> {
    ghost use Rattle.pv_explain.specs.ErrorParts.{prefix_in};
    ghost use Rattle.pv_explain.specs.Errors.{prefix_text};

    ghost text = { λ p. prefix_text p.tree.now.tree (prefix_in p.prefix.now) };

    fn write<W: Sink>(&self, out: &mut W) -> Result<(), Failed> {
        let end = EndText {
            tree: self.tree,
            end: &self.prefix.end,
        };
        (Quoted(self.prefix.path), end).write(out)
    }
}

// Writes that a descriptor is not open.
fn write_no_descriptor<W: Sink>(out: &mut W, d: &i32) -> Result<(), Failed>
    ensures { Writes W.Sink (codes "no descriptor " ++ signed_decimal d.now) out.old out.new result }
{
    (Plain(b"no descriptor "), Signed(d)).write(out)
}

// Writes the node and the mode of a descriptor.
fn write_opened<W: Sink>(
    out: &mut W,
    tree: &Tree,
    d: &i32,
    node: u16,
    mode: Mode,
) -> Result<(), Failed>
    ensures { Writes W.Sink (codes "descriptor " ++ signed_decimal d.now ++ node_facts node (node_at tree.now.tree node) ++ codes ", open " ++ mode_text mode) out.old out.new result }
{
    let facts = NodeFacts { tree, node };
    let front = Plain(b"descriptor ");
    (
        front,
        Signed(d),
        facts,
        Plain(b", open "),
        ModeLetters(mode),
    )
        .write(out)
}

// Writes an unknown keyword.
fn write_keyword<W: Sink>(out: &mut W, word: &[u8]) -> Result<(), Failed>
    ensures { Writes W.Sink (codes "unknown keyword " ++ quote word.now) out.old out.new result }
{
    (Plain(b"unknown keyword "), Quoted(word)).write(out)
}

// Writes an unknown permission.
fn write_permission<W: Sink>(out: &mut W, byte: u8) -> Result<(), Failed>
    ensures { Writes W.Sink (codes "unknown permission " ++ quote (byte ∷ [])) out.old out.new result }
{
    (Plain(b"unknown permission "), Quoted(&[byte])).write(out)
}

// The text of the reason of an error.
#[derive(Clone, Copy)]
struct ReasonText<'a> {
    tree: &'a Tree,
    reason: &'a ErrorReason<'a>,
}

impl<'a> Fragment for ReasonText<'a> {
    ghost use Rattle.pv_explain.specs.ErrorParts.{reason_in};
    ghost use Rattle.pv_explain.specs.Errors.{reason_text};

    ghost text = { λ p. reason_text p.tree.now.tree (reason_in p.reason.now) };

    fn write<W: Sink>(&self, out: &mut W) -> Result<(), Failed> {
        let tree = self.tree;
        match self.reason {
            ErrorReason::NoDescriptor(d) => write_no_descriptor(out, d),
            ErrorReason::Opened(d, node, mode) => write_opened(out, tree, d, *node, *mode),
            ErrorReason::Keyword(word) => write_keyword(out, word),
            ErrorReason::Permission(byte) => write_permission(out, *byte),
            ErrorReason::OnePath(prefix) => PrefixText { tree, prefix }.write(out),
            ErrorReason::TwoPaths(first, second) => {
                let first = PrefixText {
                    tree,
                    prefix: first,
                };
                let second = PrefixText {
                    tree,
                    prefix: second,
                };
                (first, Plain(b"; "), second).write(out)
            }
            ErrorReason::Words(words) => write_whole(out, words),
        }
    }
}

// Writes the line of the reason of an error.
#[tactic(auto, unfolding(pv_model::specs::Trace::text_line))]
fn write_reason<W: Sink>(
    out: &mut W,
    pid: u32,
    tree: &Tree,
    reason: &ErrorReason<'_>,
) -> Result<(), Failed>
    ensures { Writes W.Sink (answer_line_bytes (answer_line pid (codes "WHY") (reason_text tree.now.tree (reason_in reason.now)))) out.old out.new result }
{
    let line = AnswerLine {
        pid,
        word: *b"WHY ",
        text: ReasonText { tree, reason },
    };
    line.write(out)
}

// Returns the error of a call that neither a promise nor a table refused.
fn plain_error(outcome: Outcome) -> Option<Errno>
    ensures { result ≡ plain_error outcome }
{
    match outcome {
        Outcome::Failed(errno, Cause::Plain) => Some(errno),
        _ => None,
    }
}

/// Writes the line of the reason why a call failed, in the state that it left, unless a promise or a table refused it.
///
/// # Errors
///
/// `Failed`, if a write failed. The sink received a prefix of the line.
pub(crate) fn write_error<W: Sink>(
    out: &mut W,
    parts: &Parts,
    pid: u32,
    call: CallRef<'_>,
    outcome: Outcome,
) -> Result<(), Failed>
    requires { IsValid parts.now }
    ensures { Writes W.Sink (answer_bytes (error_after pid parts.now (process_at parts.now pid) (call_of call.entry) outcome)) out.old out.new result }
{
    let Some(errno) = plain_error(outcome) else {
        return Ok(());
    };
    let Some(_) = parts.live_record(pid) else {
        return Ok(());
    };
    let reason = reason_of(parts, pid, call, errno);
    write_reason(out, pid, parts.tree(), &reason)
}
