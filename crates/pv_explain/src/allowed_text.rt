//! The lines of walks that were allowed.
ghost use Rattle.std.specs.Prelude.{◌≡◌, [], map, if◌then◌else◌, option_map, option_to_list};
ghost use Rattle.pv_explain.specs.Added.{allowed_in, first_allowed, allowed_line_of, allowed_pair_in};
ghost use Rattle.pv_model.specs.Machine.{answer_bytes, answer_line_bytes};
ghost use Rattle.pv_model_questions.specs.ExplainMore.{sort_text};
ghost use Rattle.pv_step_lines.specs.Origin.{settings_in};
ghost use Rattle.pv_streams.specs.Sinks.{Writes};

use crate::allowed::{AllowedWalk, AllowedWalks, AllowingEntry};
use pv_model::{Perms, Target};
use pv_step_lines::Origin;
use pv_step_lines::answers::{Letters, Line as AnswerLine, NameWords, NodeBrief};
use pv_streams::{Decimal, Failed, Fragment, Plain, Sink, write_whole};
use pv_tree::Tree;

// The origin of an entry. Nothing is written if it is unknown.
#[derive(Clone, Copy)]
struct OriginText<'a> {
    origins: &'a [Origin],
    entry: u8,
}

impl<'a> Fragment for OriginText<'a> {
    ghost use Rattle.pv_step_lines.specs.Origin.{settings_in};
    ghost use Rattle.pv_step_lines.specs.Parts.{origin_text};

    ghost text = { λ p. origin_text (settings_in p.origins.now) p.entry };

    fn write<W: Sink>(&self, out: &mut W) -> Result<(), Failed> {
        let Some(origin) = self.origins.get(self.entry as usize) else {
            return Ok(());
        };
        let line = Decimal(u32::from(origin.line));
        let set = Plain(b", set at line ");
        if origin.earlier {
            (set, line, Plain(b", of an earlier program")).write(out)
        } else {
            (set, line).write(out)
        }
    }
}

// The entry that allowed a walk, or that there is no table.
#[derive(Clone, Copy)]
struct EntryText<'a> {
    origins: &'a [Origin],
    asked: Perms,
    entry: Option<AllowingEntry>,
}

impl<'a> Fragment for EntryText<'a> {
    ghost use Rattle.pv_explain.specs.Added.{allowing_entry_text};
    ghost use Rattle.pv_step_lines.specs.Origin.{settings_in};

    ghost text = { λ p. allowing_entry_text (settings_in p.origins.now) p.asked p.entry };

    fn write<W: Sink>(&self, out: &mut W) -> Result<(), Failed> {
        let Some(entry) = self.entry else {
            return write_whole(out, b"no table");
        };
        let origin = OriginText {
            origins: self.origins,
            entry: entry.number,
        };
        let number = Decimal(u32::from(entry.number));
        let has = Letters(entry.permissions);
        let asked = (Letters(self.asked), origin);
        (
            Plain(b"entry "),
            number,
            Plain(b" has "),
            has,
            Plain(b", asked "),
            asked,
        )
            .write(out)
    }
}

// The target of a level: the path of a name, or the path or the number of a directory.
#[derive(Clone, Copy)]
struct TargetText<'a> {
    tree: &'a Tree,
    target: &'a Target,
}

impl<'a> Fragment for TargetText<'a> {
    ghost use Rattle.pv_model_questions.specs.ExplainMore.{target_brief};

    ghost text = { λ p. target_brief p.tree.now.tree p.target.now };

    fn write<W: Sink>(&self, out: &mut W) -> Result<(), Failed> {
        let tree = self.tree;
        match self.target {
            Target::Directory(node) => NodeBrief { tree, node: *node }.write(out),
            Target::Name { dir, name } => {
                let name = name.as_slice();
                NameWords {
                    tree,
                    directory: *dir,
                    name,
                }
                .write(out)
            }
        }
    }
}

// Returns the word for a level.
fn sort_text(of_directory: bool) -> &'static [u8]
    ensures { result.now ≡ sort_text of_directory }
{
    if of_directory {
        b"directory "
    } else {
        b"name "
    }
}

/// The context in which allowed walks are written: the process, the tree after the call, and the origins of the
/// entries.
#[derive(Clone, Copy)]
pub(crate) struct Context<'a> {
    /// The number of the process.
    pub(crate) pid: u32,
    /// The tree after the call.
    pub(crate) tree: &'a Tree,
    /// The known origins of the entries before the call.
    pub(crate) origins: &'a [Origin],
}

// Writes the line of a walk.
#[tactic(auto, unfolding(pv_model::specs::Trace::text_line))]
fn write_walk<W: Sink>(out: &mut W, context: &Context<'_>, walk: &AllowedWalk) -> Result<(), Failed>
    ensures { Writes W.Sink (answer_line_bytes (allowed_line_of context.now (allowed_in walk.now))) out.old out.new result }
{
    let target = TargetText {
        tree: context.tree,
        target: &walk.target,
    };
    let entry = EntryText {
        origins: context.origins,
        asked: walk.asked,
        entry: walk.entry,
    };
    let sort = Plain(sort_text(walk.of_directory));
    let line = AnswerLine {
        pid: context.pid,
        word: *b"WHY ",
        text: (Plain(b"allowed, "), sort, target, Plain(b": "), entry),
    };
    line.write(out)
}

// Writes the line of a walk that was begun and allowed.
fn write_begun<W: Sink>(
    out: &mut W,
    context: &Context<'_>,
    is_begun: bool,
    walk: &Option<AllowedWalk>,
) -> Result<(), Failed>
    ensures { Writes W.Sink (answer_bytes (map (allowed_line_of context.now) (if is_begun then option_to_list (option_map allowed_in walk.now) else []))) out.old out.new result }
{
    if !is_begun {
        return Ok(());
    }
    match walk {
        Some(walk) => write_walk(out, context, walk),
        None => Ok(()),
    }
}

/// Writes a line for each of the first `count` walks of a call that is among the allowed ones.
///
/// # Errors
///
/// `Failed`, if a write failed. The sink received a prefix of the lines.
pub(crate) fn write_allowed<W: Sink>(
    out: &mut W,
    context: &Context<'_>,
    walks: &AllowedWalks,
    count: u8,
) -> Result<(), Failed>
    ensures { Writes W.Sink (answer_bytes (map (allowed_line_of context.now) (first_allowed (allowed_pair_in walks.now) count))) out.old out.new result }
{
    write_begun(out, context, count >= 1, &walks.first)?;
    let second = write_begun(out, context, count >= 2, &walks.second);
    second
}
