//! The meaning of the bytes that a call moved.
ghost use Rattle.std.specs.Prelude.{◌≡◌, ◌≤◌, ◌++◌, [], ◌∷◌, length, codes, drop, flat_map, option_map, slice_index, take, IfSome};
ghost use Rattle.pv_step_lines.specs.Parts.{file_at, moved_by_call, moved_part, node_text};
ghost use Rattle.pv_step_lines.specs.Moved.{HasSize, IsEmptyOrSized};
ghost use Rattle.pv_model.specs.declared.limits.TheConstants.{BUFFER};
ghost use Rattle.pv_model.specs.Answers.Explain.{ended_words, sort_words, status_words};
ghost use Rattle.pv_model.specs.Machine.{answer_bytes, answer_line, answer_line_bytes, call_of, number_of, quote};
ghost use Rattle.pv_streams.specs.Sinks.{Writes};
ghost use Rattle.pv_trace.specs.Reported.{moved_words_of};

use pv_answers::calls_state::Parts;
use pv_answers::{Line as AnswerLine, NodeWords};
use pv_model::CallRef;
use pv_streams::{Decimal, Failed, Fragment, Plain, Quoted, Sink, write_whole};
use pv_trace::{Direction, Line, LineBuffer, Word, write_line_on};

// Returns the number in two bytes, the lowest first.
fn number_of_two(low: u8, high: u8) -> u32
    ensures { result ≡ number_of (low ∷ high ∷ []) }
{
    u32::from(low) + 256 * u32::from(high)
}

// Returns the number in four bytes, the lowest first.
fn number_of_four(first: u8, second: u8, third: u8, fourth: u8) -> u32
    ensures { result ≡ number_of (first ∷ second ∷ third ∷ fourth ∷ []) }
{
    let upper = u32::from(third) + 256 * u32::from(fourth);
    u32::from(first) + 256 * (u32::from(second) + 256 * upper)
}

// Returns the word for a kind of node, given its number in the bytes of stat(2).
fn sort_word(sort: u8) -> &'static [u8]
    ensures { result.now ≡ sort_words sort }
{
    match sort {
        1 => b"directory",
        2 => b"file",
        3 => b"executable",
        _ => b"link",
    }
}

// The status of a node, as stat(2) reports it.
#[derive(Clone, Copy)]
struct Status {
    sort: u8,
    node: u32,
    size: u32,
}

// Decodes the eight bytes of stat(2).
fn status_of(bytes: &[u8]) -> Status
    requires { length bytes.now ≡ 8 }
    ensures sort { result.sort ≡ slice_index bytes.now 0 }
    ensures node { result.node ≡ number_of (take 2 (drop 2 bytes.now)) }
    ensures size { result.size ≡ number_of (drop 4 bytes.now) }
{
    let [sort, _, low, high, first, second, third, fourth] = bytes else {
        unreachable!()
    };
    Status {
        sort: *sort,
        node: number_of_two(*low, *high),
        size: number_of_four(*first, *second, *third, *fourth),
    }
}

// Writes the line of bytes from stat(2).
#[tactic(auto, unfolding(pv_model::specs::Trace::text_line))]
fn write_status<W: Sink>(out: &mut W, pid: u32, bytes: &[u8]) -> Result<(), Failed>
    requires { length bytes.now ≡ 8 }
    ensures { Writes W.Sink (answer_line_bytes (answer_line pid (codes "TEXT") (status_words bytes.now))) out.old out.new result }
{
    let status = status_of(bytes);
    let line = AnswerLine {
        pid,
        word: *b"TEXT",
        text: (
            Plain(sort_word(status.sort)),
            Plain(b", node "),
            Decimal(status.node),
            Plain(b", size "),
            Decimal(status.size),
        ),
    };
    line.write(out)
}

// The status that wait(2) reports: an exit code, or the signal.
#[derive(Clone, Copy)]
struct EndText(u32);

impl Fragment for EndText {
    ghost use Rattle.pv_model.specs.Answers.Explain.{ended_words};

    ghost text = { λ p. ended_words p.0 };

    fn write<W: Sink>(&self, out: &mut W) -> Result<(), Failed> {
        if self.0 == 6 {
            write_whole(out, b"SIGABRT")
        } else {
            (Plain(b"exit "), Decimal(self.0 / 256)).write(out)
        }
    }
}

// Writes the line of bytes from wait(2).
#[tactic(auto, unfolding(pv_model::specs::Trace::text_line))]
fn write_ended<W: Sink>(out: &mut W, pid: u32, bytes: &[u8]) -> Result<(), Failed>
    requires { length bytes.now ≡ 4 }
    ensures { Writes W.Sink (answer_line_bytes (answer_line pid (codes "TEXT") (ended_words (number_of bytes.now)))) out.old out.new result }
{
    let [first, second, third, fourth] = bytes else {
        unreachable!()
    };
    let line = AnswerLine {
        pid,
        word: *b"TEXT",
        text: EndText(number_of_four(*first, *second, *third, *fourth)),
    };
    line.write(out)
}

// The node of an open file, if there is one.
#[derive(Clone, Copy)]
struct FileNode<'a> {
    parts: &'a Parts,
    file: Option<usize>,
}

impl<'a> Fragment for FileNode<'a> {
    ghost use Rattle.pv_step_lines.specs.Parts.{file_at, node_text};

    ghost text = { λ p. node_text p.parts.now (file_at p.parts.now p.file) };

    fn write<W: Sink>(&self, out: &mut W) -> Result<(), Failed> {
        let files = self.parts.files();
        match self.file {
            Some(file) if files.is_open(file) => {
                let tree = self.parts.tree();
                let node = files.node(file);
                (Plain(b", "), NodeWords { tree, node }).write(out)
            }
            _ => Ok(()),
        }
    }
}

// Writes the line of bytes that were read or written, with their node.
#[tactic(auto, unfolding(pv_model::specs::Trace::text_line))]
fn write_content<W: Sink>(
    out: &mut W,
    pid: u32,
    parts: &Parts,
    file: Option<usize>,
    bytes: &[u8],
) -> Result<(), Failed>
    ensures { Writes W.Sink (answer_line_bytes (answer_line pid (codes "TEXT") (quote bytes.now ++ node_text parts.now (file_at parts.now file)))) out.old out.new result }
{
    let line = AnswerLine {
        pid,
        word: *b"TEXT",
        text: (Quoted(bytes), FileNode { parts, file }),
    };
    line.write(out)
}

// Writes the line of bytes that are a text.
#[tactic(auto, unfolding(pv_model::specs::Trace::text_line))]
fn write_text<W: Sink>(out: &mut W, pid: u32, bytes: &[u8]) -> Result<(), Failed>
    ensures { Writes W.Sink (answer_line_bytes (answer_line pid (codes "TEXT") (quote bytes.now))) out.old out.new result }
{
    let line = AnswerLine {
        pid,
        word: *b"TEXT",
        text: Quoted(bytes),
    };
    line.write(out)
}

// Writes the line with the meaning of bytes that a call moved.
fn write_moved<W: Sink>(
    out: &mut W,
    pid: u32,
    parts: &Parts,
    file: Option<usize>,
    call: CallRef<'_>,
    bytes: &[u8],
) -> Result<(), Failed>
    requires { HasSize (call_of call) bytes.now }
    ensures { Writes W.Sink (answer_line_bytes (answer_line pid (codes "TEXT") (moved_by_call parts.now file (call_of call.entry) bytes.now))) out.old out.new result }
{
    match call {
        CallRef::Wait => write_ended(out, pid, bytes),
        CallRef::Stat(_) | CallRef::Lstat(_) | CallRef::Fstat(_) => write_status(out, pid, bytes),
        CallRef::Read(_, _) | CallRef::Write(_, _) => write_content(out, pid, parts, file, bytes),
        _ => write_text(out, pid, bytes),
    }
}

/// Writes the GIO line of the bytes that a call moved and the line with their meaning, if there are bytes. `file` is
/// the open file that the call read or wrote.
///
/// # Errors
///
/// `Failed`, if a write failed. The sink received a prefix of the lines.
pub(crate) fn write_moved_part<W: Sink>(
    out: &mut W,
    line_buffer: &mut LineBuffer,
    pid: u32,
    parts: &Parts,
    file: Option<usize>,
    call: CallRef<'_>,
    reported: Option<(Direction, &[u8])>,
) -> Result<(), Failed>
    requires few { IfSome reported (λ moved. length moved.1.now ≤ BUFFER) }
    requires sizes { IfSome reported (λ moved. IsEmptyOrSized (call_of call) moved.1.now) }
    ensures { Writes W.Sink (answer_bytes (flat_map (moved_part pid parts.now file (call_of call.entry)) (moved_words_of (option_map (λ moved. (moved.0, moved.1.now)) reported.entry)))) out.old out.new result }
{
    let Some((direction, bytes)) = reported else {
        return Ok(());
    };
    let line = Line {
        pid,
        word: Word::Gio(direction, bytes),
    };
    write_line_on(out, line_buffer, &line)?;
    if bytes.is_empty() {
        Ok(())
    } else {
        write_moved(out, pid, parts, file, call, bytes)
    }
}
