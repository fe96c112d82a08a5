//! Laws of sources.

ghost use Rattle.std.specs.Prelude.{◌≡◌, Ok};
ghost use Rattle.pv_model.specs.Machine.{Bytes, read_source};
ghost use Rattle.pv_laws_grammar.specs.Accepted.{IsAcceptedText, HasLineEnds};
ghost use Rattle.pv_laws_grammar.specs.Comments.{CommentsChangeNothing, CommentsHaveNoWords};
ghost use Rattle.pv_laws_grammar.specs.Labels.{LabelsDenoteLines};

/// The text written for a source is a bundle or a manifest that the machine accepts: its form and sizes are valid, its
/// entries make a tree, `/init` is a program, and a bundle's schedule is valid.
pub fn written_sources_are_accepted()
    ensures { (source text : Bytes) → read_source source ≡ Ok text → IsAcceptedText text }
{}

/// A label denotes the number of the first instruction on its line or after it.
pub fn labels_denote_their_lines()
    ensures { LabelsDenoteLines }
{}

/// A text that the machine accepts and whose lines all end with an LF is a source that denotes itself; in particular,
/// the text written for a source denotes itself.
pub fn accepted_sources_are_their_own()
    ensures accepted { (text : Bytes) → IsAcceptedText text → HasLineEnds text → read_source text ≡ Ok text }
    ensures written { (source text : Bytes) → read_source source ≡ Ok text → read_source text ≡ Ok text }
{}

/// Comments, blank lines, and blanks around and between words do not change the output for a source. The K
/// lines after `exec TEXT K` have no comments: they stay the same bytes, or become a program between `<<END` and END
/// with these instructions.
pub fn comments_change_nothing()
    ensures lines { CommentsHaveNoWords }
    ensures same { CommentsChangeNothing }
{}
