//! A worked search and its graph, by computation.

ghost use Rattle.pv_laws_answers.specs.SearchExamples.{UnreadExamples, GraphExamples};

/// In a complete search, no step reads one of two files, although it is exposed; a step reads the other.
pub fn unread_happens()
    ensures { UnreadExamples }
{}

/// In the graph of that search, two lines STEP lead on from the first state, with the lines of an open and a read
/// explained.
pub fn graph_happens()
    ensures { GraphExamples }
{}
