//! The words of lines.
ghost use Rattle.std.specs.Prelude.{◌≡◌};
ghost use Rattle.pv_access.specs.Texts.{note_if, word_letters};

pub(crate) use pv_reduced::answers::NodeBrief;

/// The word of an access to a node.
#[derive(Clone, Copy)]
pub(crate) enum NodeWord {
    /// READ: the bytes of the file are read.
    Read,
    /// EXEC: the file is executed.
    Execute,
    /// WRIT: the bytes or the length of the file are changed.
    Write,
    /// TELL: the node is reported.
    Report,
}

impl NodeWord {
    /// Returns the letters of the word.
    pub(crate) fn letters(self) -> [u8; 4]
        ensures { result ≡ word_letters self }
    {
        match self {
            NodeWord::Read => *b"READ",
            NodeWord::Execute => *b"EXEC",
            NodeWord::Write => *b"WRIT",
            NodeWord::Report => *b"TELL",
        }
    }

    /// Returns the node if the access depends on its bytes.
    pub(crate) fn noted(self, node: u16) -> Option<u16>
        ensures { result ≡ note_if self node }
    {
        match self {
            NodeWord::Read | NodeWord::Execute => Some(node),
            NodeWord::Write | NodeWord::Report => None,
        }
    }
}
