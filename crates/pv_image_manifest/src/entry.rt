//! The entries of manifests.
ghost use Rattle.std.specs.Prelude.{IsTrue};
ghost use Rattle.pv_model.specs.Machine.{is_manifest_path};
ghost use Rattle.pv_image_manifest.specs.Contents.{is_content};

/// The node or name that an entry of a manifest creates at its path.
#[derive(Drop)]
pub enum Content {
    /// An empty directory.
    Directory,
    /// A file with its bytes. It may be executable.
    File { executable: bool, bytes: Vec<u8> },
    /// A symbolic link with its target, which has 1 to 1,023 bytes.
    Link(Vec<u8>),
    /// Another name of the file or symbolic link at this path.
    Name(Vec<u8>),
}

/// An entry of a manifest: the number of its line, its path, and its contents.
#[derive(Drop)]
pub struct Entry {
    /// The number of its line, counted from 1.
    pub line: u32,
    /// A slash followed by one or more names that are separated by single slashes.
    pub path: Vec<u8>,
    /// The node or name that it creates.
    pub content: Content,
    pub ghost named: { IsTrue (is_manifest_path path.items) },
    pub ghost formed: { IsTrue (is_content content) },
}
