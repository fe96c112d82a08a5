//! The paths of entries, and the targets of symbolic links.
ghost use Rattle.std.specs.Prelude.{◌≡◌};
ghost use Rattle.std.specs.List.{list_all};
ghost use Rattle.pv_model.specs.Machine.{is_manifest_path as encodes_manifest_path, is_link_text as may_be_link_text};
ghost use Rattle.pv_image_manifest.specs.Contents.{is_link_byte};
ghost use Rattle.pv_image_manifest.specs.Paths.{is_path as encodes_path};

use pv_model::limits::LINK_TEXT;
use pv_model::{Version, is_name};
use pv_text::components::split_component;

/// Returns whether a path is a slash followed by one or more names that are separated by single slashes, in an image of
/// a version.
pub fn is_path(version: Version, path: &[u8]) -> bool
    ensures { result ≡ encodes_path version path.now }
{
    let [b'/', names @ ..] = path else {
        return false;
    };
    let mut rest = Some(names);
    while let Some(names) = rest {
        let (name, following) = split_component(names);
        if !is_name(version, name) {
            return false;
        }
        rest = following;
    }
    true
}

/// Returns whether a manifest can have this path: `is_path` in version 1.
pub fn is_manifest_path(path: &[u8]) -> bool
    ensures { result ≡ encodes_manifest_path path.now }
{
    is_path(Version::V1, path)
}

// Returns whether no byte is 0.
fn has_link_bytes(text: &[u8]) -> bool
    ensures { result ≡ list_all is_link_byte text.now }
{
    text.iter().all(|b| *b != 0)
}

/// Returns whether a text can be the target of a symbolic link: it has 1 to 1,023 bytes, and none is 0.
pub fn is_link_text(text: &[u8]) -> bool
    ensures { result ≡ may_be_link_text text.now }
{
    if text.is_empty() || text.len() > LINK_TEXT {
        return false;
    }
    has_link_bytes(text)
}
