//! Checking the kinds and sizes of inodes.
ghost use Rattle.std.specs.Prelude.{◌≡◌, IfNone, IfSome};
ghost use Rattle.pv_model.specs.Machine.{has_bad_inode, PassesNone};
ghost use Rattle.pv_model.specs.Mount.{PassesLeast};
ghost use Rattle.pv_image_mount.specs.Numbers.{IsInodeNumber};

use crate::image::Image;
use pv_model::format::{DIRECTORY, FREE, LINK};
use pv_model::limits::LINK_TEXT;

impl Image<'_> {
    // Returns whether an inode has an invalid kind, or a size that is invalid for its kind.
    #[tactic(auto, unfolding(pv_model::specs::Mount::has_bad_inode))]
    fn has_bad_inode(&self, n: u16) -> bool
        requires { IsInodeNumber self.now.bytes.now n }
        ensures { result ≡ has_bad_inode self.now.version self.now.bytes.now n }
    {
        let kind = self.kind(n);
        if kind == FREE {
            return false;
        }
        let size = self.size(n);
        let layout = self.version.layout();
        kind > LINK
            || size > layout.greatest_length
            || (kind == DIRECTORY && size as usize % layout.slot_length != 0)
            || (kind == LINK && (size < 1 || size as usize > LINK_TEXT))
    }

    /// Returns the least inode with an invalid kind, or a size that is invalid for its kind.
    pub(crate) fn least_bad_inode(&self) -> Option<u16>
        ensures none { IfNone result (PassesNone self.now.bytes.now (has_bad_inode self.now.version self.now.bytes.now)) }
        ensures least { IfSome result (PassesLeast self.now.bytes.now (has_bad_inode self.now.version self.now.bytes.now)) }
    {
        for n in 1..self.inodes + 1 {
            if self.has_bad_inode(n) {
                return Some(n);
            }
        }
        None
    }
}
