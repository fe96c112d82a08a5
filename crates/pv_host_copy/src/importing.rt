//! The state of an import.
ghost use Rattle.std.specs.Prelude.{◌≡◌, IsTrue, OnOk};
ghost use Rattle.std.specs.List.{list_all};
ghost use Rattle.pv_tree.specs.Holding.{IsUnheld};
ghost use Rattle.pv_host_copy.specs.Firsts.{has_path};
ghost use Rattle.pv_image_manifest.specs.Contents.{has_paths};
ghost use Rattle.pv_image_manifest.specs.Paths.{is_path};

use crate::entry::Identity;
use crate::fault::{CopyStop, Refused, SkipReason};
use crate::file::HostFile;
use crate::first::{First, first_of};
use crate::reading::read_within;
use crate::skipped::Skipped;
use pv_image_manifest::{Content, add_entry, is_link_text, is_path};
use pv_model::{Layout, Version};
use pv_tree::{Store, Tree};
use std::alloc::{AllocError, Global};

/// The tree so far, the first paths of its files and symbolic links, and the entries that were skipped.
#[derive(Drop)]
pub(crate) struct Importing {
    pub(crate) tree: Box<Tree>,
    pub(crate) version: Version,
    pub(crate) firsts: Vec<First>,
    pub(crate) reported: Vec<Skipped>,
    ghost same_version: { tree.value.tree.version ≡ version },
    ghost unheld: { IsUnheld tree.value.holds },
    ghost named: { IsTrue (list_all (has_path version) firsts.items) },
}

impl Importing {
    ghost use Rattle.pv_host_copy.specs.Importing.{Goes, GoesIf, AddsDirectory, Settles, Steps};
    ghost use Rattle.pv_image_manifest.specs.Contents.{entry_of_content};
    ghost use Rattle.pv_host_copy.specs.Gathered.{and_entry, and_skipped, and_file, and_link, and_first_entry};

    /// Records a skipped path.
    pub(crate) fn report(
        &mut self,
        alloc: Global,
        path: &[u8],
        why: SkipReason,
    ) -> Result<(), AllocError>
        ensures steps { OnOk result (Steps (and_skipped path.now why) self.old self.new) }
        ensures version { self.new.version ≡ self.old.version }
    {
        let path = Vec::from_slice(alloc, path)?;
        self.reported.push(Skipped { path, why })?;
        Ok(())
    }

    // Adds an entry at a path.
    fn add(&mut self, alloc: Global, path: &[u8], content: &Content) -> Result<(), CopyStop>
        requires named { IsTrue (is_path self.old.version path.now) }
        requires formed { IsTrue (has_paths (is_path self.old.version) content.now) }
        ensures goes { Goes (and_entry (entry_of_content path.now content.now)) self.old result self.new }
        ensures version { self.new.version ≡ self.old.version }
    {
        match add_entry(&mut *self.tree, path, content) {
            Ok(()) => Ok(()),
            Err(fault) => {
                let path = Vec::from_slice(alloc, path)?;
                Err(CopyStop::Entry(Refused { path, fault }))
            }
        }
    }

    // Adds a file or symbolic link at its first path.
    fn add_first(
        &mut self,
        alloc: Global,
        path: &[u8],
        identity: Identity,
        content: &Content,
    ) -> Result<(), CopyStop>
        requires named { IsTrue (is_path self.old.version path.now) }
        requires formed { IsTrue (has_paths (is_path self.old.version) content.now) }
        ensures goes { Goes (and_first_entry path.now identity (entry_of_content path.now content.now)) self.old result self.new }
        ensures version { self.new.version ≡ self.old.version }
    {
        self.add(alloc, path, content)?;
        let path = Vec::from_slice(alloc, path)?;
        self.firsts.push(First { identity, path })?;
        Ok(())
    }

    // Skips a file or symbolic link if its path is invalid. If it was added at another path, adds a name for it.
    // Returns whether it did either.
    fn settle(&mut self, alloc: Global, path: &[u8], identity: Identity) -> Result<bool, CopyStop>
        ensures settles { Settles path.now identity self.old result self.new }
        ensures version { self.new.version ≡ self.old.version }
    {
        if !is_path(self.version, path) {
            self.report(alloc, path, SkipReason::Name)?;
            return Ok(true);
        }
        let Some(first) = first_of(&self.firsts, self.version, identity) else {
            return Ok(false);
        };
        let source = Vec::from_slice(alloc, first)?;
        self.add(alloc, path, &Content::Name(source))?;
        Ok(true)
    }

    /// Adds a file at a path, or skips it. This function and the next two are not inlined, so that the recursion needs
    /// little stack.
    #[inline(never)]
    pub(crate) fn keep_file<F: HostFile>(
        &mut self,
        alloc: Global,
        path: &[u8],
        identity: Identity,
        executable: bool,
        file: &mut F,
    ) -> Result<(), CopyStop>
        ensures goes { GoesIf (F.bytes file.old) (and_file self.old.version path.now identity executable) self.old result self.new }
        ensures version { self.new.version ≡ self.old.version }
    {
        if self.settle(alloc, path, identity)? {
            return Ok(());
        }
        let limit = self.version.layout().greatest_length;
        let Some(bytes) = read_within(alloc, file, limit)? else {
            self.report(alloc, path, SkipReason::Size)?;
            return Ok(());
        };
        self.add_first(alloc, path, identity, &Content::File { executable, bytes })
    }

    /// Adds a symbolic link at a path, or skips it.
    #[inline(never)]
    pub(crate) fn keep_link(
        &mut self,
        alloc: Global,
        path: &[u8],
        identity: Identity,
        text: Vec<u8>,
    ) -> Result<(), CopyStop>
        ensures goes { Goes (and_link self.old.version path.now identity text.items) self.old result self.new }
        ensures version { self.new.version ≡ self.old.version }
    {
        if self.settle(alloc, path, identity)? {
            return Ok(());
        }
        if !is_link_text(&text) {
            self.report(alloc, path, SkipReason::Text)?;
            return Ok(());
        }
        self.add_first(alloc, path, identity, &Content::Link(text))
    }

    /// Adds a directory without its entries at a path, or skips it. Returns whether it was added.
    #[inline(never)]
    pub(crate) fn keep_directory(&mut self, alloc: Global, path: &[u8]) -> Result<bool, CopyStop>
        ensures keeps { AddsDirectory path.now self.old result self.new }
        ensures version { self.new.version ≡ self.old.version }
    {
        if !is_path(self.version, path) {
            self.report(alloc, path, SkipReason::Name)?;
            return Ok(false);
        }
        self.add(alloc, path, &Content::Directory)?;
        Ok(true)
    }
}
