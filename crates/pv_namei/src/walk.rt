//! The path walk, step by step.
ghost use Rattle.std.specs.Prelude.{◌≡◌, ◌≤◌, ◌<◌, length, take, IsTrue, Some, IsSome, IfSome, OnOk, IfOk, IfErr};
ghost use Rattle.pv_model.specs.Machine.{link_text, node_at, is_directory_at, find_entry, IsWellFormed, follows_last, end_mark, resolve};
ghost use Rattle.pv_namei.specs.Onward.{first_walk, remaining, followed, entered, result_after_step, arrived, passed, IsAtDirectory, IsStop, IsNearer};

use crate::along::Along;
use crate::component::{ends_in_slash, is_absolute};
use crate::joined::Joined;
use crate::lead::{Lead, lead_along};
use crate::lookup::Lookup;
use crate::stop::{End, Stop};
use pv_model::limits::{LINKS, NAME_V2, PATH, ROOT};
use pv_model::{Errno, Follow, Kind, Place};
use pv_tree::{PlaceRef, Tree};

/// The state of a walk. The components that remain are passed separately.
#[derive(Drop)]
struct WalkState {
    // Whether the last component is followed if it is a symbolic link.
    last: bool,
    // How many more symbolic links the walk may follow.
    links: usize,
    // The current directory of the walk.
    at: u16,
    // Whether the walk must end at a directory.
    mark: bool,
}

// The result of a step: the point at which the walk stops, or `None` if it continues.
type Step<'a> = Result<Option<Stop<'a>>, Errno>;

impl WalkState {
    // Creates the state at the start of a walk.
    fn new(start: u16, path: &[u8], follow: Follow) -> WalkState
        ensures { result ≡ first_walk start path.now follow }
    {
        WalkState {
            last: follows_last(follow),
            links: LINKS,
            at: if is_absolute(path) { ROOT } else { start },
            mark: end_mark(follow, path),
        }
    }

    // Continues from the entry of a component: it stops there, or enters a directory.
    fn enter<'a>(
        &mut self,
        tree: &Tree,
        component: &'a [u8],
        node: Option<u16>,
        rest: &Along<'_>,
    ) -> Step<'a>
        requires start { IsAtDirectory tree.now.tree self.old.at }
        requires entry { find_entry tree.now.tree self.old.at component.now ≡ node }
        requires short { length component.now ≤ NAME_V2 }
        ensures onward { entered tree.now.tree self.old rest.now component.now node
            ≡ result_after_step tree.now.tree self.new rest.now result }
        ensures stop { IfOk result (λ stop. IfSome stop (IsStop tree.now.tree)) }
        ensures directory { IsTrue (is_directory_at tree.now.tree self.new.at) }
        ensures links { self.new.links ≡ self.old.links }
    {
        let end = Ok(Some(Stop::End(End::Named {
            dir: self.at,
            component,
            node,
        })));
        let is_last = rest.is_empty();
        let may_end = is_last && !self.mark;
        let Some(number) = node else {
            return if may_end { end } else { Err(Errno::ENOENT) };
        };
        match tree.kind(number) {
            Kind::Symlink if may_end && !self.last => end,
            Kind::Symlink => Ok(Some(Stop::Link(number))),
            Kind::Directory if is_last => end,
            Kind::Directory => {
                self.at = number;
                Ok(None)
            }
            Kind::File | Kind::Executable if may_end => end,
            Kind::File | Kind::Executable => Err(Errno::ENOTDIR),
        }
    }

    // Resolves the first of the remaining components.
    fn step<'a, L: Lookup>(&mut self, tree: &Tree, lookup: &mut L, rest: &mut Along<'a>) -> Step<'a>
        requires start { IsAtDirectory tree.now.tree self.old.at }
        requires agrees { L.agrees lookup.old (find_entry tree.now.tree) }
        ensures onward { remaining tree.now.tree self.old rest.old
            ≡ result_after_step tree.now.tree self.new rest.new result }
        ensures stop { IfOk result (λ stop. IfSome stop (IsStop tree.now.tree)) }
        ensures directory { IsTrue (is_directory_at tree.now.tree self.new.at) }
        ensures links { self.new.links ≡ self.old.links }
        ensures nearer { IsNearer rest.old rest.new result }
        ensures agrees { L.agrees lookup.new (find_entry tree.now.tree) }
    {
        let Some(component) = rest.take_first() else {
            return Ok(Some(Stop::End(End::Unnamed(self.at))));
        };
        match lead_along(tree, lookup, self.at, component)? {
            Lead::Directory(directory) => {
                self.at = directory;
                Ok(None)
            }
            Lead::Entry(node) => self.enter(tree, component, node, rest),
        }
    }

    // Resolves components up to the end of the walk or the first link that is followed.
    fn go<'a, L: Lookup>(
        &mut self,
        tree: &Tree,
        lookup: &mut L,
        rest: &mut Along<'a>,
    ) -> Result<Stop<'a>, Errno>
        requires start { IsAtDirectory tree.now.tree self.old.at }
        requires agrees { L.agrees lookup.old (find_entry tree.now.tree) }
        ensures onward { remaining tree.now.tree self.old rest.old
            ≡ arrived tree.now.tree self.new rest.new result }
        ensures stop { IfOk result (IsStop tree.now.tree) }
        ensures directory { IsTrue (is_directory_at tree.now.tree self.new.at) }
        ensures links { self.new.links ≡ self.old.links }
        ensures agrees { L.agrees lookup.new (find_entry tree.now.tree) }
    {
        loop {
            if let Some(stop) = self.step(tree, lookup, rest)? {
                return Ok(stop);
            }
        }
    }

    // Continues after a symbolic link with the components of its target followed by those that remain. It starts from
    // the directory of the link, or from the root if the target begins with a slash. Fails with ELOOP if no more links
    // may be followed, otherwise with ENAMETOOLONG if the components weigh more than 1,024.
    fn follow(
        &mut self,
        tree: &Tree,
        link: u16,
        rest: &Along<'_>,
        buffer: &mut [u8; PATH],
        joined: &mut Joined,
    ) -> Result<(), Errno>
        requires start { IsAtDirectory tree.now.tree self.old.at }
        requires link { IsSome (link_text (node_at tree.now.tree link)) }
        ensures ok { OnOk result
            (followed tree.now.tree self.old rest.now (link_text (node_at tree.now.tree link))
            ≡ remaining tree.now.tree self.new joined.new) }
        ensures err { IfErr result (λ e. followed tree.now.tree self.old rest.now
            (link_text (node_at tree.now.tree link)) ≡ Err e) }
        ensures directory { IsTrue (is_directory_at tree.now.tree self.new.at) }
        ensures fewer { OnOk result (self.new.links < self.old.links) }
    {
        if self.links == 0 {
            return Err(Errno::ELOOP);
        }
        let length = read_link(tree, link, buffer);
        let text = &buffer[..length];
        joined.join(text, rest)?;
        self.links -= 1;
        self.mark = self.mark || (rest.is_empty() && ends_in_slash(text));
        if is_absolute(text) {
            self.at = ROOT;
        }
        Ok(())
    }

    // Walks the components of `from` to the end and returns the place. If a link is followed, it returns `None`, and
    // `to` has the components that remain.
    fn pass<L: Lookup>(
        &mut self,
        tree: &Tree,
        lookup: &mut L,
        from: &Joined,
        buffer: &mut [u8; PATH],
        to: &mut Joined,
    ) -> Result<Option<Place>, Errno>
        requires start { IsAtDirectory tree.now.tree self.old.at }
        requires agrees { L.agrees lookup.old (find_entry tree.now.tree) }
        ensures onward { remaining tree.now.tree self.old from.now
            ≡ passed result (remaining tree.now.tree self.new to.new) }
        ensures directory { IsTrue (is_directory_at tree.now.tree self.new.at) }
        ensures fewer { OnOk result (result ≡ Ok None → self.new.links < self.old.links) }
        ensures agrees { L.agrees lookup.new (find_entry tree.now.tree) }
    {
        let mut rest = from.along();
        match self.go(tree, lookup, &mut rest)? {
            Stop::End(end) => Ok(Some(end.place().to_place())),
            Stop::Link(link) => {
                self.follow(tree, link, &rest, buffer, to)?;
                Ok(None)
            }
        }
    }

    // Continues from the first link to the end. Two buffers alternate: the walk reads one, and the other receives the
    // components that remain after the next link.
    fn go_after<L: Lookup>(
        &mut self,
        tree: &Tree,
        lookup: &mut L,
        link: u16,
        rest: &Along<'_>,
    ) -> Result<Place, Errno>
        requires start { IsAtDirectory tree.now.tree self.old.at }
        requires link { IsSome (link_text (node_at tree.now.tree link)) }
        requires agrees { L.agrees lookup.old (find_entry tree.now.tree) }
        ensures place { result ≡ followed tree.now.tree self.old rest.now
            (link_text (node_at tree.now.tree link)) }
        ensures agrees { L.agrees lookup.new (find_entry tree.now.tree) }
    {
        let mut buffer = [0; PATH];
        let mut here = Joined::new();
        let mut next = Joined::new();
        self.follow(tree, link, rest, &mut buffer, &mut here)?;
        loop {
            if let Some(place) = self.pass(tree, lookup, &here, &mut buffer, &mut next)? {
                return Ok(place);
            }
            if let Some(place) = self.pass(tree, lookup, &next, &mut buffer, &mut here)? {
                return Ok(place);
            }
        }
    }

    // Does the same as `go_after` and stores the place in `following`, whose name the result borrows. It is a separate
    // function because its locals are large and a function initializes its locals at entry: a walk without links does
    // not pay for them.
    #[inline(never)]
    fn place_after<'a, L: Lookup>(
        &mut self,
        tree: &Tree,
        lookup: &mut L,
        link: u16,
        rest: &Along<'_>,
        following: &'a mut Option<Place>,
    ) -> Result<PlaceRef<'a>, Errno>
        requires start { IsAtDirectory tree.now.tree self.old.at }
        requires link { IsSome (link_text (node_at tree.now.tree link)) }
        requires agrees { L.agrees lookup.old (find_entry tree.now.tree) }
        ensures place { result ≡ followed tree.now.tree self.old rest.now
            (link_text (node_at tree.now.tree link)) }
        ensures agrees { L.agrees lookup.new (find_entry tree.now.tree) }
    {
        *following = Some(self.go_after(tree, lookup, link, rest)?);
        match following {
            Some(place) => Ok(PlaceRef::of(place)),
            None => unreachable!(),
        }
    }
}

// Copies the target of a link to the front of the buffer, and returns its length.
fn read_link(tree: &Tree, link: u16, buffer: &mut [u8; PATH]) -> usize
    requires well_formed { IsWellFormed tree.now.tree }
    requires link { IsSome (link_text (node_at tree.now.tree link)) }
    ensures text { link_text (node_at tree.now.tree link) ≡ Some (take result buffer.new) }
    ensures fits { result ≤ PATH }
{
    tree.read_at(link, 0, buffer)
}

// Returns whether the last component is followed if it is a symbolic link.
fn follows_last(follow: Follow) -> bool
    ensures { result ≡ follows_last follow }
{
    matches!(follow, Follow::Last)
}

// Returns whether a walk must end at a directory.
fn end_mark(follow: Follow, path: &[u8]) -> bool
    ensures { result ≡ end_mark follow path.now }
{
    match follow {
        Follow::KeepTrimmed => false,
        Follow::Last | Follow::Keep => ends_in_slash(path),
    }
}

/// Returns the place that a path names from a directory, symlink(7). If the last component does not exist and no slash
/// follows it, the place is the entry that could be created.
///
/// # Errors
///
/// - ENOENT: the path is empty; a component does not exist, unless it is the last one and no slash follows it; or the
///   component is `..` or a name in a removed directory.
/// - ENAMETOOLONG: the path has more than 1,023 bytes; a component exceeds the maximum length of a name; or the
///   components that remain after a link, each with a slash after it, exceed 1,024 bytes.
/// - ENOTDIR: a file is followed by more of the path, even if only by a slash.
/// - ELOOP: the path leads to a 33rd symbolic link.
pub fn resolve<L: Lookup>(
    tree: &Tree,
    lookup: &mut L,
    start: u16,
    path: &[u8],
    follow: Follow,
) -> Result<Place, Errno>
    requires start { IsTrue (is_directory_at tree.now.tree start) }
    requires agrees { L.agrees lookup.old (find_entry tree.now.tree) }
    ensures place { result ≡ resolve tree.now.tree follow start path.now }
    ensures agrees { L.agrees lookup.new (find_entry tree.now.tree) }
{
    let mut following = None;
    match resolve_ref(tree, lookup, start, path, follow, &mut following) {
        Ok(place) => Ok(place.to_place()),
        Err(errno) => Err(errno),
    }
}

/// Does the same as `resolve` without copying the name. The name of the place is borrowed from the path, or, if a link
/// was followed, from `following`, which then contains the place.
pub fn resolve_ref<'a, L: Lookup>(
    tree: &Tree,
    lookup: &mut L,
    start: u16,
    path: &'a [u8],
    follow: Follow,
    following: &'a mut Option<Place>,
) -> Result<PlaceRef<'a>, Errno>
    requires start { IsTrue (is_directory_at tree.now.tree start) }
    requires agrees { L.agrees lookup.old (find_entry tree.now.tree) }
    ensures place { result ≡ resolve tree.now.tree follow start path.now }
    ensures agrees { L.agrees lookup.new (find_entry tree.now.tree) }
{
    if path.is_empty() {
        return Err(Errno::ENOENT);
    }
    if path.len() > PATH {
        return Err(Errno::ENAMETOOLONG);
    }
    // The contract of `invariant` shows that every tree is well-formed.
    tree.invariant();
    let mut walk = WalkState::new(start, path, follow);
    let mut rest = Along::new(path);
    match walk.go(tree, lookup, &mut rest)? {
        Stop::End(end) => Ok(end.place()),
        Stop::Link(link) => walk.place_after(tree, lookup, link, &rest, following),
    }
}
