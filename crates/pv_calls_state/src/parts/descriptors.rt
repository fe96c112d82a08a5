//! Descriptors and their open files.
ghost use Rattle.std.specs.Prelude.{◌≡◌, ◌<◌, [], ◌∷◌, if◌then◌else◌, IsSome, IsTrue, IfOk, IfErr, OnOk, OnErr, Some, None, IfSome, MatchOption, option_map, ok_or};
ghost use Rattle.pv_files.specs.Counted.{with_opened};
ghost use Rattle.pv_files.specs.Descriptors.{descriptor_under};
ghost use Rattle.pv_laws_states.specs.States.{IsValid};
ghost use Rattle.pv_model.specs.declared.errno.Errno.TheVariants.{EBADF, EMFILE};
ghost use Rattle.pv_model.specs.declared.limits.TheConstants.{DESCRIPTORS};
ghost use Rattle.pv_model.specs.Machine.{close, dup, dup2, new_open_file, with_content, within, at_number, least_free, Process, process_at, writes, is_file, node_at, find_entry, is_name, is_directory_at};
ghost use Rattle.pv_calls_state.specs.Attempts.{IsDone};
ghost use Rattle.pv_calls_state.specs.Changes.{with_closed_descriptor, with_descriptor_at, with_opened_descriptor};
ghost use Rattle.pv_calls_state.specs.Opening.{CanOpen, IsLeastDescriptor, LacksRoomForFile, MakesFile, OpensNode, References};
ghost use Rattle.pv_calls_state.specs.Releasing.{at_most_one, HoldsOpened, Releases};
ghost use Rattle.pv_procs.specs.ProcessTable.{process_in, updated_table};
ghost use Rattle.pv_procs.specs.OfTree.Holding.{holds_at};
ghost use Rattle.pv_laws_trees.specs.Tree.{Appears};

use super::Parts;
use pv_files::{Descriptors, OpenFiles};
use pv_model::limits::DESCRIPTORS;
use pv_model::{Errno, NewNode, OpenFlags};
use pv_procs::Processes;
use pv_procs::unveil::tree::{Space, Tree};

/// Removes one user of an open file. If that was the last user, the open file and its reference to its node are
/// dropped.
pub(super) fn release(tree: &mut Tree, files: &mut OpenFiles, file: usize)
    requires opened { IsSome (at_number files.old.files file) }
    requires held { HoldsOpened tree.old files.old }
    ensures { Releases (file ∷ []) [] tree.old files.old tree.new files.new }
{
    tree.invariant();
    files.invariant();
    if let Some(node) = files.release(file) {
        tree.unreference(node);
    }
}

/// Returns the number of the open file of descriptor `d`, or `None` if `d` is not open.
pub(super) fn file_at(descriptors: &Descriptors, d: u8) -> Option<usize>
    ensures { result ≡ option_map (λ e. e.file) (at_number descriptors.now d) }
{
    descriptors.at(i32::from(d)).ok()
}

// Removes one user of an open file, if there is an open file.
fn release_some(tree: &mut Tree, files: &mut OpenFiles, file: Option<usize>)
    requires opened { IfSome file (λ k. IsSome (at_number files.old.files k)) }
    requires held { HoldsOpened tree.old files.old }
    ensures { Releases (at_most_one file) [] tree.old files.old tree.new files.new }
{
    tree.invariant();
    if let Some(file) = file {
        release(tree, files, file);
    }
}

// Closes a descriptor of a live process and returns the number of its open file. The caller must still remove one user
// of that open file.
fn close_descriptor(processes: &mut Processes, pid: u32, d: i32) -> Result<usize, Errno>
    requires { IsSome (process_in processes.old pid) }
    ensures file { (me : Process) → process_in processes.old pid ≡ Some me
        → result ≡ ok_or (option_map (λ e. e.file) (descriptor_under me.descriptors d)) EBADF }
    ensures closed { OnOk result
        (processes.new ≡ updated_table processes.old pid (with_closed_descriptor d)) }
    ensures unchanged { OnErr result (processes.new ≡ processes.old) }
{
    processes.invariant();
    processes.record_mut(pid).descriptors.close(d)
}

// Gives a live process a descriptor for an open file. The descriptor is the lowest free number, which is returned.
fn give_descriptor(
    processes: &mut Processes,
    pid: u32,
    file: usize,
    close_on_exec: bool,
) -> Result<u8, Errno>
    requires { IsSome (process_in processes.old pid) }
    ensures number { IfOk result
        (λ d. (me : Process) → process_in processes.old pid ≡ Some me
        → d ≡ least_free me.descriptors) }
    ensures in_range { IfOk result (λ d. d < DESCRIPTORS) }
    ensures given { OnOk result
        (processes.new ≡ updated_table processes.old pid (with_opened_descriptor file close_on_exec)) }
    ensures errno { IfErr result (λ e. e ≡ EMFILE) }
    ensures full { OnErr result (IsLeastDescriptor (process_in processes.old pid) DESCRIPTORS) }
    ensures unchanged { OnErr result (processes.new ≡ processes.old) }
{
    processes.invariant();
    processes
        .record_mut(pid)
        .descriptors
        .give(file, close_on_exec)
}

// Makes a number from 0 to 15 a descriptor for an open file in a live process, whether or not it was in use.
fn set_descriptor(processes: &mut Processes, pid: u32, number: u8, file: usize)
    requires live { IsSome (process_in processes.old pid) }
    requires in_range { number < DESCRIPTORS }
    ensures { processes.new ≡ updated_table processes.old pid (with_descriptor_at number file) }
{
    processes.record_mut(pid).descriptors.set(number, file);
}

impl Parts {
    /// Closes a descriptor of a live process, as close(2), and returns 0.
    ///
    /// # Errors
    ///
    /// `EBADF`, if the descriptor is not open. The state is then unchanged.
    pub fn close(&mut self, pid: u32, d: i32) -> Result<u32, Errno>
        requires whole { IsValid self.old }
        requires live { IsSome (process_at self.old pid) }
        ensures performed { IsDone (λ s me. close s pid me d) self.old pid self.new result }
        ensures unchanged { OnErr result (self.new ≡ self.old) }
    {
        self.tree.invariant();
        self.files.invariant();
        let file = close_descriptor(&mut self.processes, pid, d)?;
        release(&mut self.tree, &mut self.files, file);
        self.files.invariant();
        Ok(0)
    }

    /// Duplicates a descriptor onto the lowest free number, as dup(2), and returns that number.
    ///
    /// # Errors
    ///
    /// - `EBADF`, if the descriptor is not open.
    /// - `EMFILE`, if no number is free.
    ///
    /// The state is unchanged after an error.
    pub fn dup(&mut self, pid: u32, d: i32) -> Result<u32, Errno>
        requires whole { IsValid self.old }
        requires live { IsSome (process_at self.old pid) }
        ensures performed { IsDone (λ s me. dup s pid me d) self.old pid self.new result }
        ensures unchanged { OnErr result (self.new ≡ self.old) }
    {
        self.tree.invariant();
        self.files.invariant();
        let file = self.processes.record(pid).descriptors.at(d)?;
        let number = give_descriptor(&mut self.processes, pid, file, false)?;
        self.files.dup(file);
        self.files.invariant();
        Ok(u32::from(number))
    }

    /// Duplicates descriptor `d` onto number `e`, as dup2(2), and returns `e`. If `e` is open, it is closed first. If
    /// `d` and `e` are equal, nothing changes.
    ///
    /// # Errors
    ///
    /// `EBADF`, if `d` is not open or `e` is not from 0 to 15. The state is then unchanged.
    pub fn dup2(&mut self, pid: u32, d: i32, e: i32) -> Result<u32, Errno>
        requires whole { IsValid self.old }
        requires live { IsSome (process_at self.old pid) }
        ensures performed { IsDone (λ s me. dup2 s pid me d e) self.old pid self.new result }
        ensures unchanged { OnErr result (self.new ≡ self.old) }
    {
        self.tree.invariant();
        self.files.invariant();
        let descriptors = &self.processes.record(pid).descriptors;
        let file = descriptors.at(d)?;
        let Some(number) = number_of(e) else {
            return Err(Errno::EBADF);
        };
        if d == e {
            return Ok(u32::from(number));
        }
        let left = file_at(descriptors, number);
        set_descriptor(&mut self.processes, pid, number, file);
        self.files.dup(file);
        release_some(&mut self.tree, &mut self.files, left);
        self.files.invariant();
        Ok(u32::from(number))
    }

    /// Opens an existing file or directory and returns its descriptor, the lowest free number. If the flags ask for it,
    /// the file is truncated to no bytes.
    pub fn open(&mut self, pid: u32, node: u16, flags: OpenFlags) -> u8
        requires whole { IsValid self.old }
        requires live { IsSome (process_at self.old pid) }
        requires there { IsSome (node_at self.old.tree node) }
        requires cuts_a_file { IsTrue flags.truncate
            → IsTrue (is_file (node_at self.old.tree node)) }
        requires room { CanOpen self.old.files (process_at self.old pid) }
        ensures number { IsLeastDescriptor (process_at self.old pid) result }
        ensures opened { OpensNode self.old pid flags node self.new }
    {
        self.tree.invariant();
        self.files.invariant();
        cut_if(&mut self.tree, node, flags.truncate);
        let number = open_node(
            &mut self.tree,
            &mut self.files,
            &mut self.processes,
            pid,
            node,
            flags,
        );
        self.tree.invariant();
        self.files.invariant();
        number
    }

    /// Makes a file under a name that does not exist in a directory, and opens it as `open` does.
    ///
    /// # Errors
    ///
    /// - `TooBig`, if the directory would exceed its maximum length.
    /// - `Full`, if the image has no free inode or too few free blocks.
    ///
    /// The state is unchanged after an error.
    pub fn create(
        &mut self,
        pid: u32,
        directory: u16,
        name: &[u8],
        flags: OpenFlags,
    ) -> Result<u8, Space>
        requires whole { IsValid self.old }
        requires live { IsSome (process_at self.old pid) }
        requires directory { Appears self.old.tree directory }
        requires name { IsTrue (is_name self.old.tree.version name.now) }
        requires absent { find_entry self.old.tree directory name.now ≡ None }
        requires room { CanOpen self.old.files (process_at self.old pid) }
        ensures made { IfOk result (MakesFile self.old pid flags directory name.now self.new) }
        ensures lacks_room { IfErr result
            (LacksRoomForFile self.old pid flags directory name.now self.new) }
    {
        self.tree.invariant();
        self.files.invariant();
        let node = self.tree.make(directory, name, NewNode::File)?;
        let number = open_node(
            &mut self.tree,
            &mut self.files,
            &mut self.processes,
            pid,
            node,
            flags,
        );
        self.tree.invariant();
        self.files.invariant();
        Ok(number)
    }
}

// Truncates a file to no bytes, if `cuts`.
fn cut_if(tree: &mut Tree, node: u16, cuts: bool)
    requires { IsTrue cuts → IsTrue (is_file (node_at tree.old.tree node)) }
    ensures tree { tree.new.tree
        ≡ (if cuts then with_content tree.old.tree node [] else tree.old.tree) }
    ensures holds { tree.new.holds ≡ tree.old.holds }
{
    tree.invariant();
    if cuts {
        let Ok(()) = tree.cut(node, 0) else {
            unreachable!()
        };
    }
}

// Opens a node under the lowest free numbers of an open file and of a descriptor.
fn open_node(
    tree: &mut Tree,
    files: &mut OpenFiles,
    processes: &mut Processes,
    pid: u32,
    node: u16,
    flags: OpenFlags,
) -> u8
    requires live { IsSome (process_in processes.old pid) }
    requires there { IsSome (node_at tree.old.tree node) }
    requires few { holds_at tree.old node < 65535 }
    requires room { CanOpen files.old.files (process_in processes.old pid) }
    ensures referenced { References node tree.old tree.new }
    ensures files { files.new
        ≡ with_opened files.old (least_free files.old.files) (new_open_file flags node) }
    ensures number { IsLeastDescriptor (process_in processes.old pid) result }
    ensures processes { processes.new ≡ updated_table processes.old pid
        (with_opened_descriptor (least_free files.old.files) flags.close_on_exec) }
{
    let Ok(file) = files.add(node, flags.mode, flags.append) else {
        unreachable!()
    };
    tree.hold(node);
    let Ok(number) = give_descriptor(processes, pid, file, flags.close_on_exec) else {
        unreachable!()
    };
    number
}

// Converts a descriptor number of a call. Returns `None` if it is not from 0 to 15.
fn number_of(e: i32) -> Option<u8>
    ensures { result ≡ within 15 e }
{
    match u8::try_from(e) {
        Ok(number) if (number as usize) < DESCRIPTORS => Some(number),
        _ => None,
    }
}
