//! Offsets and bytes of open files.
ghost use Rattle.std.specs.Prelude.{◌≡◌, ◌≤◌, ◌<◌, IsSome, IsTrue, IfErr, OnOk, OnErr, Some, option_map};
ghost use Rattle.pv_laws_states.specs.States.{IsValid};
ghost use Rattle.pv_model.specs.declared.limits.TheConstants.{BUFFER};
ghost use Rattle.pv_model.specs.Machine.{with_file, at_number, is_file, process_at, node_at};
ghost use Rattle.pv_calls_state.specs.Changes.{ChangesTree};
ghost use Rattle.pv_calls_state.specs.Writing.{IsOnFile, LacksRoomForFront, WritesFront};
ghost use Rattle.pv_procs.specs.OfTree.Changes.{resized_tree};

use super::Parts;
use pv_model::Name;
use pv_procs::unveil::tree::Space;

impl Parts {
    /// Sets the offset of an open file, for all its users.
    pub fn set_offset(&mut self, file: usize, offset: u32)
        requires { IsSome (at_number self.old.files file) }
        ensures { option_map (λ f. with_file self.old file (record f { offset = offset }))
            (at_number self.old.files file) ≡ Some self.new }
    {
        self.files.set_offset(file, offset);
    }

    /// Sets the last name that getdents(2) gave from an open file.
    pub fn set_last_name(&mut self, file: usize, name: Name)
        requires { IsSome (at_number self.old.files file) }
        ensures { option_map (λ f. with_file self.old file (record f { listed = Some name }))
            (at_number self.old.files file) ≡ Some self.new }
    {
        self.files.set_last_name(file, name);
    }

    /// Writes the first `count` bytes of a live process's buffer, 1 to 4,096, through an open file at offset `at`, and
    /// moves the offset past them. If `at` is past the end, the gap is filled with zeros.
    ///
    /// # Errors
    ///
    /// - `TooBig`, if the file would exceed its maximum length.
    /// - `Full`, if the image has too few free blocks.
    ///
    /// The state is unchanged after an error.
    pub fn write_front(&mut self, pid: u32, file: usize, at: u32, count: usize) -> Result<(), Space>
        requires whole { IsValid self.old }
        requires live { IsSome (process_at self.old pid) }
        requires some { 0 < count }
        requires few { count ≤ BUFFER }
        requires on_file { IsOnFile self.old file }
        ensures written { OnOk result (WritesFront self.old pid file at count self.new) }
        ensures refused { IfErr result (LacksRoomForFront self.old pid file at count) }
        ensures unchanged { OnErr result (self.new ≡ self.old) }
    {
        self.tree.invariant();
        self.files.invariant();
        let node = self.files.node(file);
        let buffer = self.processes.record(pid).context.buffer();
        self.tree.write_at(node, at, &buffer[..count])?;
        self.files.set_offset(file, at + count as u32);
        Ok(())
    }

    /// Truncates a file to `size` bytes, or extends it to them with zeros.
    ///
    /// # Errors
    ///
    /// As for `write_front`.
    pub fn resize(&mut self, node: u16, size: u32) -> Result<(), Space>
        requires whole { IsValid self.old }
        requires file { IsTrue (is_file (node_at self.old.tree node)) }
        ensures { ChangesTree result self.old self.new (resized_tree self.old.tree node size) }
    {
        self.tree.invariant();
        self.files.invariant();
        self.tree.cut(node, size)
    }
}
