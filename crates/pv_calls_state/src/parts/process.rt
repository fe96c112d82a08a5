//! Changes within one process.
ghost use Rattle.std.specs.Prelude.{◌≡◌, ◌<◌, ◌≤◌, ◌++◌, drop, length, IsSome, IsTrue, true};
ghost use Rattle.pv_model.specs.Machine.{at_next_line, with_front, update, with_result, Process, process_at, is_file, node_at};
ghost use Rattle.pv_calls_state.specs.Changes.{IsRegistered, PassesInside, bytes_read};
ghost use Rattle.pv_procs.specs.Turns.{AwaitsCall};

use super::Parts;
use pv_model::limits::BUFFER;
use pv_procs::Fetched;
use pv_procs::promises::Pledge;
use pv_procs::script::CallTexts;
use pv_procs::unveil::tree::Tree;

// Reads at most `count` bytes of a file, from offset `at`, to the front of a buffer. Returns the number of bytes read.
fn read_part(tree: &Tree, node: u16, at: u32, count: usize, buffer: &mut [u8]) -> usize
    requires file { IsTrue (is_file (node_at tree.now.tree node)) }
    requires room { count ≤ length buffer.old }
    ensures count { result ≡ length (bytes_read tree.now.tree node at count) }
    ensures front { let bytes = bytes_read tree.now.tree node at count in
        buffer.new ≡ bytes ++ drop (length bytes) buffer.old }
{
    tree.read_at(node, at, &mut buffer[..count])
}

impl Parts {
    /// Takes the next instruction of a process. An instruction on registers or a jump is carried out. A call is
    /// returned, with its texts kept in `texts`; past the last line the call is `exit 0`.
    #[inline(always)]
    pub fn step_or_fetch<'a>(&mut self, pid: u32, texts: &'a mut CallTexts) -> Fetched<'a>
        ensures { IsRegistered result pid self.old self.new }
    {
        self.processes.invariant();
        self.processes.step_or_fetch(pid, texts)
    }

    /// Carries out the next register instructions and jumps of a process, at most `most`, and returns their number: 0
    /// if the process is not live.
    pub fn pass(&mut self, pid: u32, most: u32) -> u32
        ensures few { result ≤ most }
        ensures made { PassesInside result pid self.old self.new }
        ensures whole { result < most → AwaitsCall (process_at self.new pid) }
    {
        self.processes.invariant();
        self.processes.pass(pid, most)
    }

    /// Moves a live process to its next line, at most to the one after the last.
    pub fn advance(&mut self, pid: u32)
        requires { IsSome (process_at self.old pid) }
        ensures { self.new ≡ update self.old pid at_next_line }
    {
        self.processes.invariant();
        self.processes.advance(pid);
    }

    /// Reports the result of a call to a live process: `value` in r0 and `error` in r1, which is 0 on success.
    pub fn report(&mut self, pid: u32, value: i32, error: u16)
        requires { IsSome (process_at self.old pid) }
        ensures { self.new ≡ update self.old pid (λ p. with_result p value error) }
    {
        self.processes.invariant();
        self.processes.report(pid, value, error);
    }

    /// Copies bytes, at most 4,096, to the front of a live process's buffer.
    pub fn put_front(&mut self, pid: u32, bytes: &[u8])
        requires live { IsSome (process_at self.old pid) }
        requires size { length bytes.now ≤ BUFFER }
        ensures { self.new ≡ update self.old pid (with_front bytes.now) }
    {
        self.processes.invariant();
        self.processes.put_front(pid, bytes);
    }

    /// Reads at most `count` bytes of a file, 4,096 at most, from offset `at` to the front of a live process's buffer.
    /// Returns the number of bytes read: fewer than `count` if the file ends, and 0 past its end.
    pub fn read_front(&mut self, pid: u32, node: u16, at: u32, count: usize) -> usize
        requires live { IsSome (process_at self.old pid) }
        requires file { IsTrue (is_file (node_at self.old.tree node)) }
        requires few { count ≤ BUFFER }
        ensures count { result ≡ length (bytes_read self.old.tree node at count) }
        ensures front { self.new
            ≡ update self.old pid (with_front (bytes_read self.old.tree node at count)) }
    {
        self.processes.invariant();
        let buffer = self.processes.record_mut(pid).context.buffer_mut();
        read_part(&self.tree, node, at, count, buffer)
    }

    /// Sets the promises and execpromises of a live process.
    pub fn set_pledge(&mut self, pid: u32, pledge: Pledge)
        requires { IsSome (process_at self.old pid) }
        ensures { self.new ≡ update self.old pid
            (λ p. record p { promises = pledge.promises; execpromises = pledge.execpromises }) }
    {
        self.processes.invariant();
        self.processes.record_mut(pid).pledge = pledge;
    }

    /// Locks the unveil table of a live process.
    pub fn lock(&mut self, pid: u32)
        requires { IsSome (process_at self.old pid) }
        ensures { self.new ≡ update self.old pid (λ p. record p { locked = true }) }
    {
        self.processes.invariant();
        self.processes.record_mut(pid).unveiled.lock();
    }
}
