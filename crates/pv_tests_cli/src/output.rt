//! Runs of the whole program over an output that takes nothing, even before it is flushed.
ghost use Rattle.std.specs.Prelude.{[], None};

use pv_cli_host::cli_commands::{Directories, Files, HostSystem, Unshown};
use pv_cli_host::host_copy::{
    HostDirectory, HostEntry, HostFault, HostFile, HostTarget, TargetFault,
};
use pv_cli_line::run;
use pv_streams::{Bytes, Failed, Gathered, Sink};
use std::alloc::{AllocError, Global};

// A sink that takes nothing.
#[derive(Drop)]
struct Broken {
    failures: u64,
}

impl Sink for Broken {
    ghost written = { λ _. None };

    ghost buffered = { λ _. 0 };

    ghost failures = { λ sink. sink.failures };

    fn write(&mut self, _buffer: &[u8]) -> Result<usize, Failed> {
        self.failures = self.failures.saturating_add(1);
        Err(Failed)
    }

    fn flush(&mut self) -> Result<(), Failed> {
        Ok(())
    }
}

// Files, none of which exists or can be created.
#[derive(Drop)]
struct NoFiles;

impl Files for NoFiles {
    type Reader = Bytes<'static>;

    type Writer = Broken;

    ghost bytes = { λ _ _. None };

    ghost file_of = { λ _. [] };

    ghost created = { λ _. [] };

    ghost entries = { λ _ _. None };

    ghost targets = { λ _. [] };

    fn open(&self, _name: &str) -> Result<Bytes<'static>, Failed> {
        Err(Failed)
    }

    fn create(&mut self, _alloc: Global, _name: &str) -> Result<Broken, AllocError> {
        Err(AllocError)
    }

    fn read_reason(&self, _alloc: Global, _name: &str) -> Option<String> {
        None
    }

    fn write_reason(&self, _alloc: Global, _name: &str) -> Option<String> {
        None
    }

    fn is_regular(&self, _name: &str) -> bool {
        false
    }
}

impl HostFile for Broken {
    ghost bytes = { λ _. None };

    fn read(&mut self, _buffer: &mut [u8]) -> Result<usize, Failed> {
        Err(Failed)
    }
}

// An empty directory.
#[derive(Drop)]
struct Empty;

impl HostDirectory for Empty {
    type Reader = Broken;

    ghost rest = { λ _. None };

    ghost last = { λ _. None };

    ghost left = { λ _. 0 };

    ghost ascends = { λ _. tt };

    fn next(&mut self, _alloc: Global) -> Result<Option<HostEntry<Empty, Broken>>, HostFault> {
        Ok(None)
    }
}

// A directory in which nothing can be made.
#[derive(Drop)]
struct NoTarget;

impl HostTarget for NoTarget {
    ghost made = { λ _. None };

    fn make_directory(&mut self, _alloc: Global, _path: &[u8]) -> Result<(), TargetFault> {
        Err(TargetFault::Make)
    }

    fn make_file(
        &mut self,
        _alloc: Global,
        _path: &[u8],
        _executable: bool,
        _bytes: &[u8],
    ) -> Result<(), TargetFault> {
        Err(TargetFault::Make)
    }

    fn make_link(&mut self, _alloc: Global, _path: &[u8], _text: &[u8]) -> Result<(), TargetFault> {
        Err(TargetFault::Make)
    }

    fn make_name(
        &mut self,
        _alloc: Global,
        _path: &[u8],
        _source: &[u8],
    ) -> Result<(), TargetFault> {
        Err(TargetFault::Make)
    }
}

impl Directories for NoFiles {
    type Directory = Empty;

    type Target = NoTarget;

    ghost target_of = { λ _. [] };

    fn open_directory(&self, _alloc: Global, _name: &str) -> Result<Empty, HostFault> {
        Err(HostFault::Read)
    }

    fn create_directory(&mut self, _alloc: Global, _name: &str) -> Result<NoTarget, TargetFault> {
        Err(TargetFault::Make)
    }
}

// Words that make the program write something, and the text on the standard error if the output takes nothing: without
// arguments, the trace of the bundle on the standard input.
const WORDS: &[(&[&str], &[u8])] = &[
    (&["pvsim", "--help"], b"pvsim: write\n"),
    (&["pvsim", "--version"], b"pvsim: write\n"),
    (&["pvsim"], b"pvsim: write\n  standard output\n"),
];

#[test]
fn an_output_that_takes_nothing_is_a_failed_write(rt: HostRuntime) {
    for (words, message) in WORDS {
        let mut system = HostSystem {
            files: NoFiles,
            input: Bytes::new(b"image 2 1\nschedule\n1\n"),
            output: Broken { failures: 0 },
            errors: Gathered::new(rt.alloc()),
        };
        assert!(rt; run(rt.alloc(), *words, &mut system, &mut Unshown) == 4);
        assert!(rt; system.errors.bytes.as_slice() == *message);
    }
}
