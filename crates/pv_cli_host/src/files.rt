//! Files of the operating system.
ghost use Rattle.std.specs.Prelude.{◌≡◌, ◌≤◌, ◌++◌, ◌∷◌, ℕ, List, [], length, map, None, IfOk, OnErr, OnOk};
ghost use Rattle.std.specs.String.{string_bytes};

use crate::output::counted;
use pv_cli_commands::Files;
use pv_streams::{Failed, Sink, Source};
use std::alloc::{AllocError, Global};
use std::fs;
use std::fs::File;
use std::io::{ErrorKind, Read, Write};

/// The files of the operating system. Their contracts do not know their bytes.
#[derive(Drop)]
pub struct HostFiles<'a> {
    rt: &'a HostRuntime,
    // The names of the files and of the directories that were created, in order.
    created: Vec<String>,
    targets: Vec<String>,
}

impl<'a> HostFiles<'a> {
    /// Returns the files of the operating system of a runtime. None is created yet.
    pub fn new(rt: &'a HostRuntime) -> HostFiles<'a>
        ensures runtime { result.rt ≡ rt.entry }
        ensures created { (result.created.items ≡ []) × (result.targets.items ≡ []) }
    {
        HostFiles {
            rt,
            created: Vec::new(rt.alloc()),
            targets: Vec::new(rt.alloc()),
        }
    }

    // Returns the runtime.
    pub(crate) fn runtime(&self) -> &'a HostRuntime {
        self.rt
    }

    // Adds the name of a directory to those that were created.
    pub(crate) fn push_target(&mut self, alloc: Global, name: &str) -> Result<(), AllocError>
        ensures pushed { OnOk result (map string_bytes self.new.targets.items ≡ map string_bytes self.old.targets.items ++ name.now ∷ []) }
        ensures kept { OnErr result (self.new.targets.items ≡ self.old.targets.items) }
        ensures rest { self.new ≡ record self.old { targets = self.new.targets } }
    {
        let name = String::from_str(alloc, name)?;
        match self.targets.push(name) {
            Ok(()) => Ok(()),
            Err(_) => Err(AllocError),
        }
    }

    // Removes the last name of a directory.
    pub(crate) fn pop_target(&mut self)
        ensures popped { (names : List (List ℕ)) (name : List ℕ) → map string_bytes self.old.targets.items ≡ names ++ name ∷ [] → map string_bytes self.new.targets.items ≡ names }
        ensures rest { self.new ≡ record self.old { targets = self.new.targets } }
    {
        let _name = self.targets.pop();
    }
}

impl<'a> Files for HostFiles<'a> {
    type Reader = OpenedFile;

    type Writer = WrittenFile<'a>;

    ghost bytes = { λ _ _. None };

    ghost file_of = { λ writer. string_bytes writer.name };

    ghost created = { λ files. map string_bytes files.created.items };

    ghost entries = { λ _ _. None };

    ghost targets = { λ files. map string_bytes files.targets.items };

    fn open(&self, name: &str) -> Result<OpenedFile, Failed> {
        match fs::open(self.rt, name) {
            Ok(file) => Ok(OpenedFile {
                file,
                given: 0,
                failures: 0,
            }),
            Err(_) => Err(Failed),
        }
    }

    fn create(&mut self, alloc: Global, name: &str) -> Result<WrittenFile<'a>, AllocError> {
        let writer = WrittenFile {
            rt: self.rt,
            name: String::from_str(alloc, name)?,
            file: None,
            failures: 0,
        };
        let name = String::from_str(alloc, name)?;
        match self.created.push(name) {
            Ok(()) => Ok(writer),
            Err(_) => Err(AllocError),
        }
    }

    fn read_reason(&self, alloc: Global, name: &str) -> Option<String> {
        match fs::open(self.rt, name) {
            Ok(mut file) => match file.read(&mut [0]) {
                Ok(_) => None,
                Err(error) => format!(in alloc; "{error}").ok(),
            },
            Err(error) => format!(in alloc; "{error}").ok(),
        }
    }

    fn write_reason(&self, alloc: Global, name: &str) -> Option<String> {
        match File::options().write(true).open(self.rt, name) {
            Ok(_) => None,
            Err(error) if error.kind() == ErrorKind::NotFound && has_directory(self.rt, name) => {
                None
            }
            Err(error) => format!(in alloc; "{error}").ok(),
        }
    }

    fn is_regular(&self, name: &str) -> bool {
        match fs::metadata(self.rt, name) {
            Ok(metadata) => metadata.is_file(),
            Err(_) => false,
        }
    }
}

// Returns whether the directory that would contain the file with a name can be inspected.
fn has_directory(rt: &HostRuntime, name: &str) -> bool {
    let directory = match name.rsplit_once('/') {
        None => ".",
        Some(("", _)) => "/",
        Some((directory, _)) => directory,
    };
    fs::metadata(rt, directory).is_ok()
}

/// A sink over a file that is created or truncated at the first write. Its contract does not know the bytes that it
/// received.
#[derive(Drop)]
pub struct WrittenFile<'a> {
    rt: &'a HostRuntime,
    name: String,
    file: Option<File>,
    failures: u64,
}

impl WrittenFile<'_> {
    // Writes to the file, which is first created or truncated if it is not open.
    fn write_bytes(&mut self, buffer: &[u8]) -> Result<usize, Failed>
        ensures bound { IfOk result (λ n. n ≤ length buffer.now) }
        ensures name { self.new.name ≡ self.old.name }
        ensures failures { self.new.failures ≡ self.old.failures }
    {
        if self.file.is_none() {
            self.file = fs::create(self.rt, self.name.as_str()).ok();
        }
        let Some(file) = &mut self.file else {
            return Err(Failed);
        };
        match file.write(buffer) {
            Ok(count) => Ok(count),
            Err(_) => Err(Failed),
        }
    }
}

impl Sink for WrittenFile<'_> {
    ghost written = { λ _. None };

    ghost buffered = { λ _. 0 };

    ghost failures = { λ s. s.failures };

    fn write(&mut self, buffer: &[u8]) -> Result<usize, Failed> {
        let written = self.write_bytes(buffer);
        counted(written, buffer, &mut self.failures)
    }

    fn flush(&mut self) -> Result<(), Failed> {
        Ok(())
    }
}

/// A source over an opened file. Its contract does not know the bytes that it will give.
#[derive(Drop)]
pub struct OpenedFile {
    file: File,
    given: u64,
    failures: u64,
}

impl Source for OpenedFile {
    ghost remaining = { λ _. None };

    ghost given = { λ s. s.given };

    ghost failures = { λ s. s.failures };

    fn read(&mut self, buffer: &mut [u8]) -> Result<usize, Failed> {
        match self.file.read(buffer) {
            Ok(count) => {
                self.given = self.given.saturating_add(count as u64);
                Ok(count)
            }
            Err(_) => {
                self.failures = self.failures.saturating_add(1);
                Err(Failed)
            }
        }
    }
}
