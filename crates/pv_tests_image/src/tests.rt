//! Tests of importing and exporting a synthetic directory.
use crate::directory::MadeUp;
use crate::target::{Made, MemoryTarget};
use pv_host_copy::{Imported, export, import_tree};
use pv_model::Version;
use std::alloc::Global;
use std::test::Fail;

// Appends a line: a letter, a path, and the contents.
fn push_line(lines: &mut Vec<u8>, letter: u8, path: &[u8], content: &[u8]) -> Result<(), Fail> {
    lines.push(letter)?;
    lines.push(b' ')?;
    lines.extend_from_slice(path)?;
    lines.push(b' ')?;
    lines.extend_from_slice(content)?;
    lines.push(b'\n')?;
    Ok(())
}

// Returns a line for each entry that was created.
fn lines_of(alloc: Global, made: &[Made]) -> Result<Vec<u8>, Fail> {
    let mut lines = Vec::new(alloc);
    for one in made {
        match one {
            Made::Directory(path) => push_line(&mut lines, b'd', path, b"")?,
            Made::File {
                path,
                executable,
                bytes,
            } => push_line(
                &mut lines,
                if *executable { b'x' } else { b'f' },
                path,
                bytes,
            )?,
            Made::Link { path, text } => push_line(&mut lines, b'l', path, text)?,
            Made::Name { path, source } => push_line(&mut lines, b'n', path, source)?,
        }
    }
    Ok(lines)
}

#[test]
fn a_directory_there_and_back(rt: HostRuntime) -> Result<(), Fail> {
    let alloc = rt.alloc();
    let Imported { store, reported } = import_tree(alloc, Version::V1, MadeUp::Upper).expect(
        &rt,
        "it has room",
    );
    assert!(rt; reported.is_empty());
    let mut target = MemoryTarget::new(alloc);
    assert!(rt; export(alloc, store.tree(), &mut target).is_ok());
    let lines = lines_of(alloc, &target.made)?;
    let expected = b"d /a \nf /a/one abc\nn /a/two /a/one\nl /l a/one\nx /x exit 0\n";
    assert!(rt; lines.as_slice() == expected.as_slice());
    Ok(())
}
