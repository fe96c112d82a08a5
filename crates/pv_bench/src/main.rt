//! `pv_bench`: a benchmark of files and directories on blocks.
//!
//! It measures images of both versions in turn. Without arguments it runs a small round and prints its operations and
//! the checksum of the bytes, which are the same on each run. With the argument `full` it runs a million operations of
//! each kind and also prints the times.
//!
//! `image` has the sizes of the images, `long_file` the file that is measured, `rounds` the operations on it,
//! `long_directory` the directory, and `report` prints the results.
#![tactic(auto)]

ghost use Rattle.std.specs.Prelude.{◌≡◌, ◌<◌, ◌≤◌, length};

mod image;
mod long_directory;
mod long_file;
mod report;
mod rounds;

use anyhow::{Context, Result, bail};
use long_directory::{LongDirectory, name_of};
use long_file::LongFile;
use pv_model::{Name, Version};
use report::{Measured, Scale, report, report_names};
use rounds::{fill, read_round, sum_of, write_round};
use std::env;
use std::time::Instant;

/// The lengths of the reads and writes.
const SIZES: [usize; 3] = [64, 512, 4_096];

// Writes and then reads chunks of one length, over the whole file.
fn measure_chunks(
    rt: &HostRuntime,
    scale: Scale,
    file: &mut LongFile,
    buffer: &mut [u8],
) -> Result<()>
    requires some { 0 < length buffer.old }
    requires fits { length buffer.old ≤ file.old.length }
    ensures { file.new.length ≡ file.old.length }
{
    fill(buffer);
    let operations = scale.operations();
    let size = buffer.len();
    let start = Instant::now(rt)?;
    let moved = write_round(file, buffer, operations)
        .ok()
        .context("the file has room")?;
    let time = start.elapsed(rt)?;
    let written = Measured {
        work: "write",
        size,
        operations,
        moved,
        time,
    };
    report(rt, scale, &written)?;
    let start = Instant::now(rt)?;
    let moved = read_round(file, buffer, operations);
    let time = start.elapsed(rt)?;
    let read = Measured {
        work: "read",
        size,
        operations,
        moved,
        time,
    };
    report(rt, scale, &read)?;
    Ok(())
}

// Measures a file of the maximum length, and prints the checksum of its bytes.
fn measure_file(rt: &HostRuntime, scale: Scale, version: Version) -> Result<()> {
    let mut file = LongFile::new(rt.alloc(), version)?;
    for size in SIZES {
        let mut buffer = vec![in rt.alloc(); 0; size]?;
        measure_chunks(rt, scale, &mut file, &mut buffer)?;
    }
    let mut whole = vec![in rt.alloc(); 0; file.length() as usize]?;
    let bytes = file.read(0, &mut whole);
    let sum = sum_of(&whole);
    println!(rt; "file of {bytes} bytes, which sum to {sum}")?;
    Ok(())
}

// Adds names to a directory, looks up each, and lists them.
fn measure_directory(rt: &HostRuntime, scale: Scale, version: Version) -> Result<()> {
    let mut directory = LongDirectory::new(rt.alloc(), version)?;
    let start = Instant::now(rt)?;
    for number in 0..scale.names() {
        directory.add(&name_of(number))?;
    }
    report_names(rt, scale, "add", scale.names(), start.elapsed(rt)?)?;
    let start = Instant::now(rt)?;
    let mut found = 0_u32;
    for number in 0..scale.names() {
        if directory.has(&name_of(number)) {
            found = found.wrapping_add(1);
        }
    }
    report_names(rt, scale, "find", found, start.elapsed(rt)?)?;
    let start = Instant::now(rt)?;
    let listed = list(&directory, scale.names());
    report_names(rt, scale, "list", listed, start.elapsed(rt)?)?;
    Ok(())
}

// Lists the names of a directory in order, at most `most`, and returns their number.
fn list(directory: &LongDirectory, most: u32) -> u32 {
    let mut last: Option<Name> = None;
    for listed in 0..most {
        match directory.next_after(last.as_ref().map(|name| name.as_slice())) {
            Some(name) => last = Some(name),
            None => return listed,
        }
    }
    most
}

// Returns the scale that the command line requests. The first word is the name of the program.
fn scale_of(words: &[String]) -> Result<Scale> {
    match words {
        [] | [_] => Ok(Scale::Small),
        [_, word] if word.as_str() == "full" => Ok(Scale::Full),
        _ => bail!("usage: pv_bench [full]"),
    }
}

fn main(rt: HostRuntime) -> Result<()> {
    let words: Vec<String> = env::args(&rt)?.collect(rt.alloc())?;
    let scale = scale_of(&words)?;
    for (number, version) in [(1, Version::V1), (2, Version::V2)] {
        println!(&rt; "version {number}")?;
        measure_file(&rt, scale, version)?;
        measure_directory(&rt, scale, version)?;
    }
    Ok(())
}
