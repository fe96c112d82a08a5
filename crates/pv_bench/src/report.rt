//! Printing results.
ghost use Rattle.std.specs.Prelude.{◌≡◌, ◌*◌, ◌/◌, max};

use crate::long_directory::MOST;
use crate::rounds::Moved;
use std::io;
use std::time::Duration;

/// The number of operations of a round.
#[derive(Clone, Copy, Debug, PartialEq, Eq)]
pub enum Scale {
    /// A few thousand operations of each kind, without times.
    Small,
    /// A million operations of each kind, with times.
    Full,
}

impl Scale {
    /// Returns the number of operations in a round.
    pub fn operations(self) -> u32 {
        match self {
            Scale::Small => 3_000,
            Scale::Full => 1_000_000,
        }
    }

    /// Returns the number of names in the directory.
    pub fn names(self) -> u32 {
        match self {
            Scale::Small => 200,
            Scale::Full => MOST,
        }
    }
}

/// A measurement.
#[derive(Clone, Copy)]
pub struct Measured {
    /// The kind of operation.
    pub work: &'static str,
    /// The number of bytes of each operation.
    pub size: usize,
    /// The number of operations.
    pub operations: u32,
    /// The bytes that the operations moved.
    pub moved: Moved,
    /// The time that they took.
    pub time: Duration,
}

// Returns the operations per second of `operations` that took `micros` microseconds. A time of zero counts as one
// microsecond.
fn rate(operations: u32, micros: u64) -> u64
    ensures { result ≡ operations * 1_000_000 / max micros 1 }
{
    u64::from(operations) * 1_000_000 / micros.max(1)
}

// Prints the time of the operations if the scale is full, and ends the line.
fn end_line<R: Print>(rt: &R, scale: Scale, operations: u32, time: Duration) -> io::Result<()> {
    if scale == Scale::Full {
        let micros = u64::try_from(time.as_micros()).unwrap_or(u64::MAX);
        let millis = micros / 1_000;
        let rate = rate(operations, micros);
        print!(rt; ", {millis} ms, {rate} a second")?;
    }
    println!(rt)
}

/// Prints the line of a measurement with names. If the scale is full, the line has the time.
pub fn report_names<R: Print>(
    rt: &R,
    scale: Scale,
    work: &'static str,
    names: u32,
    time: Duration,
) -> io::Result<()> {
    print!(rt; "{work}: {names} names")?;
    end_line(rt, scale, names, time)
}

/// Prints the line of a measurement. If the scale is full, the line has the time.
pub fn report<R: Print>(rt: &R, scale: Scale, measured: &Measured) -> io::Result<()> {
    let Measured {
        work,
        size,
        operations,
        moved,
        time,
    } = *measured;
    let Moved { bytes, sum } = moved;
    print!(rt; "{work} {size}: {operations} operations, {bytes} bytes, first bytes sum to {sum}")?;
    end_line(rt, scale, operations, time)
}
