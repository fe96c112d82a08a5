//! Tests of the commands and the program that cannot be written as cases for `pvsim`: streams that fail, and error
//! messages that it never writes.
//!
//! All modules are tests. `bundles` and `failing` make, list, audit and run with sources and sinks that fail
//! (`streams`); `images` has their example. `faults` tests messages, `output` runs the whole program over an output
//! that takes nothing, and `host` tests the streams of the operating system. The directory `cases/` tests whole runs of
//! the program.
#![tactic(auto)]

#[cfg(test)]
mod bundles;
#[cfg(test)]
mod failing;
#[cfg(test)]
mod faults;
#[cfg(test)]
mod host;
#[cfg(test)]
mod images;
#[cfg(test)]
mod output;
#[cfg(test)]
mod streams;
