//! Tests of the storage crates and of the crates on top of them.
//!
//! Each test module tests one crate or type: `blocks`, `inodes`, `directories` and `tree` the storage of an image,
//! `unveil` unveil tables, `namei` path walks, `cache` the name cache, and `files` open files and descriptors. `trees`
//! creates the trees that tests use. `answers` and `store_answers` have assertions.
#![tactic(auto)]

#[cfg(test)]
mod answers;
#[cfg(test)]
mod blocks;
#[cfg(test)]
mod cache;
#[cfg(test)]
mod directories;
#[cfg(test)]
mod files;
#[cfg(test)]
mod inodes;
#[cfg(test)]
mod namei;
#[cfg(test)]
mod store_answers;
#[cfg(test)]
mod tree;
#[cfg(test)]
mod trees;
#[cfg(test)]
mod unveil;
