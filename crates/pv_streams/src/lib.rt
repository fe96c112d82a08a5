//! Input and output streams.
//!
//! `Source` and `Sink` are the traits of `pv_model`, because the specification refers to them. `reading` reads a source
//! to its end, `writing` writes a slice of bytes in full, `buffered` buffers the output to a sink, and `memory`
//! implements a source and a sink over bytes in memory. `stop` has the reasons why a writer stops before the end.
//!
//! `fragments` defines the texts from which answers are composed, `numbers` has decimal numbers, and `escaped` the escaped form of bytes, with `plain`,
//! which counts bytes that need no escape. `gathered` has the bytes of a fragment in memory. `fixed_buffer` is a buffer of fixed capacity.
//!
//! Contracts describe a source by the bytes that remain, if they are known, and a sink by the bytes that were written
//! to it and the number of bytes that are buffered. They describe both by the number of failures.
#![tactic(auto)]

pub mod buffered;
mod escaped;
mod fixed_buffer;
mod fragments;
mod gathered;
pub mod memory;
mod numbers;
mod plain;
pub mod reading;
mod stop;
pub mod writing;

pub use buffered::{Buffered, CHUNK};
pub use escaped::{Escaped, Quoted, escape, write_quoted};
pub use fixed_buffer::FixedBuffer;
pub use fragments::{Fragment, Plain};
pub use gathered::{append, text_of};
pub use memory::{Bytes, Gathered};
pub use numbers::{Count, Decimal, write_decimal};
pub use plain::plain_count;
pub use pv_model::limits::SOURCE_BYTES;
pub use pv_model::{Failed, Sink, Source};
pub use reading::read_whole;
pub use stop::Stop;
pub use writing::{write_through, write_whole};
