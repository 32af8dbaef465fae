//! The outside of a program as traits: sources and sinks of bytes that count their faults.
//! The bytes of the ends in memory can be seen by a contract. The real ends tell nothing of bytes.
//!
//! ```
//! let mut sink = MemSink::new(alloc, 142, 10, &[3])?;  // room for 142 bytes, at most 10 a call; the third call fails
//! write_all(&mut sink, text)?;                         // all of it, or a front and Failed
//! ```
#![tactic(auto)]

mod ends;
mod in_memory;
mod loops;
mod real;

pub use ends::{Failed, Sink, Source};
pub use in_memory::{MemSink, MemSource};
pub use loops::{Reached, ReadError, read_to_limit, write_all};
pub use real::{Reading, StdSink, StdSource, StdStream, Writing};
