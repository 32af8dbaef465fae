//! The words of a command line: what they ask for, and why a run stops, with the status and the line of each stop.
//!
//! ```
//! let task = read_words(alloc, &words)?;       // what is to be done
//! let (status, line) = Stop::Usage.told();     // 2, and a line that tells it
//! ```
#![tactic(auto)]

mod stop;
mod task;
mod words;

pub use stop::Stop;
pub use task::{Asked, Drawn, Making, Task, Wanted};
pub use words::read_words;
