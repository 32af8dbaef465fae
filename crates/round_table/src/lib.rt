//! The table from which the workers of a round claim buckets by value.
//!
//! What there is lies in buckets, each in a slot of a table, which has a word for each bucket: 0 while the content is
//! in its slot, else one more than the number of the pass that has it. A pass claims a bucket by one compare-exchange
//! of its word and takes the content out by value; where the word is not 0 it is told whose it is. Nothing is put back
//! in a round, so a bucket is claimed at most once. When all workers have ended, the table is closed with all passes:
//! what they claimed and what is left in the slots is all that there was, each once.
//!
//! ```
//! let (table, workers) = RoundTable::open(alloc, contents, states)?;   // a pass for each state, numbered from 0
//! match table.claim(&mut worker.pass, bucket) {                        // in a thread, which shares `&table`
//!     Ok(content) => { .. }                                            // it is the worker's to the end of the round
//!     Err(whose) => { .. }                                             // in the hands of this pass, maybe its own
//! }
//! let (states, rest) = table.close(alloc, workers)?;                   // what no pass has claimed, at its bucket
//! ```
#![tactic(auto)]

mod closing;
pub mod laws;
mod opening;
mod pass;
mod plays;
mod running;
mod table;
mod taking;
mod view;
mod worker;

pub use pass::Pass;
pub use running::{Job, round, work_side_by_side};
pub use table::RoundTable;
pub use taking::{Takes, Taking, take_side_by_side};
pub use worker::Worker;
