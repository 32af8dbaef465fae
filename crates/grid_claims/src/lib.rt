//! The running table: a mesh that several threads edit.
//!
//! Each bucket lies in a slot of a table of `atomic_table`, or in the hands of one pass, and has a word that
//! tells which. The definitions stand in `specs/`: what each call makes of a pass. Those of the table as a board,
//! and of the rule that holds between any two steps, are in `claim_table`, whose law it passes on.
//!
//! ```
//! let (table, mut pass) = MeshTable::open(alloc, mesh, 2, 1000)?;   // two parts, and a thousand edits that may come
//! let mut other = table.split(alloc, &mut pass, 1, 500)?;           // for another thread, which shares `&table`
//! match table.try_edit(alloc, &mut other, tag, Edit::Add(p), &OpenGate) {
//!     Ok(receipt) => { .. }                                         // its number in the one history, and its reply
//!     Err(Refused::Busy { bucket, .. }) => { .. }                   // in another pass's hands: as before, try later
//!     Err(Refused::Spent | Refused::Memory) => { .. }               // as before too
//! }
//! let seen = table.try_snapshot(alloc, &mut pass);                  // the history so far and its complex, or Busy
//! table.join(&mut pass, other);                                     // when the threads are done
//! let mesh = table.close(pass);                                     // with all entries since in its history
//! ```
#![tactic(auto)]

mod claiming;
mod finish;
mod pass;
mod refused;
mod snapshot;
mod table;

pub use claim_table::laws;
pub use edit_gates::{Gate, Moment, OpenGate};
pub use edit_history::Receipt;
pub use pass::Pass;
pub use refused::Refused;
pub use snapshot::Snapshot;
pub use table::MeshTable;
