//! A mesh of one thread that a caller in another language holds by a pointer, its edits and looks, one by one or many
//! at once.
//!
//! The caller keeps a `MeshHandle`, which is one pointer: null, or a mesh on the heap. A call takes the mesh out, works
//! on it and puts it back, so every call but `open` and `close` finds a mesh there or says that there is none. Only
//! `loose` and `handle` see a pointer; their proofs are by hand.
//!
//! ```
//! let mut handle = MeshHandle::empty();
//! open(alloc, &mut handle, &places)?;              // in any order; of which some may be equal
//! let reply = add(alloc, &mut handle, &place)?;    // want of memory leaves the mesh as before
//! let far = edit_many(alloc, &mut handle, &edits, &mut replies);  // so many, up to the first that is refused
//! let made = rows(alloc, &mut handle)?;            // points, cells, neighbours, hull
//! free(alloc, handle);                          // a handle is not dropped
//! ```
#![tactic(auto)]

mod edits;
mod handle;
mod looks;
mod loose;
mod many;
mod opening;
mod place;
mod refusal;
mod replies;

pub use edits::{add, shift, take};
pub use handle::{MeshHandle, free};
pub use looks::{Located, find, nearest_to, rows};
pub use many::{EditRow, Progress, edit_many, find_many, nearest_to_many};
pub use opening::{close, open};
pub use place::Location;
pub use refusal::Refusal;
pub use replies::number_of;
