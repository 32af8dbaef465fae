//! Many threads on one mesh over buckets, each by a pass of its own, without a lock. A pass claims the buckets that an
//! edit needs, and is told which is out where one is. `run_edits` makes lists of edits that `deal` or the caller parts
//! by their points, each list by a worker of its own.

pub use edit_workers::{List, Lists, Segment, deal, deal_edits, run_edits};
pub use grid_claims::{Gate, MeshTable, Moment, OpenGate, Pass, Receipt, Refused, Snapshot};
