//! What a run gives back.

use edit_history::Entry;

/// The end of a run: its status, and the history that it kept where a mesh was made.
#[derive(Debug, Drop)]
pub struct Run {
    /// 0 where the whole text was written; docs/FORMATS.md has a table of all.
    pub status: u8,
    /// The history of the run on 0, 4, 8 and 9, and else empty.
    pub kept: Vec<Entry>,
}
