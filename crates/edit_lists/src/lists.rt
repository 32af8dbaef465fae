//! Lists of edits.

use edit_history::Edit;

/// The edits of one worker, each with its tag.
#[derive(Debug, Drop)]
pub struct List {
    pub pairs: Vec<(u32, Edit)>,
}

/// A list for each worker, of edits of which none that moves shares a point with another.
#[derive(Debug, Drop)]
pub struct Segment {
    pub each: Vec<List>,
}

/// Segments that are done one after another.
#[derive(Debug, Drop)]
pub struct Lists {
    pub segments: Vec<Segment>,
}
