//! What is left of a list of edits.

use edit_history::Edit;

/// The edits of a list that were not made, each with its tag.
#[derive(Debug, Drop)]
pub struct Left {
    pub pairs: Vec<(u32, Edit)>,
}
