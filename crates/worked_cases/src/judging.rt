//! Judging a history and its complex by another program: the replies of a set of
//! points, and trial of all quadruples and triples.

use complex_trial::complex_by_trial;
use edit_history::{Entry, PointSet};
use point_order::Cell;
use std::alloc::{AllocError, Global};

// Whether each entry has its place for its number, and the reply of the points before it, and the cells are those of
// the points that are left.
pub(crate) fn is_right(
    alloc: Global,
    history: &[Entry],
    complex: &[Cell],
) -> Result<bool, AllocError> {
    let mut set = PointSet::new(alloc);
    let mut right = true;
    for (place, entry) in history.iter().enumerate() {
        let reply = set.after(entry.edit)?;
        right = right && entry.number == place as u64 && entry.reply == reply;
    }
    let cells = complex_by_trial(alloc, set.points())?;
    Ok(right && cells.as_slice() == complex)
}
