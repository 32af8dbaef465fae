//! Marks of numbers, by which it is told at once of most numbers whether they are in a list.

ghost use Rattle.std.specs.Prelude.{◌≡◌, ◌<◌, not, IsTrue};
ghost use Rattle.point_order.specs.Sets.{IsIn, IsAscending, is_among};
ghost use Rattle.cell_stars.specs.Moves.{AreMarked};

use crate::numbers::is_listed;

// The marks of numbers, each at the rest of a division by 2048: where in the list the last number with that rest is
// likely to stand, counted from 1, and 0 where there is none.
pub(crate) type Marks = [u8; 2048];

// The mark of a number that stands at a place.
fn mark_of(at: usize) -> u8
    ensures { 0 < result }
{
    if at < 255 { at as u8 + 1 } else { 255 }
}

// The marks of the numbers of a list.
pub(crate) fn marks_of(list: &[u32]) -> Marks
    ensures { AreMarked result list.now }
{
    let mut marks = [0; 2048];
    for (at, i) in list.iter().enumerate() {
        marks[(*i % 2048) as usize] = mark_of(at);
    }
    marks
}

// Whether the number stands at the place that the mark tells.
fn is_at_mark(list: &[u32], mark: u8, i: u32) -> bool
    ensures { IsTrue result → IsIn i list.now }
{
    let at = usize::from(mark).wrapping_sub(1);
    if at < list.len() {
        list[at] == i
    } else {
        false
    }
}

// Whether the number is none of the list, if that ascends and has these marks.
pub(crate) fn is_unmarked(list: &[u32], marks: &Marks, i: u32) -> bool
    ensures { IsAscending list.now → AreMarked marks.now list.now → result ≡ not (is_among i list.now) }
{
    let mark = marks[(i % 2048) as usize];
    if mark == 0 {
        return true;
    }
    if is_at_mark(list, mark, i) {
        return false;
    }
    !is_listed(list, i)
}
