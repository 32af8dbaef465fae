//! Keys of points, facets of cells, their order, and complexes by trial and at once.

use crate::reading::{Word, at, coordinates_of, list_at};
use crate::telling::Answer;
use complex_trial::complex_by_trial;
use edit_history::find_four;
use net_digs::complex_of_points;
use point_order::{Cell, Point, cells_in_order, points_in_order};
use std::alloc::Global;
use std::cmp::Ordering;

/// Answers a case of a key.
pub(crate) fn key(answer: &mut Answer, lists: &str) -> Option<()> {
    let (x, y, z) = coordinates_of(lists, ' ')?;
    match Point::new(x, y, z) {
        Ok(p) => write!(answer, "key {} of {} {} {}", p.key(), p.x(), p.y(), p.z()),
        Err(refused) => answer.put(refused),
    }
    Some(())
}

/// Answers a case of a cell.
pub(crate) fn parts(answer: &mut Answer, lists: &str) -> Option<()> {
    let cell = Cell::of(list_at(lists, 0))?;
    let p: Point = at(list_at(lists, 1), 0)?;
    let [first, second, third, last] = cell.facets();
    let is_own = cell.has(p);
    write!(
        answer,
        "{cell} with {first} {second} {third} {last}; {p} is its own: {is_own}"
    );
    Some(())
}

// How two cells stand to each other.
fn mark_of(a: &Cell, b: &Cell) -> char {
    if *a < *b {
        '<'
    } else if a.compare(b) == Ordering::Equal {
        '='
    } else {
        '>'
    }
}

// Cells, each behind a space.
fn put_cells(answer: &mut Answer, cells: &[Cell]) {
    for cell in cells {
        write!(answer, " {cell}");
    }
}

/// Answers a case of an order.
pub(crate) fn order(answer: &mut Answer, lists: &str) -> Option<()> {
    let cells: Vec<Cell> = answer.all_between(lists, ';');
    for a in &cells {
        for b in &cells {
            answer.put(mark_of(a, b));
        }
        answer.put(' ');
    }
    answer.put("in order");
    put_cells(answer, &cells_in_order(cells));
    Some(())
}

/// Answers a case of a trial.
pub(crate) fn trial(alloc: Global, answer: &mut Answer, lists: &str) -> Option<()> {
    let points = points_in_order(answer.all(lists));
    let cells = answer.got(complex_by_trial(alloc, &points))?;
    answer.put("cells");
    put_cells(answer, &cells);
    Some(())
}

/// Answers a case of a cloud. Points of a plane are none.
pub(crate) fn cloud(alloc: Global, answer: &mut Answer, lists: &str) -> Option<()> {
    let points = points_in_order(answer.all(lists));
    if find_four(&points).is_err() {
        return None;
    }
    let cells = answer.got(complex_of_points(alloc, &points))?;
    answer.put("cells");
    put_cells(answer, &cells);
    Some(())
}
