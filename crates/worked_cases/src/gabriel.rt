//! Gabriel edges and triangles of a complex, each judged by its link.

use crate::reading::list_at;
use crate::telling::Answer;
use gabriel_faces::{gabriel_edge, gabriel_triangle};
use point_order::Point;
use std::alloc::Global;

// Puts the points of these digits behind others, but for those of a face.
fn put_corners(
    answer: &mut Answer,
    corners: &mut Vec<Point>,
    points: &[Point],
    digits: &str,
    face: &str,
) {
    for digit in digits.bytes() {
        if !face.as_bytes().contains(&digit)
            && let Some(p) = points.get(digit.wrapping_sub(b'0') as usize)
            && corners.push(*p).is_err()
        {
            answer.fail();
        }
    }
}

// Whether the edge or the triangle is Gabriel, by its link: the points of the cells that contain it, but for its own.
fn is_gabriel(
    alloc: Global,
    answer: &mut Answer,
    points: &[Point],
    cells: &str,
    face: &str,
) -> Option<bool> {
    let (mut own, mut link) = (Vec::new(alloc), Vec::new(alloc));
    put_corners(answer, &mut own, points, face, "");
    for cell in cells.split_whitespace() {
        if face.bytes().all(|digit| cell.as_bytes().contains(&digit)) {
            put_corners(answer, &mut link, points, cell, face);
        }
    }
    match *own {
        [a, b] => Some(gabriel_edge(a, b, &link)),
        [a, b, c] => Some(gabriel_triangle(a, b, c, &link)),
        _ => None,
    }
}

/// Answers a case of Gabriel faces.
pub(crate) fn faces(alloc: Global, answer: &mut Answer, lists: &str) -> Option<()> {
    let points: Vec<Point> = answer.all(list_at(lists, 0));
    answer.put("not Gabriel");
    let mut count: u64 = 0;
    for face in list_at(lists, 2).split_whitespace() {
        match is_gabriel(alloc, answer, &points, list_at(lists, 1), face) {
            Some(true) => count = count.saturating_add(1),
            Some(false) => write!(answer, " {face}"),
            None => write!(answer, " no face {face}"),
        }
    }
    write!(answer, "; {count} are");
    Some(())
}
