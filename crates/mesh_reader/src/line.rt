//! The lines of a mesh's text: heads, replies, and cells by the indices of their points.

ghost use Rattle.std.specs.Prelude.{◌≡◌, ◌<◌, [], ◌∷◌, ◌&&◌, nat_lt, true, false, Some, None, Ok, Err, MatchOption};
ghost use Rattle.std.specs.Prelude.{slice_index_or, length, if◌then◌else◌};
ghost use Rattle.text_readings.specs.Scanning.{fields_of};
ghost use Rattle.text_readings.specs.declared.fault.Why.TheVariants.{Range};
ghost use Rattle.mesh_reader.specs.Grammar.{point_limit};
ghost use Rattle.mesh_reader.specs.Judging.{announced as announced_by, ascends, field_numbers, in_order};
ghost use Rattle.mesh_reader.specs.Judging.{indexed_corners, indexed_point as point_at_index, indexed_points};
ghost use Rattle.mesh_reader.specs.Judging.{reply_of as reply_in, stripped};

use crate::place::{POINT_LIMIT, Part, word_of};
use cell_lists::Places;
use edit_history::Reply;
use point_order::{Cell, Point, Quad, Tri};
use std::marker::Model;
use text_readings::{Why, first_field, number_of, reads};

// A cell, and where its points stand. Contracts see it as the cell.
#[derive(Drop)]
pub(crate) struct Placed {
    quad: Quad,
    places: Places,
}

impl Model for Placed {
    ghost use Rattle.std.specs.Prelude.{List, ℕ};

    ghost Value = { List ℕ };

    ghost view = { λ p. p.quad };
}

impl Placed {
    // The cell.
    pub(crate) fn quad(&self) -> Quad
        ensures { result ≡ self.now }
    {
        self.quad
    }

    // Where its points are likely to stand.
    pub(crate) fn places(&self) -> Places {
        self.places
    }
}

// What follows the word, where the line begins with it.
fn behind_word<'a>(line: &'a [u8], word: &[u8]) -> Option<&'a [u8]>
    ensures { MatchOption result (stripped word.now line.now ≡ None)
        (λ rest. stripped word.now line.now ≡ Some rest.now) }
{
    line.strip_prefix(word)
}

// How many lines a head announces, where it is one of this list.
pub(crate) fn announced(part: Part, line: &[u8]) -> Option<u64>
    ensures { result ≡ announced_by part line.now }
{
    number_of(behind_word(line, word_of(part).as_bytes())?)
}

// The reply of a line.
pub(crate) fn reply_of(line: &[u8]) -> Result<Reply, Why>
    ensures { result ≡ reply_in line.now }
{
    if reads(line, b"Inserted") {
        Ok(Reply::Inserted)
    } else if reads(line, b"Duplicate") {
        Ok(Reply::Duplicate)
    } else if reads(line, b"Removed") {
        Ok(Reply::Removed)
    } else if reads(line, b"Missing") {
        Ok(Reply::Missing)
    } else if reads(line, b"Flat") {
        Ok(Reply::Flat)
    } else if reads(line, b"Moved") {
        Ok(Reply::Moved)
    } else if reads(line, b"Occupied") {
        Ok(Reply::Occupied)
    } else {
        Err(Why::Field)
    }
}

// Two numbers with one space between them.
fn two_of(line: &[u8]) -> Option<(u64, u64)>
    ensures { MatchOption result (field_numbers 2 (fields_of line.now) ≡ None)
        (λ t. field_numbers 2 (fields_of line.now) ≡ Some (t.0 ∷ t.1 ∷ [])) }
{
    let (first, rest) = first_field(line);
    let (second, more) = first_field(rest?);
    if more.is_some() {
        return None;
    }
    let first = number_of(first)?;
    let second = number_of(second)?;
    Some((first, second))
}

// Three numbers.
fn three_of(line: &[u8]) -> Option<(u64, u64, u64)>
    ensures { MatchOption result (field_numbers 3 (fields_of line.now) ≡ None)
        (λ t. field_numbers 3 (fields_of line.now) ≡ Some (t.0 ∷ t.1 ∷ t.2 ∷ [])) }
{
    let (first, rest) = first_field(line);
    let (second, third) = two_of(rest?)?;
    let first = number_of(first)?;
    Some((first, second, third))
}

// Four numbers.
fn four_of(line: &[u8]) -> Option<(u64, u64, u64, u64)>
    ensures { MatchOption result (field_numbers 4 (fields_of line.now) ≡ None)
        (λ t. field_numbers 4 (fields_of line.now) ≡ Some (t.0 ∷ t.1 ∷ t.2 ∷ t.3 ∷ [])) }
{
    let (first, rest) = first_field(line);
    let (second, third, fourth) = three_of(rest?)?;
    let first = number_of(first)?;
    Some((first, second, third, fourth))
}

// The point at an index.
fn point_at(points: &[Point], index: u64) -> Option<Point>
    ensures { result ≡ point_at_index points.now index }
{
    if index < points.len() as u64 && index < POINT_LIMIT {
        Some(points[index as usize])
    } else {
        None
    }
}

// Three points as a triple, where they ascend.
fn tri_from(points: [Point; 3]) -> Option<Tri>
    ensures { result ≡ (if ascends points then Some points else None) }
{
    let [a, b, c] = points;
    if !(a < b && b < c) {
        return None;
    }
    match Cell::hull(a, b, c) {
        Cell::Open(tri) => Some(tri),
        Cell::Full(_) => None,
    }
}

// Four points as a cell, where they ascend.
fn quad_from(points: [Point; 4]) -> Option<Quad>
    ensures { result ≡ (if ascends points then Some points else None) }
{
    let [a, b, c, d] = points;
    if !(a < b && b < c && c < d) {
        return None;
    }
    match Cell::full(a, b, c, d) {
        Cell::Full(quad) => Some(quad),
        Cell::Open(_) => None,
    }
}

// The triple of the points at three indices.
fn tri_at(points: &[Point], i: u64, j: u64, k: u64) -> Option<Tri>
    ensures { MatchOption result (in_order (indexed_points points.now (i ∷ j ∷ k ∷ [])) ≡ Err Range)
        (λ t. in_order (indexed_points points.now (i ∷ j ∷ k ∷ [])) ≡ Ok t) }
{
    let a = point_at(points, i)?;
    let b = point_at(points, j)?;
    let c = point_at(points, k)?;
    tri_from([a, b, c])
}

// The cell of the points at four indices.
fn quad_at(points: &[Point], i: u64, j: u64, k: u64, l: u64) -> Option<Quad>
    ensures { MatchOption result (in_order (indexed_points points.now (i ∷ j ∷ k ∷ l ∷ [])) ≡ Err Range)
        (λ q. in_order (indexed_points points.now (i ∷ j ∷ k ∷ l ∷ [])) ≡ Ok q) }
{
    let a = point_at(points, i)?;
    let b = point_at(points, j)?;
    let c = point_at(points, k)?;
    let d = point_at(points, l)?;
    quad_from([a, b, c, d])
}

// The triple of a line.
pub(crate) fn tri_of(points: &[Point], line: &[u8]) -> Result<Tri, Why>
    ensures { result ≡ indexed_corners 3 points.now line.now }
{
    let Some((i, j, k)) = three_of(line) else {
        return Err(Why::Field);
    };
    match tri_at(points, i, j, k) {
        Some(tri) => Ok(tri),
        None => Err(Why::Range),
    }
}

// The cell of a line.
pub(crate) fn quad_of(points: &[Point], line: &[u8]) -> Result<Placed, Why>
    ensures { result ≡ indexed_corners 4 points.now line.now }
{
    let Some((i, j, k, l)) = four_of(line) else {
        return Err(Why::Field);
    };
    match quad_at(points, i, j, k, l) {
        Some(quad) => Ok(Placed {
            quad,
            places: Places {
                a: i,
                b: j,
                c: k,
                d: l,
            },
        }),
        None => Err(Why::Range),
    }
}
