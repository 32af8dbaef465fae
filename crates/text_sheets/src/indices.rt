//! Points as indices into an ascending list of points.

ghost use Rattle.std.specs.Prelude.{◌≡◌, ◌<◌, ◌++◌, codes, decimal, map, IsTrue, OnOk, OnErr};
ghost use Rattle.std.specs.List.{concat};
ghost use Rattle.point_order.specs.Sets.{IsAscending};
ghost use Rattle.byte_ends.specs.Ends.{HasCause};
ghost use Rattle.text_sheets.specs.Sheets.{Puts};
ghost use Rattle.text_sheets.specs.Indices.{IsBetween, index_of, indices_line};

use crate::lines::{put_four, put_number_and, put_three};
use crate::sheet::Sheet;
use byte_ends::{Failed, Sink};
use point_order::{Point, Quad, Tri};
use std::marker::Model;

/// How many sections the range of keys has, and one more.
const SECTIONS: usize = 8193;

// The section of a point: of its key's forty-two bits the first thirteen.
fn section_of(point: Point) -> usize
    ensures { result < 8192 }
{
    (point.key() / 536870912) as usize
}

// Whether all points before one place are below a key, and none from another on.
fn is_between(points: &[Point], key: u64, low: usize, high: usize) -> bool
    ensures { IsTrue result → IsBetween points.now key low high }
{
    if low > high || high > points.len() {
        return false;
    }
    if low > 0 && points[low - 1].key() >= key {
        return false;
    }
    high == points.len() || points[high].key() >= key
}

// The index of a key that belongs between two places.
fn search(points: &[Point], key: u64, low: usize, high: usize) -> usize
    requires ascending { IsAscending points.now }
    requires between { IsBetween points.now key low high }
    ensures { result ≡ index_of points.now key }
{
    let mut low = low;
    let mut high = high;
    while low < high {
        let middle = low + (high - low) / 2;
        if points[middle].key() < key {
            low = middle + 1;
        } else {
            high = middle;
        }
    }
    low
}

/// An ascending list of points that gives the index of each.
///
/// It keeps where each of 8,192 sections of the range of points begins, which is where a search begins: so a search
/// looks at few points, and takes no memory. Contracts see it as the list of the points.
#[derive(Drop)]
pub struct Indices<'a> {
    points: &'a [Point],
    // A place before which the points of a section may stand. It is looked at before it is believed.
    ends: [u32; 8193],
}

impl<'a> Model for Indices<'a> {
    ghost use Rattle.std.specs.Prelude.{List, ℕ};
    ghost use Rattle.point_order.specs.Sets.{IsAscending};

    ghost Value = { List ℕ };

    ghost view = { λ i. i.points.now };

    ghost invariant = { λ i. IsAscending i.points.now };
}

impl<'a> Indices<'a> {
    /// The indices of the points of a list, which is to ascend.
    pub fn new(points: &'a [Point]) -> Self
        requires { IsAscending points.now }
        ensures { result ≡ points.now }
    {
        let mut ends = [0; SECTIONS];
        for (place, point) in points.iter().enumerate() {
            if let Some(end) = ends.get_mut(section_of(*point) + 1) {
                *end = u32::try_from(place).unwrap_or(u32::MAX).saturating_add(1);
            }
        }
        let mut last = 0;
        for end in &mut ends {
            if *end < last {
                *end = last;
            }
            last = *end;
        }
        Indices { points, ends }
    }

    // Where the points of a section begin and end, if the table is right.
    fn section(&self, section: usize) -> (usize, usize)
        requires { section < 8192 }
    {
        match (self.ends.get(section), self.ends.get(section + 1)) {
            (Some(first), Some(end)) => (*first as usize, *end as usize),
            _ => (0, 0),
        }
    }

    /// The index of a point of the list.
    pub fn index(&self, point: Point) -> u64
        ensures { result ≡ index_of self.now point }
    {
        let key = point.key();
        let (low, high) = self.section(section_of(point));
        if is_between(self.points, key, low, high) {
            search(self.points, key, low, high) as u64
        } else {
            search(self.points, key, 0, self.points.len()) as u64
        }
    }
}

/// Puts the line of a Full cell.
pub fn put_full_line<O: Sink>(sheet: &mut Sheet<O>, indices: &Indices, quad: Quad)
    ensures { Puts O.holds O.faults sheet.old sheet.new (indices_line indices.now quad) }
{
    let (a, b, c, d) = quad.corners();
    put_four(
        sheet,
        indices.index(a),
        indices.index(b),
        indices.index(c),
        indices.index(d),
    );
}

/// Puts the line of a triangle.
pub fn put_hull_line<O: Sink>(sheet: &mut Sheet<O>, indices: &Indices, tri: Tri)
    ensures { Puts O.holds O.faults sheet.old sheet.new (indices_line indices.now tri) }
{
    let (a, b, c) = tri.corners();
    put_three(sheet, indices.index(a), indices.index(b), indices.index(c));
}

/// Puts the points of a face as indices, each with a space behind it.
pub fn put_indices<O: Sink>(sheet: &mut Sheet<O>, indices: &Indices, corners: &[Point])
    ensures { Puts O.holds O.faults sheet.old sheet.new
        (concat (map (λ p. decimal (index_of indices.now p) ++ codes " ") corners.now)) }
{
    for corner in corners {
        put_number_and(sheet, indices.index(*corner), b" ");
    }
}
