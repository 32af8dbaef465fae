//! The cells of a bucket.

ghost use Rattle.std.specs.Prelude.{◌≡◌, ◌↔◌, ◌⊎◌, ◌+◌, ◌*◌, ◌-◌, ◌≤◌, ◌^◌, ℕ, None, Some, IfSome, true, [], length};
ghost use Rattle.std.specs.Prelude.{IsPermutation, IfOk, if◌then◌else◌, ◌==◌};
ghost use Rattle.std.specs.List.{filter};
ghost use Rattle.point_order.specs.Facets.{points_of};
ghost use Rattle.point_order.specs.Sets.{IsIn, is_among};
ghost use Rattle.cell_stars.specs.Places.{all_keys, cells_of, lies_in, star_at, IsStarred, AreStars};
ghost use Rattle.cell_stars.specs.Stars.{cells_left, cells_around, cells_to_come};

use crate::around::{Around, copied_stars};
use crate::free::Free;
use crate::guesses::links_at;
use crate::links::{NONE, side_of};
use crate::parts::{KeyPart, copied_parts, part_for};
use crate::slots::{Slot, cell_at, copied_slots, place_among};
use crate::star::{BucketCells, Star, StarCells};
use crate::steps::{Steps, place_counted, place_of};
use bucket_grid::Grid;
use point_order::{Cell, Facet, Point};
use std::alloc::{AllocError, Global};
use std::fmt::{self, Debug, Formatter};
use std::marker::Model;
use std::sync::ledger::Ledger;

/// The cells of a bucket at numbered places, each once, and for each of their vertices in the bucket its star.
#[derive(Drop)]
pub struct Cells {
    place: Option<(Grid, u32)>,
    pub(crate) slots: Vec<Slot>,
    pub(crate) keys: Vec<KeyPart>,
    pub(crate) stars: Vec<Around>,
    // The numbers of places and of stars that are likely to be free.
    pub(crate) free: Free,
    pub(crate) spare: Free,
}

impl Debug for Cells {
    fn fmt<W: fmt::Write>(&self, f: &mut Formatter<W>) -> fmt::Result {
        f.debug_struct("Cells").finish_non_exhaustive()
    }
}

impl Model for Cells {
    ghost use Rattle.cell_stars.specs.Places.{Placed, AreStars};

    ghost Value = { Placed };

    ghost view = { λ b. record { place = b.place; slots = b.slots.items; keys = b.keys.items; stars = b.stars.items } };

    ghost invariant = { λ b. AreStars (record {
      place = b.place;
      slots = b.slots.items;
      keys = b.keys.items;
      stars = b.stars.items;
    }) };
}

// The places in a star, where it is the vertex's own.
pub(crate) fn places_in(stars: &[Around], number: u32, p: Point) -> &[u32]
    ensures { result.now ≡ (if (star_at stars.now number).0 == p then (star_at stars.now number).1 else []) }
{
    match stars.get(number as usize) {
        Some(around) => own_places(around, p),
        None => &[],
    }
}

// The places, where they are the vertex's.
fn own_places(around: &Around, p: Point) -> &[u32]
    ensures { result.now ≡ (if around.now.0 == p then around.now.1 else []) }
{
    if around.vertex == p {
        &around.places
    } else {
        &[]
    }
}

impl Cells {
    /// No cells, in a bucket that has not stood anywhere. It takes no memory.
    pub fn new(alloc: Global) -> Cells
        ensures { result ≡ record { place = None; slots = []; keys = []; stars = [] } }
    {
        Cells {
            place: None,
            slots: Vec::new(alloc),
            keys: Vec::new(alloc),
            stars: Vec::new(alloc),
            free: Free::from_on(alloc, 0),
            spare: Free::from_on(alloc, 0),
        }
    }

    /// Where the bucket stands.
    pub fn place(&self) -> Option<(Grid, u32)>
        ensures { result ≡ self.now.place }
    {
        self.place
    }

    /// The cells, in a bucket that stands in the grid at the number from now on. It is to be new, or to have stood
    /// there.
    pub fn placed(self, grid: Grid, number: u32) -> Cells
        requires { (self.place ≡ None) ⊎ (self.place ≡ Some (grid, number)) }
        ensures { result ≡ record self { place = Some (grid, number) } }
    {
        Cells {
            place: Some((grid, number)),
            ..self
        }
    }

    /// The cells, each once, in any order.
    pub fn cells(&self) -> BucketCells<'_>
        ensures { IsPermutation (cells_of self.now.slots) (cells_to_come result) }
    {
        BucketCells { slots: &self.slots }
    }

    // The places of the cells at a vertex, by comparisons that are counted.
    fn star<L: Ledger>(&self, p: Point, steps: &mut Steps<L>) -> &[u32]
        ensures places { (i : ℕ) → IsIn i result.now ↔ IsStarred self.now.keys self.now.stars p i }
        ensures stars { AreStars self.now }
        ensures rises { steps.old ≤ steps.new }
        ensures cost { 2 ^ (steps.new - steps.old) ≤ 2 * length (all_keys self.now.keys) + 1 }
    {
        let keys = part_for(&self.keys, p);
        match place_counted(keys, p, steps) {
            Ok(i) => places_in(&self.stars, keys[i].1, p),
            Err(_) => &[],
        }
    }

    // The places of the cells at a vertex.
    pub(crate) fn star_of(&self, p: Point) -> &[u32]
        ensures places { (i : ℕ) → IsIn i result.now ↔ IsStarred self.now.keys self.now.stars p i }
        ensures stars { AreStars self.now }
    {
        let keys = part_for(&self.keys, p);
        match place_of(keys, p) {
            Ok(i) => places_in(&self.stars, keys[i].1, p),
            Err(_) => &[],
        }
    }

    /// The cells at a point of the bucket, in ascending order, by comparisons of keys that are counted. Each key is a
    /// vertex of a cell.
    pub fn star_counted<L: Ledger>(&self, p: Point, steps: &mut Steps<L>) -> Star<'_>
        requires { lies_in self.now.place p ≡ true }
        ensures cells { cells_left result ≡ filter (λ c. is_among p (points_of c)) (cells_of self.now.slots) }
        ensures stars { AreStars self.now }
        ensures rises { steps.old ≤ steps.new }
        ensures cost { 2 ^ (steps.new - steps.old) ≤ 2 * length (all_keys self.now.keys) + 1 }
    {
        Star {
            slots: &self.slots,
            star: self.star(p, steps),
            bound: None,
        }
    }

    /// The cells at a point of the bucket, in ascending order.
    pub fn cells_at(&self, p: Point) -> Star<'_>
        requires { lies_in self.now.place p ≡ true }
        ensures { cells_left result ≡ filter (λ c. is_among p (points_of c)) (cells_of self.now.slots) }
    {
        Star {
            slots: &self.slots,
            star: self.star_of(p),
            bound: None,
        }
    }

    /// The cells at a point of the bucket, in any order.
    pub fn cells_around(&self, p: Point) -> StarCells<'_>
        requires { lies_in self.now.place p ≡ true }
        ensures { (c : Cell) → IsIn c (cells_around result)
            ↔ IsIn c (filter (λ c. is_among p (points_of c)) (cells_of self.now.slots)) }
    {
        StarCells {
            slots: &self.slots,
            star: self.star_of(p),
            last: NONE,
        }
    }

    /// The place at which the other cell on a facet is likely to stand, where the given cell stands at the given place.
    pub fn place_across(&self, place: u32, cell: &Cell, facet: &Facet) -> u32 {
        links_at(&self.slots, place).across(side_of(cell, facet))
    }

    /// The cell at a place, if there is one.
    pub fn cell(&self, place: u32) -> Option<&Cell>
        ensures { IfSome result (λ c. IsIn c.now (cells_of self.now.slots)) }
    {
        match cell_at(&self.slots, place) {
            Some(cell) => Some(cell),
            None => None,
        }
    }

    /// Where the cell, which has the point, is likely to stand.
    pub fn place_at(&self, p: Point, cell: &Cell) -> u32 {
        match place_among(&self.slots, self.star_of(p), cell) {
            Some(place) => place,
            None => NONE,
        }
    }

    /// A copy.
    ///
    /// # Errors
    /// Want of memory.
    pub fn copied(&self, alloc: Global) -> Result<Cells, AllocError>
        ensures { IfOk result (λ copy. copy ≡ self.now) }
    {
        Ok(Cells {
            place: self.place,
            slots: copied_slots(alloc, &self.slots, self.slots.len())?,
            keys: copied_parts(alloc, &self.keys)?,
            stars: copied_stars(alloc, &self.stars, self.stars.len())?,
            free: self.free.copied(alloc)?,
            spare: self.spare.copied(alloc)?,
        })
    }
}
