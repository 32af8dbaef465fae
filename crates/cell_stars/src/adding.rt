//! The places of the cells that are put, which are added to the stars of their vertices.

ghost use Rattle.std.specs.Prelude.{◌≡◌, ◌<◌, ◌++◌, ◌∷◌, [], ℕ, List, OnOk, MatchBool, MatchOption, length, slice_set};
ghost use Rattle.point_order.specs.declared.cell.Cell.{Cell};
ghost use Rattle.point_order.specs.Facets.{points_of};
ghost use Rattle.point_order.specs.Sets.{IsIn};
ghost use Rattle.cell_stars.specs.Adding.{AddsPlaces, AreStarsHere, HasStarAt, IsOneMore};

use crate::around::Around;
use crate::cells::Cells;
use crate::vertices::rest_of;
use point_order::{Cell, Point};
use std::alloc::AllocError;

// For each rest of a division, where the last star of a vertex with it is likely to be.
type Seen = [u16; 256];

// Where the stars are.
fn seen_of(writes: &[(u32, Around)]) -> Seen {
    let mut seen = [u16::MAX; 256];
    for (at, (_, around)) in writes.iter().enumerate() {
        seen[rest_of(around.vertex()) % 256] = u16::try_from(at).unwrap_or(u16::MAX);
    }
    seen
}

// Whether the star at the place is the vertex's.
fn is_of(writes: &[(u32, Around)], at: usize, p: Point) -> bool
    ensures { MatchBool result (HasStarAt writes.now at p) (HasStarAt writes.now at p → ⊥) }
{
    if at >= writes.len() {
        return false;
    }
    let (_, around) = &writes[at];
    around.vertex() == p
}

// Where the vertex's star is likely to be among stars whose vertices ascend.
fn likely_at(writes: &[(u32, Around)], p: Point) -> usize {
    match writes.binary_search_by(|(_, around)| around.vertex().cmp(&p)) {
        Ok(at) => at,
        Err(at) => at,
    }
}

// Where the vertex's star is, if it has one, by a look at all.
fn star_among(writes: &[(u32, Around)], p: Point) -> Option<usize>
    ensures { MatchOption result ((w : ℕ × (ℕ × List ℕ)) → IsIn w writes.now → w.1.0 ≡ p → ⊥)
        (λ at. HasStarAt writes.now at p) }
{
    for at in 0..writes.len() {
        if is_of(writes, at, p) {
            return Some(at);
        }
    }
    None
}

// The same, where the vertices are likely to ascend.
fn star_place(writes: &[(u32, Around)], p: Point) -> Option<usize>
    ensures { MatchOption result ((w : ℕ × (ℕ × List ℕ)) → IsIn w writes.now → w.1.0 ≡ p → ⊥)
        (λ at. HasStarAt writes.now at p) }
{
    let at = likely_at(writes, p);
    if is_of(writes, at, p) {
        return Some(at);
    }
    star_among(writes, p)
}

impl Around {
    // Adds a place.
    fn add(&mut self, i: u32) -> Result<(), AllocError>
        ensures { OnOk result (self.new ≡ (self.old.0, self.old.1 ++ i ∷ [])) }
    {
        self.places.push(i)?;
        Ok(())
    }
}

// Adds the place to the star at a place.
fn add_at(writes: &mut [(u32, Around)], at: usize, i: u32) -> Result<(), AllocError>
    requires { at < length writes.old }
    ensures { OnOk result (IsOneMore at i writes.old writes.new) }
{
    let (_, around) = &mut writes[at];
    around.add(i)
}

impl Cells {
    // Where the vertex's star is, if it has one.
    fn star_for(&self, writes: &[(u32, Around)], seen: &Seen, p: Point) -> Option<usize>
        requires { AreStarsHere self.now.place writes.now }
        ensures { MatchOption result ((w : ℕ × (ℕ × List ℕ)) → IsIn w writes.now → w.1.0 ≡ p → ⊥)
            (λ at. HasStarAt writes.now at p) }
    {
        let at = usize::from(seen[rest_of(p) % 256]);
        if is_of(writes, at, p) {
            return Some(at);
        }
        if !self.has_here(p) {
            return None;
        }
        star_place(writes, p)
    }

    // Adds the place to the star of the vertex, if it has one.
    fn add_to_star(
        &self,
        writes: &mut Vec<(u32, Around)>,
        seen: &Seen,
        p: Point,
        i: u32,
    ) -> Result<(), AllocError>
        requires { AreStarsHere self.now.place writes.old.items }
        ensures { OnOk result (AddsPlaces (λ q j. (p ≡ q) × (i ≡ j)) writes.old.items writes.new.items) }
    {
        match self.star_for(writes, seen, p) {
            Some(at) => {
                add_at(writes, at, i)?;
                Ok(())
            }
            None => Ok(()),
        }
    }

    // Adds the place of a cell to the stars of its vertices.
    fn add_cell(
        &self,
        writes: &mut Vec<(u32, Around)>,
        seen: &Seen,
        i: u32,
        cell: &Cell,
    ) -> Result<(), AllocError>
        requires { AreStarsHere self.now.place writes.old.items }
        ensures { OnOk result (AddsPlaces (λ q j. IsIn q (points_of cell.now) × (i ≡ j)) writes.old.items
            writes.new.items) }
    {
        for p in cell.points() {
            self.add_to_star(writes, seen, *p, i)?;
        }
        Ok(())
    }

    // Adds the places of the cells that are put to the stars of their vertices.
    pub(crate) fn add_placed(
        &self,
        writes: &mut Vec<(u32, Around)>,
        placed: &[(u32, Cell)],
    ) -> Result<(), AllocError>
        requires { AreStarsHere self.now.place writes.old.items }
        ensures { OnOk result (AddsPlaces (λ q j. (c : Cell) × IsIn (j, c) placed.now × IsIn q (points_of c))
            writes.old.items writes.new.items) }
    {
        let seen = seen_of(writes);
        for (i, c) in placed {
            self.add_cell(writes, &seen, *i, c)?;
        }
        Ok(())
    }
}
