//! Buckets.

ghost use Rattle.std.specs.Prelude.{◌≡◌, ◌↔◌, ◌+◌, ◌*◌, ◌-◌, ◌<◌, ◌≤◌, ◌^◌, ◌∷◌, [], ◌++◌, true, None, Some, length};
ghost use Rattle.std.specs.Prelude.{IsPermutation, IfOk, IfSome, OnOk, MatchOption};
ghost use Rattle.std.specs.List.{filter};
ghost use Rattle.point_order.specs.Facets.{points_of};
ghost use Rattle.point_order.specs.declared.cell.Cell.{Cell};
ghost use Rattle.point_order.specs.Sets.{IsIn, IsAscending, is_among, with_point as with, without_point};
ghost use Rattle.edit_history.specs.Edits.{point_of, changed};
ghost use Rattle.cell_stars.specs.Places.{all_keys, lies_in, cells_of, AreStars};
ghost use Rattle.cell_stars.specs.Plans.{IsOnceFor, MakesExchange};
ghost use Rattle.cell_stars.specs.Turns.{AreReady};
ghost use Rattle.cell_store.specs.Buckets.{FitsPlace, content_of};
ghost use Rattle.hole_laws.specs.Others.{HaveNoOther, IsOtherOf};
ghost use Rattle.cell_store.specs.Ready.{CanTurn, HasMuchRoom, HasRoom, IsRoomier, IsTurned};
ghost use Rattle.cell_store.specs.Shares.{points_on};
ghost use Rattle.cell_store.specs.Stars.{cells_around, cells_left, cells_to_come};

use crate::note::{add_entry, change_points, put_in, take_out};
use crate::star::{Other, other_among};
use bucket_grid::Grid;
use cell_stars::{BucketCells, Cells, Matched, Plan, Star, StarCells, Steps, Stock};
use edit_history::Entry;
use point_order::{Cell, Facet, Point};
use std::alloc::{AllocError, Global};
use std::marker::Model;
use std::sync::ledger::Ledger;

/// The points in one cube of the grid, the cells with a vertex there, and the entries whose point lies there.
///
/// A cell stands in the bucket of each of its finite vertices.
#[derive(Debug, Drop)]
pub struct Bucket {
    points: Vec<Point>,
    cells: Cells,
    entries: Vec<Entry>,
}

impl Model for Bucket {
    ghost use Rattle.std.specs.Prelude.{◌-◌};
    ghost use Rattle.std.specs.Vec.{vec_len, vec_capacity};
    ghost use Rattle.point_order.specs.Sets.{IsAscending};
    ghost use Rattle.cell_store.specs.Buckets.{Layout};

    ghost Value = { Layout };

    ghost view = { λ b. record {
      points = b.points.items;
      cells = b.cells;
      entries = b.entries.items;
      room_points = vec_capacity b.points - vec_len b.points;
      room_entries = vec_capacity b.entries - vec_len b.entries;
    } };

    ghost invariant = { λ b. IsAscending b.points.items };
}

impl Bucket {
    /// A bucket with nothing in it, which has not stood anywhere. It takes no memory.
    pub fn new(alloc: Global) -> Bucket
        ensures { content_of result ≡ record { points = []; cells = []; entries = []; place = None } }
    {
        Bucket {
            points: Vec::new(alloc),
            cells: Cells::new(alloc),
            entries: Vec::new(alloc),
        }
    }

    // A bucket of these points, which are to ascend, these cells and these entries.
    pub(crate) fn of_parts(points: Vec<Point>, cells: Cells, entries: Vec<Entry>) -> Bucket
        requires { IsAscending points.items }
        ensures { content_of result ≡ record {
          points = points.items;
          cells = cells_of cells.slots;
          entries = entries.items;
          place = cells.place;
        } }
    {
        Bucket {
            points,
            cells,
            entries,
        }
    }

    /// The points, ascending.
    pub fn points(&self) -> &[Point]
        ensures points { result.now ≡ (content_of self.now).points }
        ensures ascending { IsAscending (content_of self.now).points }
    {
        &self.points
    }

    /// The entries, by number.
    pub fn entries(&self) -> &[Entry]
        ensures { result.now ≡ (content_of self.now).entries }
    {
        &self.entries
    }

    /// The cells, each once, in any order.
    pub fn cells(&self) -> BucketCells<'_>
        ensures { IsPermutation (content_of self.now).cells (cells_to_come result) }
    {
        self.cells.cells()
    }

    // The cells at a point of the bucket, in ascending order.
    pub(crate) fn cells_at(&self, p: Point) -> Star<'_>
        requires { lies_in self.now.cells.place p ≡ true }
        ensures { cells_left result ≡ filter (λ c. is_among p (points_of c)) (content_of self.now).cells }
    {
        self.cells.cells_at(p)
    }

    // The same, by comparisons that are counted. Each vertex with a star is one of a cell of the bucket.
    pub(crate) fn star_counted<L: Ledger>(&self, p: Point, steps: &mut Steps<L>) -> Star<'_>
        requires { lies_in self.now.cells.place p ≡ true }
        ensures cells { cells_left result ≡ filter (λ c. is_among p (points_of c)) (content_of self.now).cells }
        ensures stars { AreStars self.now.cells }
        ensures rises { steps.old ≤ steps.new }
        ensures cost { 2 ^ (steps.new - steps.old) ≤ 2 * length (all_keys self.now.cells.keys) + 1 }
    {
        self.cells.star_counted(p, steps)
    }

    // The cells at a point of the bucket, in any order.
    pub(crate) fn cells_around(&self, p: Point) -> StarCells<'_>
        requires { lies_in self.now.cells.place p ≡ true }
        ensures { (c : Cell) → IsIn c (cells_around result)
            ↔ IsIn c (filter (λ c. is_among p (points_of c)) (content_of self.now).cells) }
    {
        self.cells.cells_around(p)
    }

    // A cell on the facet other than the given one, if there is one. The facet is to have the point, which is to lie
    // in the bucket.
    pub(crate) fn other_at(&self, p: Point, cell: &Cell, facet: &Facet) -> Option<Other<'_>>
        requires inside { lies_in self.now.cells.place p ≡ true }
        requires among { IsIn p (points_on facet.now) }
        ensures { MatchOption result (HaveNoOther (content_of self.now).cells cell.now facet.now)
            (λ o. IsOtherOf (content_of self.now).cells cell.now facet.now o.cell.now) }
    {
        other_among(self.cells.cells_around(p), cell, facet)
    }

    // The cell at a place, where it is one on the facet other than the given one.
    pub(crate) fn other_here(&self, place: u32, cell: &Cell, facet: &Facet) -> Option<&Cell>
        ensures { IfSome result (λ c. IsOtherOf (content_of self.now).cells cell.now facet.now c.now) }
    {
        if let Some(other) = self.cells.cell(place) {
            if other.is_on(facet) && !other.is_same(cell) {
                return Some(other);
            }
        }
        None
    }

    // Where the other cell on the facet is likely to stand, where the given one stands at the place.
    pub(crate) fn place_across(&self, place: u32, cell: &Cell, facet: &Facet) -> u32 {
        self.cells.place_across(place, cell, facet)
    }

    // Where the cell, which has the point, is likely to stand.
    pub(crate) fn place_at(&self, p: Point, cell: &Cell) -> u32 {
        self.cells.place_at(p, cell)
    }

    // Plans an exchange of cells, as far as they touch the bucket. What was found once is to be of these cells. Where
    // it is told that the exchange finds its cells, it is to do so.
    pub(crate) fn plan(
        &self,
        alloc: Global,
        stock: &mut Stock,
        gone: &[Cell],
        fresh: &[Cell],
        matched: &Matched,
        found: bool,
    ) -> Result<Plan, AllocError>
        requires matched { IsOnceFor gone.now fresh.now matched.now }
        requires found { found ≡ true → AreReady self.now.cells.place gone.now fresh.now
            (cells_of self.now.cells.slots) }
        ensures { IfOk result (λ plan. MakesExchange gone.now fresh.now self.now.cells plan) }
    {
        self.cells.plan(alloc, stock, gone, fresh, matched, found)
    }

    // Carries a plan out, or turns it back where it was. It takes no memory.
    pub(crate) fn turn(&mut self, plan: &mut Plan, turned: bool)
        requires { CanTurn turned plan.old self.old.cells }
        ensures turned { IsTurned turned plan.old self.old.cells plan.new self.new.cells }
        ensures rest { self.new ≡ record self.old { cells = self.new.cells } }
    {
        if turned {
            self.cells.turn_back(plan);
        } else {
            self.cells.turn(plan);
        }
    }

    // Puts a point in, for which there is to be room. It takes no memory.
    pub(crate) fn put_point(&mut self, p: Point)
        requires { 0 < self.old.room_points }
        ensures points { self.new.points ≡ with p self.old.points }
        ensures cells { self.new.cells ≡ self.old.cells }
        ensures entries { self.new.entries ≡ self.old.entries }
        ensures for_points { self.old.room_points ≤ self.new.room_points + 1 }
        ensures for_entries { self.new.room_entries ≡ self.old.room_entries }
    {
        put_in(&mut self.points, p);
    }

    // Takes a point out, which is to be there. There is room for one more then.
    pub(crate) fn drop_point(&mut self, p: Point)
        requires { is_among p self.old.points ≡ true }
        ensures points { self.new.points ≡ without_point p self.old.points }
        ensures cells { self.new.cells ≡ self.old.cells }
        ensures entries { self.new.entries ≡ self.old.entries }
        ensures for_points { self.old.room_points < self.new.room_points }
        ensures for_entries { self.new.room_entries ≡ self.old.room_entries }
    {
        take_out(&mut self.points, p);
    }

    // Makes room for an entry, and for one point more. Without memory there is as much room as before.
    pub(crate) fn make_room(&mut self) -> Result<(), AllocError>
        ensures same { IsRoomier self.old self.new }
        ensures room { OnOk result (HasMuchRoom self.new) }
    {
        self.points.reserve(2)?;
        self.entries.reserve(1)?;
        Ok(())
    }

    // Puts the entry last, and its point in or out as its reply says. There is to be room for it. It takes no memory.
    pub(crate) fn note(&mut self, entry: Entry)
        requires { HasRoom self.old }
        ensures content { content_of self.new ≡ record (content_of self.old) {
          points = changed self.old.points (point_of entry.edit) entry.reply;
          entries = self.old.entries ++ entry ∷ [];
        } }
        ensures cells { self.new.cells ≡ self.old.cells }
    {
        add_entry(&mut self.entries, entry);
        change_points(&mut self.points, entry.edit.point(), entry.reply);
    }

    // Whether the point is one of the bucket's.
    pub(crate) fn has_point(&self, p: Point) -> bool
        ensures { result ≡ is_among p self.now.points }
    {
        self.points().binary_search(&p).is_ok()
    }

    // The bucket, which stands in the grid at the number from now on. It is to be new, or to have stood there.
    pub(crate) fn placed(self, grid: Grid, number: u32) -> Bucket
        requires { FitsPlace grid number (content_of self) }
        ensures { result ≡ record self { cells = record self.cells { place = Some (grid, number) } } }
    {
        let cells = self.cells.placed(grid, number);
        Bucket {
            points: self.points,
            cells,
            entries: self.entries,
        }
    }

    // A bucket with the same lists and the same place.
    pub(crate) fn copied(&self, alloc: Global) -> Result<Bucket, AllocError>
        ensures { IfOk result (λ copy. content_of copy ≡ content_of self.now) }
    {
        Ok(Bucket {
            points: Vec::from_slice(alloc, &self.points)?,
            cells: self.cells.copied(alloc)?,
            entries: Vec::from_slice(alloc, &self.entries)?,
        })
    }
}
