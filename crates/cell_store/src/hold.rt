//! Holds: the buckets in hand.

ghost use Rattle.std.specs.Prelude.{◌≡◌, ◌↔◌, ℕ, ◌+◌, ◌*◌, ◌-◌, ◌<◌, ◌≤◌, ◌^◌, true, false, None, Some, IsSome};
ghost use Rattle.std.specs.Prelude.{is_some, IfOk, IfSome, length, slice_set, List, MatchOption};
ghost use Rattle.std.specs.List.{filter};
ghost use Rattle.point_order.specs.Sets.{IsIn, is_among};
ghost use Rattle.point_order.specs.Facets.{points_of, facets_of};
ghost use Rattle.point_order.specs.declared.cell.Cell.{Cell};
ghost use Rattle.point_order.specs.Complex.{complex};
ghost use Rattle.bucket_grid.specs.Grids.{is_grid_size, bucket_of as number_of};
ghost use Rattle.cell_store.specs.Buckets.{no_room, empty_hold, bucket_at, cells_in, at_place, content_of, FitsPlace};
ghost use Rattle.cell_store.specs.Buckets.{StandAtPlaces, points_at};
ghost use Rattle.cell_store.specs.Shares.{Shows, ShowsSome, ShowsWith, NoneInHand, IsInHandFor, IsAcross, points_on};
ghost use Rattle.cell_store.specs.Spots.{IsAcrossIn, SpotGives};
ghost use Rattle.cell_store.specs.Stars.{cells_around, cells_left, AcrossGives};

use crate::bucket::Bucket;
use crate::room::{Exchange, Kept, bucket_in};
use crate::spot::{Spot, SpotAcross};
use crate::star::Across;
use bucket_grid::Grid;
use cell_stars::{Star, StarCells, Steps};
use point_order::{Cell, Facet, Point};
use std::alloc::{AllocError, Global};
use std::marker::Model;
use std::sync::ledger::Ledger;

/// The buckets in hand, over which every geometric step works.
///
/// It has a place for every bucket of its grid.
#[derive(Debug, Drop)]
pub struct Hold {
    pub(crate) grid: Grid,
    pub(crate) places: Vec<Option<Bucket>>,
    pub(crate) exchange: Option<Exchange>,
    pub(crate) note: Option<Point>,
    pub(crate) point: Option<Point>,
    pub(crate) back: bool,
    // Lists of exchanges that were made, which the next ones use again.
    pub(crate) kept: Kept,
}

impl Model for Hold {
    ghost use Rattle.std.specs.Prelude.{◌≡◌, ◌*◌, length, IfSome};
    ghost use Rattle.std.specs.Option.{option_map};
    ghost use Rattle.cell_store.specs.Buckets.{InHand, StandAtPlaces, shown};
    ghost use Rattle.cell_store.specs.Ready.{ArePlansReady, IsNoteReady, IsPointReady};

    ghost Value = { InHand };

    ghost view = { λ h. record {
      grid = h.grid;
      places = shown h.places.items;
      room = record {
        swap = option_map (λ e. (e.gone.items, e.fresh.items)) h.exchange;
        push = h.note;
        point = h.point;
        back = h.back;
      };
    } };

    ghost invariant = { λ h. (length h.places.items ≡ h.grid * h.grid * h.grid)
        × IfSome h.exchange (λ e. ArePlansReady e.turned h.grid e.gone.items e.fresh.items h.places.items e.plans.items)
        × IfSome h.note (λ p. IsNoteReady h.grid h.places.items p)
        × IfSome h.point (λ p. IsPointReady h.grid h.places.items p) × StandAtPlaces h.grid (shown h.places.items) };
}

impl Hold {
    /// The hold with no bucket in hand, and a place for each of the grid.
    ///
    /// # Errors
    /// Want of memory.
    pub fn empty(alloc: Global, grid: Grid) -> Result<Hold, AllocError>
        ensures { IfOk result (λ hold. hold ≡ empty_hold grid) }
    {
        let count = grid.count();
        let mut places = Vec::with_capacity(alloc, count as usize)?;
        for _ in 0..count {
            places.push(None)?;
        }
        Ok(Hold {
            grid,
            places,
            exchange: None,
            note: None,
            point: None,
            back: false,
            kept: Kept::new(alloc),
        })
    }

    /// The grid whose buckets these are.
    pub fn grid(&self) -> Grid
        ensures grid { result ≡ self.now.grid }
        ensures size { is_grid_size self.now.grid ≡ true }
        ensures places { length self.now.places ≡ self.now.grid * self.now.grid * self.now.grid }
        ensures placed { StandAtPlaces self.now.grid self.now.places }
    {
        let _ = self.grid.size();
        self.grid
    }

    /// Whether the bucket with the number is in hand.
    pub fn has(&self, b: u32) -> bool
        ensures { result ≡ is_some (bucket_at self.now.places b) }
    {
        bucket_in(&self.places, b).is_some()
    }

    /// The bucket with the number, which is to be in hand.
    pub fn bucket(&self, b: u32) -> &Bucket
        requires { IsSome (bucket_at self.now.places b) }
        ensures bucket { bucket_at self.now.places b ≡ Some (content_of result.now) }
        ensures place { (content_of result.now).place ≡ Some (self.now.grid, b) }
    {
        match bucket_in(&self.places, b) {
            Some(bucket) => bucket,
            None => unreachable!(),
        }
    }

    /// Takes a bucket in hand. It is to be new, or to have stood at this number of this grid last. It takes no memory.
    pub fn put(&mut self, b: u32, bucket: Bucket)
        requires below { b < length self.old.places }
        requires absent { bucket_at self.old.places b ≡ None }
        requires place { FitsPlace self.old.grid b (content_of bucket) }
        ensures { self.new ≡ record self.old {
          places = slice_set self.old.places b
              (Some (at_place self.old.grid b (content_of bucket)));
        } }
    {
        self.places[b as usize] = Some(bucket.placed(self.grid, b));
    }

    /// Gives a bucket in hand away.
    pub fn take(&mut self, b: u32) -> Bucket
        requires { IsSome (bucket_at self.old.places b) }
        ensures bucket { bucket_at self.old.places b ≡ Some (content_of result) }
        ensures place { (content_of result).place ≡ Some (self.old.grid, b) }
        ensures after { self.new ≡ record self.old { places = slice_set self.old.places b None; room = no_room } }
    {
        self.exchange = None;
        self.note = None;
        self.point = None;
        self.back = false;
        match self.places[b as usize].take() {
            Some(bucket) => bucket,
            None => unreachable!(),
        }
    }

    /// Whether the point is there. Its bucket is to be in hand.
    ///
    /// It is exactly where it is one of the points of the set, for every set that the hold shows.
    pub fn holds_point(&self, p: Point) -> bool
        requires { IsSome (bucket_at self.now.places (number_of self.now.grid p)) }
        ensures in_bucket { result ≡ is_among p (points_at self.now.places (number_of self.now.grid p)) }
        ensures in_set { (s : List ℕ) → Shows self.now s → result ≡ is_among p s }
    {
        let b = self.grid().bucket_of(p);
        self.bucket(b).has_point(p)
    }

    /// A copy of a bucket in hand, as it stands.
    ///
    /// # Errors
    /// Want of memory.
    pub fn copy_of(&self, alloc: Global, b: u32) -> Result<Bucket, AllocError>
        requires { IsSome (bucket_at self.now.places b) }
        ensures { IfOk result (λ copy. bucket_at self.now.places b ≡ Some (content_of copy)) }
    {
        self.bucket(b).copied(alloc)
    }

    /// The cells at a point, in ascending order. The point's bucket is to be in hand.
    ///
    /// They are all cells of the complex that have the point, for every set that the hold shows.
    pub fn cells_at(&self, p: Point) -> Star<'_>
        requires { IsSome (bucket_at self.now.places (number_of self.now.grid p)) }
        ensures in_bucket { cells_left result ≡ filter (λ c. is_among p (points_of c))
            (cells_in self.now.places (number_of self.now.grid p)) }
        ensures in_complex { (s : List ℕ) → Shows self.now s → cells_left result
            ≡ filter (λ c. is_among p (points_of c)) (complex s) }
    {
        let b = self.grid().bucket_of(p);
        self.bucket(b).cells_at(p)
    }

    /// What `cells_at` gives, by a search whose comparisons are counted. The hold is to show some set, and the
    /// point's bucket is to be in hand.
    ///
    /// Where the bucket has n points, it takes k comparisons, with 2^k at most 2n + 1.
    pub fn star_counted<L: Ledger>(&self, p: Point, steps: &mut Steps<L>) -> Star<'_>
        requires shown { ShowsSome self.now }
        requires bucket { IsSome (bucket_at self.now.places (number_of self.now.grid p)) }
        ensures in_bucket { cells_left result ≡ filter (λ c. is_among p (points_of c))
            (cells_in self.now.places (number_of self.now.grid p)) }
        ensures in_complex { (s : List ℕ) → Shows self.now s → cells_left result
            ≡ filter (λ c. is_among p (points_of c)) (complex s) }
        ensures rises { steps.old ≤ steps.new }
        ensures cost { 2 ^ (steps.new - steps.old) ≤ 2 * length
            (points_at self.now.places (number_of self.now.grid p)) + 1 }
    {
        let b = self.grid().bucket_of(p);
        self.bucket(b).star_counted(p, steps)
    }

    /// The cells at a point, in any order, for those who need none: each is given at once. The point's bucket is to
    /// be in hand.
    ///
    /// They are all cells of the complex that have the point, for every set that the hold shows.
    pub fn cells_around(&self, p: Point) -> StarCells<'_>
        requires { IsSome (bucket_at self.now.places (number_of self.now.grid p)) }
        ensures in_bucket { (c : Cell) → IsIn c (cells_around result)
            ↔ IsIn c (filter (λ c. is_among p (points_of c)) (cells_in self.now.places (number_of self.now.grid p))) }
        ensures in_complex { (s : List ℕ) → Shows self.now s → (c : Cell) → IsIn c (cells_around result)
            ↔ IsIn c (filter (λ c. is_among p (points_of c)) (complex s)) }
    {
        let b = self.grid().bucket_of(p);
        self.bucket(b).cells_around(p)
    }

    // One of the points whose bucket is in hand, if there is one.
    pub(crate) fn point_among(&self, points: &[Point]) -> Option<Point>
        ensures { MatchOption result (NoneInHand self.now points.now) (λ p. IsIn p points.now
            × IsInHandFor self.now points.now (number_of self.now.grid p)) }
    {
        let grid = self.grid();
        for p in points {
            let b = grid.bucket_of(*p);
            if self.has(b) {
                return Some(*p);
            }
        }
        None
    }

    /// What lies across a facet of a cell of the complex of a set that the hold shows: the other cell on the facet,
    /// or the bucket of its least point where the bucket of none of its points is in hand.
    pub fn across(&self, cell: &Cell, facet: &Facet) -> Across<'_>
        requires shown { ShowsWith self.now cell.now }
        requires facet { IsIn facet.now (facets_of cell.now) }
        ensures { AcrossGives self.now cell.now facet.now result }
    {
        let points = facet.points();
        match self.point_among(points) {
            Some(p) => match self
                .bucket(self.grid().bucket_of(p))
                .other_at(p, cell, facet)
            {
                Some(other) => Across::Cell(other.cell),
                None => unreachable!(),
            },
            None => match points {
                [first, ..] => Across::Need(self.grid().bucket_of(*first)),
                [] => unreachable!(),
            },
        }
    }

    /// The cell, at hand: with the place where it stands, if the bucket of one of its points is in hand.
    pub fn spot_of(&self, cell: &Cell) -> Spot
        ensures { result ≡ cell.now }
    {
        let grid = self.grid();
        for p in cell.points() {
            let b = grid.bucket_of(*p);
            if let Some(bucket) = bucket_in(&self.places, b) {
                return Spot::new(*cell, b, bucket.place_at(*p, cell));
            }
        }
        Spot::new(*cell, 0, 0)
    }

    // The cell that is likely to lie across a facet, if it does.
    fn linked(&self, spot: &Spot, facet: &Facet) -> Option<Spot>
        ensures { IfSome result (λ c. IsAcrossIn self.now spot.now facet.now c) }
    {
        let b = spot.bucket();
        if !self.has(b) {
            return None;
        }
        let bucket = self.bucket(b);
        let place = bucket.place_across(spot.place(), spot.cell(), facet);
        match bucket.other_here(place, spot.cell(), facet) {
            Some(other) => Some(Spot::new(*other, b, place)),
            None => None,
        }
    }

    // The cell across a facet with a point whose bucket is in hand.
    fn spot_at(&self, p: Point, spot: &Spot, facet: &Facet) -> Spot
        requires shown { ShowsWith self.now spot.now }
        requires facet { IsIn facet.now (facets_of spot.now) }
        requires among { IsIn p (points_on facet.now) }
        requires held { IsInHandFor self.now (points_on facet.now) (number_of self.now.grid p) }
        ensures { IsAcrossIn self.now spot.now facet.now result }
    {
        let b = self.grid().bucket_of(p);
        let bucket = self.bucket(b);
        match bucket.other_at(p, spot.cell(), facet) {
            Some(other) => Spot::new(*other.cell, b, other.place),
            None => unreachable!(),
        }
    }

    /// What `across` tells of a cell at hand. The other cell on the facet is at hand too.
    pub fn across_spot(&self, spot: &Spot, facet: &Facet) -> SpotAcross
        requires shown { ShowsWith self.now spot.now }
        requires facet { IsIn facet.now (facets_of spot.now) }
        ensures { SpotGives self.now spot.now facet.now result }
    {
        let points = facet.points();
        match self.point_among(points) {
            Some(p) => match self.linked(spot, facet) {
                Some(other) => SpotAcross::Spot(other),
                None => SpotAcross::Spot(self.spot_at(p, spot, facet)),
            },
            None => match points {
                [first, ..] => SpotAcross::Need(self.grid().bucket_of(*first)),
                [] => unreachable!(),
            },
        }
    }

    /// The cell across a facet of which some point's bucket is in hand. The hold is to show a set of whose complex
    /// the given cell is one; the answer is right for each such set.
    pub fn cell_across(&self, cell: &Cell, facet: &Facet) -> &Cell
        requires shown { ShowsWith self.now cell.now }
        requires facet { IsIn facet.now (facets_of cell.now) }
        requires held { ¬ (NoneInHand self.now (points_on facet.now)) }
        ensures { (s : List ℕ) → Shows self.now s → IsIn cell.now (complex s) →
            IsAcross s cell.now facet.now result.now }
    {
        match self.across(cell, facet) {
            Across::Cell(other) => other,
            Across::Need(_) => unreachable!(),
        }
    }

    /// What `cell_across` gives for a cell at hand, at hand too.
    #[inline(always)]
    pub fn spot_across(&self, spot: &Spot, facet: &Facet) -> Spot
        requires shown { ShowsWith self.now spot.now }
        requires facet { IsIn facet.now (facets_of spot.now) }
        requires held { ¬ (NoneInHand self.now (points_on facet.now)) }
        ensures { (s : List ℕ) → Shows self.now s → IsIn spot.now (complex s) → IsAcross s spot.now facet.now result }
    {
        if let Some(other) = self.linked(spot, facet) {
            return other;
        }
        match self.point_among(facet.points()) {
            Some(p) => self.spot_at(p, spot, facet),
            None => unreachable!(),
        }
    }
}
