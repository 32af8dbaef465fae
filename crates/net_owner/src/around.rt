//! The cells at a point, which are looked at across links as long as none of their points comes before it. No memory is
//! taken, so no more than some are looked at.

ghost use Rattle.std.specs.Prelude.{◌≡◌, ◌<◌, ◌≤◌, ◌++◌, ◌∷◌, [], false, length, slice_index_or, IsTrue, List, OnOk, ℕ};
ghost use Rattle.point_order.specs.Facets.{facets_of, points_of};
ghost use Rattle.point_order.specs.Sets.{IsIn};
ghost use Rattle.point_order.specs.declared.cell.Cell.{Cell as CellOf};
ghost use Rattle.del_laws.specs.Nearest.{comes_before};
ghost use Rattle.hole_laws.specs.Others.{IsOtherOf};
ghost use Rattle.cell_slots.specs.Clouds.{AreCellsOf, AreCellsOfSome, HasOtherIn};
ghost use Rattle.net_owner.specs.Nearest.{AreLookedAt};
ghost use Rattle.cell_slots.specs.Nets.{cells_of_slots};
ghost use Rattle.cell_slots.specs.Stars.{CrossesAround};

use crate::aim::Aim;
use arrayvec::ArrayVec;
use cell_net::Net;
use cell_slots::{Corners, Face, Reach, Spot};
use std::marker::Model;

// How many cells are looked at at the most.
const MOST: usize = 128;

// How many seats there are for the numbers of found cells.
const SEATS: usize = 256;

// In a seat that is free, and in the place of a number that no cell has.
const NONE: u8 = 255;

/// Cells at a point, and seats in which their numbers are noted by their slots. Contracts see them as a list.
#[derive(Drop)]
pub struct Around {
    found: ArrayVec<Spot, MOST>,
    seats: [u8; SEATS],
}

impl Model for Around {
    ghost use Rattle.std.specs.Prelude.{List};
    ghost use Rattle.point_order.specs.declared.cell.Cell.{Cell};

    ghost Value = { List Cell };

    ghost view = { λ a. a.found.items };
}

/// Why not all cells at a point are looked at.
#[derive(Clone, Copy)]
pub enum Halt {
    // The cell in a slot is likely to have a point that comes before.
    Nearer(usize),
    // There are too many, or the walk does not stand at the nearest point of the first one.
    Lost,
}

// The seat behind another.
fn next_seat(seat: usize) -> usize {
    seat.wrapping_add(1) % SEATS
}

// Puts a number into the first free seat from that of a slot on, if there is one.
fn take_seat(seats: &mut [u8; SEATS], slot: usize, number: u8) {
    let mut seat = slot % SEATS;
    for _ in 0..SEATS {
        if seats[seat % SEATS] == NONE {
            seats[seat % SEATS] = number;
            return;
        }
        seat = next_seat(seat);
    }
}

impl Around {
    /// No cells yet.
    pub fn new() -> Around {
        Around {
            found: ArrayVec::new(),
            seats: [NONE; SEATS],
        }
    }

    // Begins with a cell alone.
    fn begin(&mut self, first: Spot)
        ensures { self.new ≡ first ∷ [] }
    {
        let slot = first.place();
        self.found.clear();
        self.found.push(first);
        self.seats = [NONE; SEATS];
        self.note(slot, 0);
    }

    // The number of the cell that was found in a slot, as far as it is noted.
    fn number_at(&self, slot: usize) -> usize {
        let mut seat = slot % SEATS;
        for _ in 0..SEATS {
            let number = self.seats[seat % SEATS] as usize;
            if number >= self.found.len() || self.found.as_slice()[number].place() == slot {
                return number;
            }
            seat = next_seat(seat);
        }
        NONE as usize
    }

    // Notes the number of a cell that is found in a slot, if there is a seat.
    fn note(&mut self, slot: usize, number: usize)
        ensures { self.new ≡ self.old }
    {
        take_seat(&mut self.seats, slot, u8::try_from(number).unwrap_or(NONE));
    }

    // How many there are.
    fn len(&self) -> usize
        ensures count { result ≡ length self.now }
        ensures few { result ≤ 128 }
    {
        self.found.len()
    }

    // The cell with a number.
    fn spot(&self, number: usize) -> Spot
        requires { number < length self.now }
        ensures { result ≡ slice_index_or self.now number result }
    {
        self.found.as_slice()[number].copied()
    }

    // Whether the cell that was found in a slot is another on a facet of a cell.
    fn has_other(&self, slot: usize, cell: &Corners, facet: &Face) -> bool
        ensures { IsTrue result → HasOtherIn self.now cell.now facet.now }
    {
        let number = self.number_at(slot);
        if number < self.found.len() {
            let spot = &self.found.as_slice()[number];
            return spot.cell().is_across(cell, facet);
        }
        false
    }

    // One more cell is found, if not too many are.
    fn add(&mut self, spot: Spot) -> Result<(), Halt>
        ensures { OnOk result (self.new ≡ self.old ++ spot ∷ []) }
    {
        if self.found.is_full() {
            return Err(Halt::Lost);
        }
        let slot = spot.place();
        let number = self.found.len();
        self.found.push(spot);
        self.note(slot, number);
        Ok(())
    }
}

// The cell across facet k of a cell, which likely stands in that slot.
fn cell_across(net: &Net, spot: &Spot, facet: &Face, k: usize, slot: usize) -> Spot
    requires { HasOtherIn (cells_of_slots net.now) spot.now facet.now }
    ensures { IsOtherOf (cells_of_slots net.now) spot.now facet.now result }
{
    if let Some(other) = net.spot_in(slot) {
        if other.cell().is_across(spot.cell(), facet) {
            return other;
        }
    }
    match net.across(spot, facet, k, Reach::Whole) {
        Some(half_facet) => Spot::new(net.cell_in(half_facet.place), half_facet.place),
        None => unreachable!(),
    }
}

// Crosses facet k of a found cell. Where the facet has the point of the walk, the cell behind it is found, if it was
// not.
fn cross(
    net: &Net,
    aim: &Aim,
    spot: &Spot,
    facet: &Face,
    k: usize,
    around: &mut Around,
) -> Result<(), Halt>
    requires cells { AreCellsOfSome (cells_of_slots net.now) }
    requires looked { AreLookedAt aim.now.place aim.now.point (cells_of_slots net.now) around.old }
    requires among { IsIn spot.now around.old }
    requires facet { IsIn facet.now (facets_of spot.now) }
    ensures looked { OnOk result (AreLookedAt aim.now.place aim.now.point (cells_of_slots net.now) around.new) }
    ensures more { OnOk result ((more : List CellOf) × (around.new ≡ around.old ++ more)) }
    ensures crossed { OnOk result ((s : List ℕ) → AreCellsOf s (cells_of_slots net.now) →
        CrossesAround s aim.now.point (facet.now ∷ []) around.old around.new) }
{
    if !facet.has(aim.point) {
        return Ok(());
    }
    let slot = net.link(spot.place(), k);
    if around.has_other(slot, spot.cell(), facet) {
        return Ok(());
    }
    let other = cell_across(net, spot, facet, k, slot);
    if aim.is_behind_across(other.cell(), facet) {
        return Err(Halt::Nearer(other.place()));
    }
    around.add(other)?;
    Ok(())
}

// Crosses the four facets of a found cell.
fn explore(net: &Net, aim: &Aim, spot: &Spot, around: &mut Around) -> Result<(), Halt>
    requires cells { AreCellsOfSome (cells_of_slots net.now) }
    requires looked { AreLookedAt aim.now.place aim.now.point (cells_of_slots net.now) around.old }
    requires among { IsIn spot.now around.old }
    ensures looked { OnOk result (AreLookedAt aim.now.place aim.now.point (cells_of_slots net.now) around.new) }
    ensures more { OnOk result ((more : List CellOf) × (around.new ≡ around.old ++ more)) }
    ensures explored { OnOk result ((s : List ℕ) → AreCellsOf s (cells_of_slots net.now) →
        CrossesAround s aim.now.point (facets_of spot.now) around.old around.new) }
{
    let facets = spot.cell().facets();
    let mut k = 0;
    for facet in &facets {
        cross(net, aim, spot, facet, k, around)?;
        k += 1;
    }
    Ok(())
}

/// Looks at the cells at the point of the walk, from one of them on. Where all are looked at, the point is the first of
/// all.
pub fn look(net: &Net, aim: &Aim, first: Spot, around: &mut Around) -> Result<(), Halt>
    requires cells { AreCellsOfSome (cells_of_slots net.now) }
    requires among { IsIn first (cells_of_slots net.now) }
    requires has { IsIn aim.now.point (points_of first) }
    ensures { OnOk result ((s : List ℕ) → AreCellsOf s (cells_of_slots net.now) → (y : ℕ) → IsIn y s →
        comes_before aim.now.place y aim.now.point ≡ false) }
{
    if aim.is_behind_one(first.cell()) {
        return Err(Halt::Lost);
    }
    around.begin(first);
    let mut explored = 0;
    'look: while explored < around.len() {
        let spot = around.spot(explored);
        explore(net, aim, &spot, around)?;
        explored += 1;
    }
    Ok(())
}
