//! The links of the cells that are put at places in an exchange: among each other, and with the cells around them.

ghost use Rattle.std.specs.Prelude.{◌≡◌, OnOk};

use crate::guesses::links_at;
use crate::joined::{Beside, Joined, Side};
use crate::links::{Links, NONE};
use crate::moves::Moves;
use crate::slots::Slot;
use crate::stock::{Stock, keep, list_of};
use point_order::Cell;
use std::alloc::{AllocError, Global};

/// The place across a facet of the cell at a place, which lies outside what was exchanged.
#[derive(Clone, Copy)]
pub(crate) struct Joint {
    pub(crate) place: u32,
    pub(crate) side: usize,
    pub(crate) other: u32,
}

// More cells than so many come in order.
const FEW: usize = 32;

// One of the numbers, or none.
fn number_at(list: &[u32], at: u32) -> u32 {
    match list.get(at as usize) {
        Some(number) => *number,
        None => NONE,
    }
}

/// Where a cell that comes is put: which of those that are put it is, and its place.
#[derive(Clone, Copy)]
pub(crate) struct Position {
    at: u32,
    place: u32,
}

// For a cell that is not put.
const NOWHERE: Position = Position {
    at: NONE,
    place: NONE,
};

// The cells that are put, from one on, beside where the first of them stands among all.
#[derive(Drop)]
struct Rest<'a> {
    cells: &'a [(u32, Cell)],
    first: u32,
}

impl Rest<'_> {
    // Where the cell is put, if it is the next one.
    fn next(&mut self, cell: &Cell) -> Position {
        if let Some(((place, next), others)) = self.cells.split_first() {
            if next.is_same(cell) {
                let at = self.first;
                self.cells = others;
                self.first = at.wrapping_add(1);
                return Position { at, place: *place };
            }
        }
        NOWHERE
    }
}

// Where the cell is put, if it is one of these, which are put in order.
fn position_among(placed: &[(u32, Cell)], cell: &Cell) -> Position {
    match placed.binary_search_by(|(_, other)| other.cmp(cell)) {
        Ok(at) => Position {
            at: u32::try_from(at).unwrap_or(NONE),
            place: placed[at].0,
        },
        Err(_) => NOWHERE,
    }
}

// Where each of the cells that come is put.
fn positions(
    alloc: Global,
    stock: &mut Stock,
    fresh: &[Cell],
    moves: &Moves,
) -> Result<Vec<Position>, AllocError> {
    let mut positions = list_of(&mut stock.positions, alloc, fresh.len())?;
    let mut rest = Rest {
        cells: &moves.placed,
        first: 0,
    };
    let in_turn = moves.listed || rest.cells.len() <= FEW;
    for cell in fresh {
        let position = if in_turn {
            rest.next(cell)
        } else {
            position_among(&moves.placed, cell)
        };
        positions.push(position)?;
    }
    Ok(positions)
}

// What links are found by: the places before the exchange, what goes and comes, and where the cells that come stand
// among those that are put.
#[derive(Clone, Copy)]
struct Joins<'a> {
    slots: &'a [Slot],
    moves: &'a Moves,
    positions: &'a [Position],
}

impl Joins<'_> {
    // The place of a cell that comes, by where it stands in their list.
    fn place_of(&self, fresh: u32) -> u32 {
        match self.positions.get(fresh as usize) {
            Some(position) => position.place,
            None => NONE,
        }
    }

    // The place across a side of a cell that is put, where another one that comes lies there.
    fn inside(&self, beside: Beside) -> u32 {
        match beside {
            Beside::Fresh(other) => self.place_of(other),
            _ => NONE,
        }
    }

    // The place that lay across a side of a cell that goes: its cell is to be linked with the one that is put.
    fn behind(&self, rim: &mut Vec<Joint>, place: u32, side: Side) -> Result<u32, AllocError> {
        let freed = number_at(&self.moves.gone.places, side.cell);
        let outside = links_at(self.slots, freed).across(usize::from(side.side));
        if outside == NONE {
            return Ok(NONE);
        }
        for (side, other) in links_at(self.slots, outside).around.iter().enumerate() {
            if *other == freed {
                rim.push(Joint {
                    place: outside,
                    side,
                    other: place,
                })?;
                break;
            }
        }
        Ok(outside)
    }

    // Links the cell that is put at the place.
    fn link(
        &self,
        rim: &mut Vec<Joint>,
        put: &mut (u32, Slot),
        sides: [Beside; 4],
    ) -> Result<(), AllocError>
        ensures { OnOk result (put.new ≡ put.old) }
    {
        let [a, b, c, d] = sides;
        let mut around = [
            self.inside(a),
            self.inside(b),
            self.inside(c),
            self.inside(d),
        ];
        for (side, beside) in sides.iter().enumerate() {
            if let Beside::Behind(from) = *beside {
                around[side] = self.behind(rim, put.0, from)?;
            }
        }
        put.1.link(Links { around });
        Ok(())
    }

    // Links the cells that are put.
    fn link_all(
        &self,
        rim: &mut Vec<Joint>,
        puts: &mut [(u32, Slot)],
        joined: &Joined,
    ) -> Result<(), AllocError>
        ensures { OnOk result (puts.new ≡ puts.old) }
    {
        for (position, sides) in self.positions.iter().zip(&joined.sides) {
            let at = position.at as usize;
            if at < puts.len() {
                self.link(rim, &mut puts[at], *sides)?;
            }
        }
        Ok(())
    }
}

/// Links the cells that are put, where cells move so, and gives the links back to them.
pub(crate) fn join(
    alloc: Global,
    stock: &mut Stock,
    slots: &[Slot],
    fresh: &[Cell],
    joined: &Joined,
    moves: &Moves,
    puts: &mut [(u32, Slot)],
) -> Result<Vec<Joint>, AllocError>
    ensures { OnOk result (puts.new ≡ puts.old) }
{
    let positions = positions(alloc, stock, fresh, moves)?;
    let joins = Joins {
        slots,
        moves,
        positions: &positions,
    };
    let count = moves.placed.len().max(moves.freed.len());
    let mut rim = list_of(&mut stock.rims, alloc, count)?;
    joins.link_all(&mut rim, puts, joined)?;
    keep(&mut stock.positions, positions);
    Ok(rim)
}
