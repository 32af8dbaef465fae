//! The table by which a cell that goes is found again: open addressing, place by place from a cell's home on.

ghost use Rattle.std.specs.Prelude.{◌≡◌, ◌≢◌, ◌<◌, ◌≤◌, ◌^◌, ◌↔◌, ℕ, length, slice_get, IfOk, OnOk, IsTrue};
ghost use Rattle.point_order.specs.Facets.{points_of};
ghost use Rattle.point_order.specs.Sets.{IsIn};
ghost use Rattle.cavity.specs.Tables.{mixed_with, mixed_all, cell_number, home_under, IsReachedFrom, KeepsReached};
ghost use Rattle.cavity.specs.Tables.{IsFreeFrom, IsMarked};

use cell_store::Spot;
use point_order::{Cell, Point};
use std::alloc::{AllocError, Global};

// An odd number whose product with another depends in its upper bits on all bits of that.
const FACTOR: u64 = 0x9E37_79B9_7F4A_7C15;

// What stands at a place of the table: nothing, or the place of a cell in the list of those that go.
#[derive(Clone, Copy)]
pub(crate) enum Mark {
    Free,
    Gone(usize),
}

// The number with one point more.
#[tactic(auto, unfolding(crate::specs::Tables::mixed_with))]
fn mixed(number: u64, p: Point) -> u64
    ensures { result ≡ mixed_with number p }
{
    number.wrapping_add(p.key()).wrapping_mul(FACTOR)
}

// The points of the cell, one after another.
fn mixed_points(cell: &Cell) -> u64
    ensures { result ≡ mixed_all 0 (points_of cell.now) }
{
    match cell {
        Cell::Full(quad) => {
            let (a, b, c, d) = quad.corners();
            mixed(mixed(mixed(mixed(0, a), b), c), d)
        }
        Cell::Open(tri) => {
            let (a, b, c) = tri.corners();
            mixed(mixed(mixed(0, a), b), c)
        }
    }
}

// A number for the cell that depends on all of its points.
#[tactic(auto, unfolding(crate::specs::Tables::cell_number))]
pub(crate) fn hash_of(cell: &Cell) -> usize
    ensures { result ≡ cell_number cell.now }
{
    (mixed_points(cell) >> 32) as usize
}

// The place from which on a cell with this number is looked for.
pub(crate) fn home_of(number: usize, mask: usize) -> usize
    ensures home { result ≡ home_under mask number }
    ensures below { result ≤ mask }
{
    number & mask
}

// Whether the cell stands at that place of a list.
fn is_at(cells: &[Spot], i: usize, cell: &Cell) -> bool
    ensures { IsTrue result ↔ (slice_get cells.now i ≡ Some cell.now) }
{
    match cells.get(i) {
        Some(other) => other.cell().is_same(cell),
        None => false,
    }
}

// Whether the cell, whose home it is, is one of those that go. Each place of it in their list is to be reached from
// there.
pub(crate) fn is_marked(marks: &[Mark], home: usize, goes: &[Spot], cell: &Cell) -> bool
    requires { (i : ℕ) → slice_get goes.now i ≡ Some cell.now → IsReachedFrom marks.now home (Mark.Gone i) }
    ensures { IsTrue result ↔ IsIn cell.now goes.now }
{
    for at in home..marks.len() {
        match marks[at] {
            Mark::Free => return false,
            Mark::Gone(i) => {
                if is_at(goes, i, cell) {
                    return true;
                }
            }
        }
    }
    false
}

// The first free place from there on, or the end.
fn free_from(marks: &[Mark], home: usize) -> usize
    requires { home ≤ length marks.now }
    ensures { IsFreeFrom marks.now home result }
{
    for at in home..marks.len() {
        if let Mark::Free = marks[at] {
            return at;
        }
    }
    marks.len()
}

// Puts a mark into the table, to be reached from that place on.
pub(crate) fn put(marks: &mut Vec<Mark>, home: usize, mark: Mark) -> Result<(), AllocError>
    requires home { home ≤ length marks.old.items }
    requires mark { mark ≢ Mark.Free }
    ensures reached { OnOk result (IsReachedFrom marks.new.items home mark) }
    ensures kept { KeepsReached marks.old.items marks.new.items }
    ensures longer { length marks.old.items ≤ length marks.new.items }
{
    let at = free_from(marks, home);
    if at < marks.len() {
        marks[at] = mark;
    } else {
        marks.push(mark)?;
    }
    Ok(())
}

// The table of these cells, with one home more than the mask says.
pub(crate) fn table_of(alloc: Global, mask: usize, goes: &[Spot]) -> Result<Vec<Mark>, AllocError>
    requires { mask < 2 ^ 63 }
    ensures { IfOk result (λ marks. IsMarked mask marks.items goes.now) }
{
    let mut marks = Vec::new(alloc);
    marks.resize(mask + 1, Mark::Free)?;
    for (i, cell) in goes.iter().enumerate() {
        let home = home_of(hash_of(cell.cell()), mask);
        put(&mut marks, home, Mark::Gone(i))?;
    }
    Ok(marks)
}
