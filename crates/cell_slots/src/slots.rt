//! What stands in a slot, and what stood there before it was taken out.

ghost use Rattle.std.specs.Prelude.{◌≡◌, ◌↔◌, ◌<◌, ◌≤◌, ◌+◌, ◌∷◌, [], ◌++◌, Some, None, length, IfOk, IsTrue};
ghost use Rattle.std.specs.Prelude.{MatchOption, OnOk};
ghost use Rattle.point_order.specs.Sets.{IsIn};
ghost use Rattle.cell_slots.specs.Clouds.{HasOtherIn};
ghost use Rattle.hole_laws.specs.Others.{IsOtherOf, HaveNoOther};
ghost use Rattle.cell_slots.specs.Stars.{HaveRoom};
ghost use Rattle.cell_slots.specs.Marked.{IsOtherAt};
ghost use Rattle.cell_slots.specs.Nets.{AreMoved, AreWith, HasNoOther, IsOtherOn, IsWithout, cells_of_slots, slot_at};
ghost use Rattle.cell_slots.specs.Pages.{slots_of};

use crate::corners::{Corners, Face};
use crate::edges::HalfFacet;
use crate::packed::Packed;
use crate::paged::Slots;
use crate::pages::Page;
use crate::spot::Spot;
use point_order::Cell;
use std::alloc::{AllocError, Global};
use std::marker::Model;

/// A slot, and where the cells across the facets of its cell are likely to stand. They are kept where the cell is taken
/// out. Contracts see it as the cell.
#[derive(Drop)]
pub struct Slot {
    packed: Packed,
    links: [u32; 4],
}

impl Model for Slot {
    ghost use Rattle.std.specs.Prelude.{Option};
    ghost use Rattle.point_order.specs.declared.cell.Cell.{Cell};

    ghost Value = { Option Cell };

    ghost view = { λ s. s.packed };
}

/// A number in 32 bits, where it has no more.
pub fn short(number: usize) -> u32 {
    u32::try_from(number).unwrap_or(u32::MAX)
}

impl Slot {
    /// A slot of a cell of which nothing is known.
    pub fn new(cell: &Corners) -> Slot
        ensures { result ≡ Some cell.now }
    {
        Slot {
            packed: Packed::of(cell),
            links: [0; 4],
        }
    }

    /// A slot without a cell.
    pub fn free() -> Slot
        ensures { result ≡ None }
    {
        Slot {
            packed: Packed::none(0),
            links: [0; 4],
        }
    }

    /// The keys of the cell, if it has one.
    pub fn corners(&self) -> Option<Corners>
        ensures { result ≡ self.now }
    {
        self.packed.corners()
    }

    /// The cell, if it has one.
    pub fn cell(&self) -> Option<Cell>
        ensures { result ≡ self.now }
    {
        self.packed.cell()
    }

    /// Where the cell across facet k is likely to stand.
    pub fn link(&self, k: usize) -> usize {
        if k < 4 { self.links[k] as usize } else { 0 }
    }

    /// Notes where the cell across facet k is likely to stand.
    pub fn set_link(&mut self, k: usize, to: usize)
        ensures { self.new ≡ self.old }
    {
        if k < 4 {
            self.links[k] = short(to);
        }
    }

    /// The how-manieth that was taken out the cell is likely to be.
    pub fn taken(&self) -> usize {
        self.packed.number()
    }

    // Whether it has no cell.
    fn is_empty(&self) -> bool
        ensures { IsTrue result ↔ (self.now ≡ None) }
    {
        match self.corners() {
            Some(_) => false,
            None => true,
        }
    }

    /// What stands in it, without the rest.
    pub fn packed(self) -> Packed
        ensures { result ≡ self }
    {
        self.packed
    }

    /// What stands in it becomes another.
    pub fn set(&mut self, packed: Packed)
        ensures { self.new ≡ packed }
    {
        self.packed = packed;
    }
}

/// What stands in a slot; past the end nothing does.
pub fn cell_at(slots: &Slots, i: usize) -> Option<Corners>
    ensures { result ≡ slot_at slots.now i }
{
    slots.cell_at(i)
}

// Whether the cell stands in a slot.
fn stands_at(slots: &Slots, i: usize, cell: &Corners) -> bool
    ensures { IsTrue result ↔ (slot_at slots.now i ≡ Some cell.now) }
{
    match cell_at(slots, i) {
        Some(other) => other.is_same(cell),
        None => false,
    }
}

// The slot of a cell, which is likely to be the hint.
fn place_of(slots: &Slots, cell: &Corners, hint: usize) -> usize
    requires { IsIn cell.now (cells_of_slots slots.now) }
    ensures { slot_at slots.now result ≡ Some cell.now }
{
    if stands_at(slots, hint, cell) {
        return hint;
    }
    for i in 0..slots.len() {
        if stands_at(slots, i, cell) {
            return i;
        }
    }
    unreachable!()
}

/// Which of its facets the facet is of the cell of a slot, where that is another on it.
pub fn other_at(slots: &Slots, i: usize, cell: &Corners, facet: &Face) -> Option<usize>
    ensures { MatchOption result (HasNoOther slots.now i cell.now facet.now)
        (λ number. IsOtherAt slots.now cell.now facet.now i) }
{
    let other = cell_at(slots, i)?;
    let number = other.number_across(cell, facet);
    if number < 4 { Some(number) } else { None }
}

/// The slot of the cell across a facet of a cell, where all are looked at. There is to be one.
pub fn other_across(slots: &Slots, cell: &Corners, facet: &Face) -> HalfFacet
    requires { HasOtherIn (cells_of_slots slots.now) cell.now facet.now }
    ensures { IsOtherAt slots.now cell.now facet.now result.place }
{
    for i in 0..slots.len() {
        if let Some(number) = other_at(slots, i, cell, facet) {
            return HalfFacet { place: i, number };
        }
    }
    unreachable!()
}

/// The cell of those taken out that is another on the facet, likely the one at the hint.
pub fn gone_across(gone: &[Spot], cell: &Corners, facet: &Face, hint: usize) -> Option<Corners>
    ensures { MatchOption result (HaveNoOther gone.now cell.now facet.now)
        (λ other. IsOtherOf gone.now cell.now facet.now other) }
{
    if hint < gone.len() {
        let other = gone[hint].cell();
        if other.is_across(cell, facet) {
            return Some(*other);
        }
    }
    for spot in gone {
        if spot.cell().is_across(cell, facet) {
            return Some(*spot.cell());
        }
    }
    None
}

// Whether the slot is there, and free.
fn is_free(slots: &Slots, i: usize) -> bool
    ensures { IsTrue result → (i < length slots.now) × (slot_at slots.now i ≡ None) }
{
    slots.is_free(i)
}

/// Puts a cell into the slot of the hint, where that is free, or behind all, and answers which that was.
pub fn put_in(slots: &mut Slots, cell: &Corners, hint: usize) -> Result<usize, AllocError>
    ensures { OnOk result (AreWith (cells_of_slots slots.old) cell.now (cells_of_slots slots.new)) }
{
    if is_free(slots, hint) {
        slots.fill(hint, cell);
        return Ok(hint);
    }
    let place = slots.push(Slot::new(cell))?;
    Ok(place)
}

/// Takes a cell out of its slot, so many after the first. No slot comes or goes.
pub fn clear_slot(slots: &mut Slots, cell: &Corners, hint: usize, number: usize)
    requires { IsIn cell.now (cells_of_slots slots.old) }
    ensures taken { IsWithout (cells_of_slots slots.old) cell.now (cells_of_slots slots.new) }
    ensures size { length slots.new ≡ length slots.old }
{
    let place = place_of(slots, cell, hint);
    if place < slots.len() {
        slots.clear(place, short(number));
    }
}

// Whether the slot has no cell.
fn has_none(slots: &Slots, i: usize) -> bool
    ensures { IsTrue result ↔ (slot_at slots.now i ≡ None) }
{
    match cell_at(slots, i) {
        Some(_) => false,
        None => true,
    }
}

// A free slot, which is likely to be the hint. There is to be one.
fn free_slot(slots: &Slots, hint: usize) -> usize
    requires { HaveRoom slots.now 1 }
    ensures { (result < length slots.now) × (slot_at slots.now result ≡ None) }
{
    if is_free(slots, hint) {
        return hint;
    }
    for i in 0..slots.len() {
        if has_none(slots, i) {
            return i;
        }
    }
    unreachable!()
}

/// Puts a cell into a free slot, which is likely to be the hint, and answers which that was. No slot comes or goes.
pub fn fill_slot(slots: &mut Slots, cell: &Corners, hint: usize) -> usize
    requires { HaveRoom slots.old 1 }
    ensures with_cell { AreWith (cells_of_slots slots.old) cell.now (cells_of_slots slots.new) }
    ensures size { length slots.new ≡ length slots.old }
    ensures count { length (cells_of_slots slots.new) ≡ length (cells_of_slots slots.old) + 1 }
{
    let place = free_slot(slots, hint);
    slots.fill(place, cell);
    place
}

/// Puts a free slot behind the list.
pub fn push_free(slots: &mut Slots) -> Result<(), AllocError>
    ensures cells { cells_of_slots slots.new ≡ cells_of_slots slots.old }
    ensures less { length slots.old ≤ length slots.new }
    ensures size { OnOk result (length slots.new ≡ length slots.old + 1) }
{
    slots.push(Slot::free())?;
    Ok(())
}

/// Puts a cell, if there is one, behind the cells.
pub fn push_cell(cells: &mut Vec<Cell>, cell: Option<Corners>) -> Result<(), AllocError>
    ensures { OnOk result (cells.new.items ≡ cells.old.items ++ cells_of_slots (cell ∷ [])) }
{
    match cell {
        Some(cell) => {
            cells.push(cell.to_cell())?;
            Ok(())
        }
        None => Ok(()),
    }
}

// How many cells are packed before the room of their slots is given back.
const TOGETHER: usize = 16_384;

// Puts what stands in a slot behind others, if it has a cell.
fn push_filled(packed: &mut Vec<Packed>, slot: Slot) -> Result<(), AllocError>
    ensures { OnOk result (cells_of_slots packed.new.items ≡ cells_of_slots (packed.old.items ++ slot ∷ [])) }
{
    if slot.is_empty() {
        return Ok(());
    }
    packed.push(slot.packed())?;
    Ok(())
}

// The same, and gives the room of some slots back.
fn move_slot(slots: &mut Vec<Slot>, packed: &mut Vec<Packed>, slot: Slot) -> Result<(), AllocError>
    ensures slots { slots.new.items ≡ slots.old.items }
    ensures packed { OnOk result (cells_of_slots packed.new.items
        ≡ cells_of_slots (packed.old.items ++ slot ∷ [])) }
{
    push_filled(packed, slot)?;
    if slots.len() % TOGETHER == 0 {
        slots.shrink_to_fit();
    }
    Ok(())
}

// Puts what stands in slots behind others. The last go first, and their room is given back before all are packed, so
// that both lists never stand in memory whole.
fn move_all(mut slots: Vec<Slot>, packed: &mut Vec<Packed>) -> Result<(), AllocError>
    ensures { OnOk result (AreMoved (cells_of_slots slots.items ++ cells_of_slots packed.old.items)
        (cells_of_slots packed.new.items)) }
{
    while let Some(slot) = slots.pop() {
        move_slot(&mut slots, packed, slot)?;
    }
    Ok(())
}

// So those of pages.
fn move_pages(mut pages: Vec<Page>, packed: &mut Vec<Packed>) -> Result<(), AllocError>
    ensures { OnOk result (AreMoved (cells_of_slots (slots_of pages.items) ++ cells_of_slots packed.old.items)
        (cells_of_slots packed.new.items)) }
{
    while let Some(page) = pages.pop() {
        move_all(page.into_slots(), packed)?;
    }
    Ok(())
}

/// What stands in slots, without what is likely of it.
pub fn packed_of(alloc: Global, slots: Slots) -> Result<Vec<Packed>, AllocError>
    ensures { IfOk result (λ packed. AreMoved (cells_of_slots slots) (cells_of_slots packed.items)) }
{
    let mut packed = Vec::with_capacity(alloc, slots.len())?;
    let (list, pages) = slots.into_parts();
    move_pages(pages, &mut packed)?;
    move_all(list, &mut packed)?;
    Ok(packed)
}
