//! Tables gathered point by point: the parts that begin with a point are parts of the cells around it.

ghost use Rattle.std.specs.Prelude.{◌≡◌, ◌<◌, ◌≤◌, ◌+◌, ◌^◌, ℕ, List, length, slice_index_or, IfOk, IfSome, OnOk};
ghost use Rattle.std.specs.List.Sorted.{IsStrictlySortedBy};
ghost use Rattle.std.specs.Ordering.{nat_cmp};
ghost use Rattle.std.specs.declared.cmp.Ordering.TheVariants.{Less};
ghost use Rattle.std.proofs.lemmas.Map.Lookups.{CmpEqualImpliesEq};
ghost use Rattle.point_order.specs.declared.cell.Cell.{Cell};
ghost use Rattle.point_order.specs.Facets.{points_of};
ghost use Rattle.point_order.specs.Sets.{IsIn};
ghost use Rattle.point_order.specs.Subsets.{subsets};
ghost use Rattle.face_list.specs.declared.table.Table.{Table};
ghost use Rattle.face_list.specs.Around.{ArePartsPut, CanAdd, GathersPoints, first_point};
ghost use Rattle.face_list.specs.Gather.{items_from, GathersItems, IsPointTable};
ghost use Rattle.face_list.specs.Order.{before_by_first};
ghost use Rattle.face_list.specs.Tables.{IsTable, cell_at};

use crate::counts::sum_of;
use crate::gather::{keys_of_full, put_lists, sorted};
use crate::parts::triples_of_tri;
use crate::table::Table;
use point_order::{Cell, Pair, Point, Tri};
use std::alloc::{AllocError, Global};

/// What has a first point.
pub trait First: Copy {
    /// Its key.
    ghost first_of: { Self → ℕ };

    /// The first point.
    fn first(&self) -> Point
        ensures { result ≡ first_of self.now };
}

impl First for Pair {
    ghost first_of = { first_point };

    fn first(&self) -> Point {
        let (first, _) = self.corners();
        first
    }
}

impl First for Tri {
    ghost first_of = { first_point };

    fn first(&self) -> Point {
        let (first, _, _) = self.corners();
        first
    }
}

/// A kind of parts of cells, whose order begins with their first points.
pub trait Part: Ord + First {
    /// The parts of a cell.
    ghost parts_of: { Cell → List Self };

    /// How many parts a cell has.
    fn count(cell: &Cell) -> usize
        ensures { result ≡ length (parts_of cell.now) };

    /// Puts the number of a cell under those of its parts that begin with a point.
    fn put_from(
        items: &mut Vec<(Self, u32)>,
        cell: &Cell,
        number: u32,
        first: Point,
    ) -> Result<(), AllocError>
        ensures { OnOk result (ArePartsPut (parts_of cell.now) Self.first_of number first items.old.items
            items.new.items) };

    /// About how many different parts some points have, whose cells have so many in all.
    fn room(total: usize, points: usize) -> usize;

    /// One with a lesser first point comes before another.
    ghost begins: { (a b : Self) → Self.first_of a < Self.first_of b → Self.cmp a b ≡ Less };
}

impl Part for Pair {
    ghost parts_of = { λ c. subsets 2 (points_of c) };

    fn count(cell: &Cell) -> usize {
        match cell {
            Cell::Full(quad) => quad.pairs().len(),
            Cell::Open(tri) => tri.pairs().len(),
        }
    }

    fn put_from(
        items: &mut Vec<(Self, u32)>,
        cell: &Cell,
        number: u32,
        first: Point,
    ) -> Result<(), AllocError> {
        match cell {
            Cell::Full(quad) => put_first(items, &quad.pairs(), number, first),
            Cell::Open(tri) => put_first(items, &tri.pairs(), number, first),
        }
    }

    // By Euler's formula one for each cell and point, but for the hull.
    fn room(total: usize, points: usize) -> usize {
        (total / 6).saturating_add(points)
    }

    ghost begins = { before_by_first };
}

impl Part for Tri {
    ghost parts_of = { λ c. subsets 3 (points_of c) };

    fn count(cell: &Cell) -> usize {
        match cell {
            Cell::Full(quad) => quad.triples().len(),
            Cell::Open(tri) => triples_of_tri(*tri).len(),
        }
    }

    fn put_from(
        items: &mut Vec<(Self, u32)>,
        cell: &Cell,
        number: u32,
        first: Point,
    ) -> Result<(), AllocError> {
        match cell {
            Cell::Full(quad) => put_first(items, &quad.triples(), number, first),
            Cell::Open(tri) => put_first(items, &triples_of_tri(*tri), number, first),
        }
    }

    // Each is in two cells.
    fn room(total: usize, _points: usize) -> usize {
        total / 2
    }

    ghost begins = { before_by_first };
}

// Puts the number of a cell under those of some parts that begin with a point.
fn put_first<K: First>(
    items: &mut Vec<(K, u32)>,
    parts: &[K],
    number: u32,
    first: Point,
) -> Result<(), AllocError>
    ensures { OnOk result (ArePartsPut parts.now K.first_of number first items.old.items items.new.items) }
{
    for part in parts {
        if part.first().key() == first.key() {
            items.push((*part, number))?;
        }
    }
    Ok(())
}

// How many parts cells have, each counted in each of its cells.
fn part_count<K: Part>(cells: &[Cell]) -> Result<usize, AllocError>
    ensures { IfOk result (λ n. n ≡ length (items_from 0 K.parts_of cells.now)) }
{
    let mut count: usize = 0;
    for cell in cells {
        count = sum_of(count, K::count(cell))?;
    }
    Ok(count)
}

/// What is gathered so far, of the points from one index to another: a table, and how many items there were.
#[derive(Drop)]
pub struct Gathering<K> {
    pub table: Table<K>,
    pub count: usize,
    pub from: usize,
    pub to: usize,
}

// The items of the parts that begin with a point, of the cells of some numbers.
fn items_around<K: Part>(
    alloc: Global,
    cells: &[Cell],
    around: &[u32],
    first: Point,
) -> Result<Vec<(K, u32)>, AllocError>
    ensures { IfOk result (λ v. (i : K × ℕ) → IsIn i v.items →
        IsIn i (items_from 0 K.parts_of cells.now) × (K.first_of i.0 ≡ first)) }
{
    let mut items = Vec::with_capacity(alloc, around.len().saturating_mul(2))?;
    for number in around {
        if (*number as usize) < cells.len() {
            K::put_from(&mut items, &cells[*number as usize], *number, first)?;
        }
    }
    Ok(items)
}

// Adds the items of the next point.
fn add<K: Part>(
    alloc: Global,
    cells: &[Cell],
    points: &Table<Point>,
    so_far: &mut Gathering<K>,
    items: Vec<(K, u32)>,
) -> Result<(), AllocError>
    requires exact { CmpEqualImpliesEq K.cmp }
    requires order { IsStrictlySortedBy nat_cmp points.now.keys.items }
    requires so_far { GathersPoints K.cmp K.parts_of K.first_of cells.now points.now so_far.old.from so_far.old.to
        so_far.old }
    requires left { so_far.old.to < length points.now.keys.items }
    requires items { (i : K × ℕ) → IsIn i items.items →
        IsIn i (items_from 0 K.parts_of cells.now)
        × (K.first_of i.0 ≡ slice_index_or points.now.keys.items so_far.old.to 0) }
    ensures { OnOk result (GathersPoints K.cmp K.parts_of K.first_of cells.now points.now so_far.old.from
        (so_far.old.to + 1)
        so_far.new) }
{
    let items = sorted(items);
    let keys = keys_of_full(alloc, cells, &items)?;
    put_lists(
        &mut so_far.table.ends,
        &mut so_far.table.numbers,
        &keys,
        &items,
    )?;
    so_far.table.keys.extend_from_slice(&keys)?;
    so_far.count = sum_of(so_far.count, items.len())?;
    so_far.to += 1;
    Ok(())
}

/// How many keys and numbers a table is to have room for.
#[derive(Clone, Copy)]
pub struct Room {
    pub keys: usize,
    pub numbers: usize,
}

/// Nothing yet, of the points from an index on, with room for so many keys and numbers.
pub(crate) fn nothing<K: Part>(
    alloc: Global,
    room: Room,
    from: usize,
) -> Result<Gathering<K>, AllocError>
    ensures { IfOk result (λ g. (cells : List Cell) (points : Table ℕ) → from ≤ length points.keys.items →
        GathersPoints K.cmp K.parts_of K.first_of cells points from from g) }
{
    Ok(Gathering {
        table: Table {
            keys: Vec::with_capacity(alloc, room.keys)?,
            ends: Vec::with_capacity(alloc, room.keys)?,
            numbers: Vec::with_capacity(alloc, room.numbers)?,
        },
        count: 0,
        from,
        to: from,
    })
}

/// Adds the items of the points up to an index.
pub(crate) fn add_points<K: Part>(
    alloc: Global,
    cells: &[Cell],
    points: &Table<Point>,
    mut so_far: Gathering<K>,
    to: usize,
) -> Result<Gathering<K>, AllocError>
    requires exact { CmpEqualImpliesEq K.cmp }
    requires can { CanAdd K.cmp K.parts_of K.first_of cells.now points.now so_far to }
    ensures { IfOk result (GathersPoints K.cmp K.parts_of K.first_of cells.now points.now so_far.from to) }
{
    while so_far.to < to {
        let (first, around) = points.face(so_far.to);
        let items = items_around(alloc, cells, around, first)?;
        add(alloc, cells, points, &mut so_far, items)?;
    }
    Ok(so_far)
}

/// The room for all items, and how many there are.
pub(crate) fn room_for<K: Part>(cells: &[Cell], points: &Table<Point>) -> Result<Room, AllocError>
    ensures { IfOk result (λ room. room.numbers ≡ length (items_from 0 K.parts_of cells.now)) }
{
    let numbers = part_count::<K>(cells)?;
    let keys = K::room(numbers, points.keys.len());
    Ok(Room { keys, numbers })
}

/// The table of what was gathered, where it is of so many items.
pub(crate) fn whole<K: Part>(so_far: Gathering<K>, total: usize) -> Option<Table<K>>
    ensures { IfSome result (λ t. (t ≡ so_far.table) × (so_far.count ≡ total)) }
{
    if so_far.count == total {
        Some(so_far.table)
    } else {
        None
    }
}

/// Each key of a Full cell, in order, with the numbers of its cells, in order: gathered by the points of Full cells,
/// and where each item is of such a point, as it is in a complex.
///
/// # Errors
/// Want of memory. Where there are more numbers than 32 bits count, there is none.
pub(crate) fn table_around<K: Part>(
    alloc: Global,
    cells: &[Cell],
    points: &Table<Point>,
) -> Result<Option<Table<K>>, AllocError>
    requires exact { CmpEqualImpliesEq K.cmp }
    requires points { IsPointTable cells.now points.now }
    ensures gathers { IfOk result
        (λ o. IfSome o (λ t. GathersItems K.cmp cells.now (items_from 0 K.parts_of cells.now) t)) }
    ensures table { IfOk result (λ o. IfSome o (λ t. IsTable (length cells.now) t)) }
{
    let room = room_for::<K>(cells, points)?;
    let so_far = nothing(alloc, room, 0)?;
    let all = add_points(alloc, cells, points, so_far, points.keys.len())?;
    Ok(whole(all, room.numbers))
}
