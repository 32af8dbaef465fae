//! Tables gathered point by point, by several threads: each takes the points from one index to another, and what they
//! gathered is put together in order, behind what was gathered before.

ghost use Rattle.std.specs.Prelude.{◌≡◌, ◌<◌, ◌≤◌, ◌+◌, ◌++◌, ℕ, List, length, map, IfOk, IfSome, OnOk};
ghost use Rattle.std.specs.Thread.{IsSync};
ghost use Rattle.std.proofs.lemmas.Map.Lookups.{CmpEqualImpliesEq};
ghost use Rattle.point_order.specs.declared.cell.Cell.{Cell};
ghost use Rattle.face_list.specs.declared.table.Table.{Table};
ghost use Rattle.face_list.specs.Around.{CanAdd, GathersPoints};
ghost use Rattle.face_list.specs.Gather.{items_from, GathersItems, IsPointTable};
ghost use Rattle.face_list.specs.Tables.{AreStops, IsTable, stretches};

use crate::around::{Gathering, Part, Room, add_points, nothing, room_for, whole};
use crate::counts::sum_of;
use crate::gather::put_end;
use crate::table::Table;
use point_order::{Cell, Point};
use std::alloc::{AllocError, Global};
use std::thread::{Threads, join};

// So many points are gathered before the next ones, so that their parts take little memory.
const ROUND: usize = 4096;

// Fewer points are left to one thread: to start another takes longer.
const FEW: usize = 512;

// Puts a list behind another.
fn put_behind<T: Copy>(list: &mut Vec<T>, more: Vec<T>) -> Result<(), AllocError>
    ensures { OnOk result (list.new.items ≡ list.old.items ++ more.items) }
{
    list.extend_from_slice(&more)?;
    Ok(())
}

// Puts the ends of lists behind those of others, which have so many numbers.
fn put_ends(ends: &mut Vec<u32>, more: &[u32], before: usize) -> Result<(), AllocError>
    ensures { OnOk result (ends.new.items ≡ ends.old.items ++ map (λ end. before + end) more.now) }
{
    for end in more {
        let place = sum_of(before, *end as usize)?;
        put_end(ends, place)?;
    }
    Ok(())
}

// What was gathered of some points, and behind it what was gathered of later ones.
fn together<K: Part>(first: Gathering<K>, second: Gathering<K>) -> Result<Gathering<K>, AllocError>
    requires first { AreStops 0 (length first.table.numbers.items) first.table.ends.items }
    requires second { AreStops 0 (length second.table.numbers.items) second.table.ends.items }
    ensures keys { IfOk result (λ g. g.table.keys.items ≡ first.table.keys.items ++ second.table.keys.items) }
    ensures ends { IfOk result (λ g.
        length g.table.ends.items ≡ length first.table.ends.items + length second.table.ends.items) }
    ensures stops { IfOk result (λ g. AreStops 0 (length g.table.numbers.items) g.table.ends.items) }
    ensures lists { IfOk result (λ g. stretches g.table.numbers.items 0 g.table.ends.items
        ≡ stretches first.table.numbers.items 0 first.table.ends.items
        ++ stretches second.table.numbers.items 0 second.table.ends.items) }
    ensures numbers { IfOk result (λ g.
        g.table.numbers.items ≡ first.table.numbers.items ++ second.table.numbers.items) }
    ensures count { IfOk result (λ g. g.count ≡ first.count + second.count) }
    ensures from { IfOk result (λ g. g.from ≡ first.from) }
    ensures to { IfOk result (λ g. g.to ≡ second.to) }
{
    let count = sum_of(first.count, second.count)?;
    let (from, to) = (first.from, second.to);
    let mut table = first.table;
    let later = second.table;
    let before = table.numbers.len();
    put_ends(&mut table.ends, &later.ends, before)?;
    put_behind(&mut table.numbers, later.numbers)?;
    put_behind(&mut table.keys, later.keys)?;
    Ok(Gathering {
        table,
        count,
        from,
        to,
    })
}

// The room that some of so many points take where all take so much, and some more, so that it seldom has to grow.
fn share_of(room: usize, some: usize, count: usize) -> usize
    requires { 0 < count }
{
    let each = room / count;
    each.saturating_add(each / 8 + 1).saturating_mul(some)
}

// Nothing yet, of some points from an index on, where all take so much room.
fn nothing_of<K: Part>(
    alloc: Global,
    room: Room,
    from: usize,
    to: usize,
    count: usize,
) -> Result<Gathering<K>, AllocError>
    requires order { from ≤ to }
    requires count { 0 < count }
    ensures { IfOk result (λ g. (cells : List Cell) (points : Table ℕ) → from ≤ length points.keys.items →
        GathersPoints K.cmp K.parts_of K.first_of cells points from from g) }
{
    let keys = share_of(room.keys, to - from, count);
    let numbers = share_of(room.numbers, to - from, count);
    nothing(alloc, Room { keys, numbers }, from)
}

// Adds the items of the points up to an index, by so many threads. All points take so much room.
fn add_beside<R: Threads + Sync, K: Part + Send>(
    rt: &R,
    alloc: Global,
    cells: &[Cell],
    points: &Table<Point>,
    so_far: Gathering<K>,
    to: usize,
    room: Room,
    threads: usize,
) -> Result<Gathering<K>, AllocError>
    requires exact { CmpEqualImpliesEq K.cmp }
    requires can { CanAdd K.cmp K.parts_of K.first_of cells.now points.now so_far to }
    ensures { IfOk result (GathersPoints K.cmp K.parts_of K.first_of cells.now points.now so_far.from to) }
{
    let from = so_far.to;
    if threads < 2 || to - from < FEW {
        return add_points(alloc, cells, points, so_far, to);
    }
    let middle = from + (to - from) / 2;
    let part = nothing_of(alloc, room, middle, to, points.keys.len())?;
    let (first, second) = join(
        rt,
        || -> Result<Gathering<K>, AllocError>
            requires { IsSync R.row × CmpEqualImpliesEq K.cmp
                × CanAdd K.cmp K.parts_of K.first_of cells.now points.now so_far middle }
            ensures { IfOk result
                (GathersPoints K.cmp K.parts_of K.first_of cells.entry.now points.entry.now so_far.from middle) }
        { add_beside(rt, alloc, cells, points, so_far, middle, room, threads / 2) },
        || -> Result<Gathering<K>, AllocError>
            requires { IsSync R.row × CmpEqualImpliesEq K.cmp
                × CanAdd K.cmp K.parts_of K.first_of cells.now points.now part to }
            ensures { IfOk result
                (GathersPoints K.cmp K.parts_of K.first_of cells.entry.now points.entry.now part.from to) }
        {
            add_beside(
                rt,
                alloc,
                cells,
                points,
                part,
                to,
                room,
                threads - threads / 2,
            )
        },
    );
    let both = together(first?, second?)?;
    Ok(both)
}

// The items of all points, gathered by so many threads: those of some points side by side, and then those of the next
// ones, so that the parts take little memory beside the whole.
fn gather_in_rounds<R: Threads + Sync, K: Part + Send>(
    rt: &R,
    alloc: Global,
    cells: &[Cell],
    points: &Table<Point>,
    room: Room,
    threads: usize,
) -> Result<Gathering<K>, AllocError>
    requires exact { CmpEqualImpliesEq K.cmp }
    requires points { IsPointTable cells.now points.now }
    ensures { IfOk result
        (GathersPoints K.cmp K.parts_of K.first_of cells.now points.now 0 (length points.now.keys.items)) }
{
    let count = points.keys.len();
    let mut so_far = nothing(alloc, room, 0)?;
    while so_far.to < count {
        let to = so_far.to + ROUND.min(count - so_far.to);
        so_far = add_beside(rt, alloc, cells, points, so_far, to, room, threads)?;
    }
    Ok(so_far)
}

/// What `table_around` gives, gathered by so many threads.
///
/// # Errors
/// Want of memory. Where there are more numbers than 32 bits count, there is none.
pub(crate) fn table_beside<R: Threads + Sync, K: Part + Send>(
    rt: &R,
    alloc: Global,
    cells: &[Cell],
    points: &Table<Point>,
    threads: usize,
) -> Result<Option<Table<K>>, AllocError>
    requires exact { CmpEqualImpliesEq K.cmp }
    requires points { IsPointTable cells.now points.now }
    ensures gathers { IfOk result
        (λ o. IfSome o (λ t. GathersItems K.cmp cells.now (items_from 0 K.parts_of cells.now) t)) }
    ensures table { IfOk result (λ o. IfSome o (λ t. IsTable (length cells.now) t)) }
{
    let room = room_for::<K>(cells, points)?;
    let all = gather_in_rounds(rt, alloc, cells, points, room, threads)?;
    Ok(whole(all, room.numbers))
}
