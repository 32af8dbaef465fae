//! The order in which a worker makes its edits, where there are others: it stays in one place for a while, far from the
//! others. So what it needs is still near its processor, and buckets are seldom in another's hands.

ghost use Rattle.std.specs.Prelude.{◌≡◌, ◌<◌, IfOk, length};
ghost use Rattle.edit_lists.specs.Dealing.{AreTagsAscending};
ghost use Rattle.edit_workers.specs.Arranging.{spread_of, stretch_of as stretch_of_tag, place_of as place_of_point};
ghost use Rattle.edit_workers.specs.Arranging.{key_of_place as key_of_pair, place_count, IsArranged, IsInPlace};

use edit_history::Edit;
use edit_lists::List;
use point_order::Point;
use std::alloc::{AllocError, Global};

// So many lines come in the order of the file, so that a mesh that is still small is
// fine everywhere before it grows in places.
const EARLY: u32 = 8192;

// Later ones whose tags lie in one stretch of so many come in the order of their places.
const STRETCH: u32 = 65536;

// How many places there are.
const PLACES: u32 = 4096;

// The four bits of a number, two places between each.
fn spread(v: u32) -> u32
    ensures value { result ≡ spread_of v }
    ensures bound { result < 586 }
{
    v % 2 + v / 2 % 2 * 8 + v / 4 % 2 * 64 + v / 8 % 2 * 512
}

// The point's place on the Morton curve through 16 x 16 x 16 cubes: the bits of the three coordinates in turn.
fn place_of(p: Point) -> u32
    ensures value { result ≡ place_of_point p }
    ensures bound { result < 4102 }
{
    let x = p.x() as u32;
    let y = p.y() as u32;
    let z = p.z() as u32;
    spread(x / 1024) * 4 + spread(y / 1024) * 2 + spread(z / 1024)
}

// The number of the stretch of a tag.
fn stretch_of(tag: u32) -> u32
    ensures value { result ≡ stretch_of_tag tag }
    ensures bound { result < 73728 }
{
    if tag < EARLY {
        tag
    } else {
        EARLY + tag / STRETCH
    }
}

// The number by which pairs are arranged: their stretch, then their place behind the
// one where the worker begins, then their tag.
fn key_of_place(pair: &(u32, Edit), begin: u32) -> u64
    requires { begin < place_count }
    ensures { result ≡ key_of_pair begin pair.now }
{
    let stretch = stretch_of(pair.0) as u64;
    let place = (place_of(pair.1.point()) + begin) % PLACES;
    (stretch * PLACES as u64 + place as u64) * 4_294_967_296 + pair.0 as u64
}

// The place at which the worker with a number begins: those of so many begin far from each other.
fn beginning(number: u32, count: u32) -> u32
    requires { 0 < count }
    ensures { result < place_count }
{
    (PLACES / count).wrapping_mul(number) % PLACES
}

// The pairs in the order of their places, from that where the worker with a number begins.
fn arranged(alloc: Global, list: &List, number: u32, count: u32) -> Result<List, AllocError>
    requires some { 0 < count }
    requires tags { AreTagsAscending list.now.pairs.items }
    ensures { IfOk result (λ l. IsArranged list.now.pairs.items l.pairs.items) }
{
    let mut pairs = Vec::from_slice(alloc, &list.pairs)?;
    let begin = beginning(number, count);
    pairs.sort_unstable_by_key(|pair| key_of_place(pair, begin));
    Ok(List { pairs })
}

/// The pairs in the order in which the worker with a number, of so many workers, makes them. Pairs of one point stay in
/// their order. A worker that is alone makes them as they stand.
///
/// # Errors
/// Want of memory.
pub(crate) fn in_place(
    alloc: Global,
    list: &List,
    number: u32,
    count: u32,
) -> Result<List, AllocError>
    requires some { 0 < count }
    requires tags { AreTagsAscending list.now.pairs.items }
    ensures { IfOk result (λ l. IsInPlace count list.now.pairs.items l.pairs.items) }
{
    if count == 1 {
        return Ok(List {
            pairs: Vec::from_slice(alloc, &list.pairs)?,
        });
    }
    Ok(arranged(alloc, list, number, count)?)
}
