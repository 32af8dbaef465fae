//! Grids, and a bucket of a mesh in a hold of its own.

ghost use Rattle.std.specs.Prelude.{◌≡◌, ◌+◌, ◌*◌, ◌<◌, ◌≤◌, Some, IsSome, IfOk, length};
ghost use Rattle.bucket_grid.specs.Grids.{bucket_of as number_of};
ghost use Rattle.cell_store.specs.Buckets.{bucket_at, points_at};
ghost use Rattle.cell_store.specs.Shares.{ShowsWith, Stands, share_at};
ghost use Rattle.cell_store.specs.Meshes.{StandsForSome};

use crate::meshes::{grid_of, mesh_of};
use crate::reading::{at, list_at};
use crate::telling::{Answer, put_cell};
use cell_store::{Across, Bucket, Hold, Mesh, Star, Steps};
use point_order::{Cell, Point};
use std::alloc::{AllocError, Global};
use std::marker::Brand;
use std::sync::ledger::{Blank, Ledger};

/// Answers a case of a grid.
pub(crate) fn numbers(answer: &mut Answer, lists: &str) -> Option<()> {
    let grid = grid_of(answer, lists)?;
    let (size, count) = (grid.size(), grid.count());
    write!(answer, "size {size} count {count} at");
    let points: Vec<Point> = answer.all(list_at(lists, 1));
    for p in &points {
        write!(answer, " {}", grid.bucket_of(*p));
    }
    Some(())
}

// Takes the bucket with the number out of a mesh, and puts it into an empty hold of the grid.
fn moved(alloc: Global, mesh: Mesh, b: u32) -> Result<Hold, AllocError>
    requires { b < mesh.grid * mesh.grid * mesh.grid }
    ensures grid { IfOk result (λ pass. pass.grid ≡ mesh.grid) }
    ensures stands { IfOk result (λ pass. Stands pass mesh.history) }
    ensures bucket { IfOk result (λ pass. bucket_at pass.places b ≡ Some (share_at mesh.grid b mesh.history)) }
{
    let mut home = mesh.into_hold();
    let bucket = home.take(b);
    let mut pass = Hold::empty(alloc, home.grid())?;
    pass.put(b, bucket);
    Ok(pass)
}

// How many cells the bucket has.
fn count_of(bucket: &Bucket) -> u64 {
    let mut count: u64 = 0;
    for _ in bucket.cells() {
        count = count.saturating_add(1);
    }
    count
}

// What lies across a facet.
fn put_across(answer: &mut Answer, across: Across<'_>) {
    match across {
        Across::Cell(other) => put_cell(answer, other),
        Across::Need(b) => write!(answer, " needs {b}"),
    }
}

// What lies across the facets of a cell.
fn put_beyond(answer: &mut Answer, hold: &Hold, cell: &Cell)
    requires { ShowsWith hold.now cell.now }
{
    let [first, second, third, fourth] = cell.facets();
    put_across(answer, hold.across(cell, &first));
    put_across(answer, hold.across(cell, &second));
    put_across(answer, hold.across(cell, &third));
    put_across(answer, hold.across(cell, &fourth));
}

// What lies across the facets of the first cell at a point.
fn put_first(answer: &mut Answer, hold: &Hold, p: Point)
    requires stands { StandsForSome hold.now }
    requires bucket { IsSome (bucket_at hold.now.places (number_of hold.now.grid p)) }
{
    let mut star = hold.cells_at(p);
    if let Some(cell) = star.next() {
        put_beyond(answer, hold, cell);
    }
}

// The cells at a point by a search that is counted: with at most four points in the
// bucket it makes at most three comparisons.
fn searched<'a, L: Ledger>(hold: &'a Hold, p: Point, steps: &mut Steps<L>) -> Star<'a>
    requires stands { StandsForSome hold.now }
    requires bucket { IsSome (bucket_at hold.now.places (number_of hold.now.grid p)) }
    ensures { length (points_at hold.now.places (number_of hold.now.grid p)) ≤ 4 → steps.new ≤ steps.old + 3 }
{
    hold.star_counted(p, steps)
}

// The cells at a point, in their order.
fn put_star(answer: &mut Answer, hold: &Hold, p: Point)
    requires { IsSome (bucket_at hold.now.places (number_of hold.now.grid p)) }
{
    for cell in hold.cells_at(p) {
        put_cell(answer, cell);
    }
}

// The same cells by that search.
fn put_searched<L: Ledger>(answer: &mut Answer, blank: Blank, hold: &Hold, p: Point)
    requires name { blank.name ≡ L.name }
    requires parts { blank.parts ≡ L.parts }
    requires some { 0 < blank.parts }
    requires stands { StandsForSome hold.now }
    requires bucket { IsSome (bucket_at hold.now.places (number_of hold.now.grid p)) }
{
    let mut steps = Steps::<L>::begin(blank);
    for cell in searched(hold, p, &mut steps) {
        put_cell(answer, cell);
    }
}

// The same, counted in a ledger of its own.
fn put_counted(answer: &mut Answer, hold: &Hold, p: Point)
    requires stands { StandsForSome hold.now }
    requires bucket { IsSome (bucket_at hold.now.places (number_of hold.now.grid p)) }
{
    put_searched::<Brand>(answer, Blank::new(1), hold, p);
}

// What is at a point of a bucket in hand.
fn put_point(answer: &mut Answer, hold: &Hold, p: Point)
    requires { StandsForSome hold.now }
{
    if hold.has(hold.grid().bucket_of(p)) {
        answer.put("; at");
        put_star(answer, hold, p);
        answer.put(" counted");
        put_counted(answer, hold, p);
        answer.put(" across");
        put_first(answer, hold, p);
    }
}

// What the bucket with the number shows, alone in hand.
fn put_bucket(alloc: Global, answer: &mut Answer, hold: &Hold, b: u32)
    requires { StandsForSome hold.now }
{
    if hold.has(b)
        && let Some(copy) = answer.got(hold.copy_of(alloc, b))
    {
        let (points, entries) = (copy.points().len(), copy.entries().len());
        let cells = count_of(&copy);
        write!(answer, " {points} points {cells} cells {entries} entries");
        for p in copy.points() {
            put_point(answer, hold, *p);
        }
    }
}

/// Answers a case of a bucket.
pub(crate) fn put(alloc: Global, answer: &mut Answer, lists: &str) -> Option<()> {
    let number = at(list_at(lists, 2), 0)?;
    let mesh = mesh_of(alloc, answer, lists)?;
    if number < mesh.grid().count() {
        let hold = answer.got(moved(alloc, mesh, number))?;
        put_bucket(alloc, answer, &hold, number);
    }
    Some(())
}
