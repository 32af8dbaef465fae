//! The solid parts of the complex of given points, and the least alpha at which there are few.

ghost use Rattle.std.specs.Prelude.{◌≡◌, ◌<◌, ◌≤◌, ◌^◌, ◌↔◌, ◌++◌, ℕ, List, length, map, IfErr, IfOk, IsErrOf, IsTrue};
ghost use Rattle.std.specs.Prelude.{OnOk};
ghost use Rattle.point_order.specs.Sets.{IsAscending};
ghost use Rattle.solid_parts.specs.LeastAlpha.{IsLeastAlpha};
ghost use Rattle.solid_parts.specs.Parts.{cells_of_parts};
ghost use Rattle.solid_parts.specs.Seen.{parts_seen};
ghost use Rattle.mesh_rows.specs.Meshes.{HasOutside, IsCloud, IsStopCause};
ghost use Rattle.mesh_rows.specs.declared.stop.Stop.TheVariants.{Outside};
ghost use Rattle.mesh_rows.specs.Parts.{AreParts, ArePartRows, IsLeastAlphaOf, LacksPartRoom};
ghost use Rattle.mesh_rows.specs.Rooms.{AreRowsPut};
ghost use Rattle.mesh_rows.specs.Rows.{cell_row};

use crate::cloud::cloud_of;
use crate::numbers::tetrahedron;
use crate::ranks::{Ranks, ranks_of};
use crate::room::put;
use crate::rows::{CellRow, Place};
use crate::stop::Stop;
use face_list::few_faces;
use point_order::{Cell, Point};
use solid_parts::{Part, least_alpha_alone, parts};
use std::alloc::{AllocError, Global};

/// How many rows the solid parts take: all their cells, and a count for each.
#[repr(C)]
#[derive(Clone, Copy)]
pub struct PartSizes {
    pub cells: u64,
    pub parts: u64,
}

/// The cells of the solid parts, one part after another, and how many cells each part has.
#[derive(Drop)]
pub struct Parts {
    pub cells: Vec<CellRow>,
    pub counts: Vec<u64>,
}

// The least alpha of the cells of a complex.
fn least_of(alloc: Global, all: &[Cell], parts: u32) -> Result<Option<u64>, AllocError>
    requires { (s : List ℕ) × IsCloud s all.now }
    ensures { IfOk result (λ least. (s : List ℕ) → IsCloud s all.now → IsLeastAlpha s parts least) }
{
    let faces = few_faces(alloc, all)?;
    least_alpha_alone(alloc, &faces, parts)
}

/// The least alpha, below 2^34, at which every point is in an admitted cell of the complex of the points at the given
/// places and there are at most so many solid parts; none where there is none.
///
/// # Errors
/// Each `Stop`.
pub fn least_alpha_of(alloc: Global, given: &[Place], parts: u32) -> Result<Option<u64>, Stop>
    ensures least { IfOk result (λ least. IsLeastAlphaOf given.now parts least) }
    ensures refused { IfErr result (λ stop. IsStopCause given.now stop) }
    ensures first { HasOutside given.now → IsErrOf result Outside }
{
    let cloud = cloud_of(alloc, given)?;
    let least = least_of(alloc, &cloud.cells, parts)?;
    Ok(least)
}

// Puts the rows of the cells of a part behind the others.
fn put_part(
    rows: &mut Vec<CellRow>,
    points: &[Point],
    ranks: &Ranks,
    part: &Part,
) -> Result<(), AllocError>
    requires few { length points.now < 2 ^ 32 }
    requires ascending { IsAscending points.now }
    ensures { OnOk result (rows.new.items ≡ rows.old.items ++ map (cell_row points.now) part.now.cells.items) }
{
    for quad in &part.cells {
        rows.push(tetrahedron(points, ranks, quad))?;
    }
    Ok(())
}

// The rows of the cells of parts, one part after another.
fn cells_of(alloc: Global, points: &[Point], parts: &[Part]) -> Result<Vec<CellRow>, AllocError>
    requires few { length points.now < 2 ^ 32 }
    requires ascending { IsAscending points.now }
    ensures { IfOk result (λ rows. rows.items ≡ map (cell_row points.now) (cells_of_parts (parts_seen parts.now))) }
{
    let ranks = ranks_of(alloc, points)?;
    let mut rows = Vec::new(alloc);
    for part in parts {
        put_part(&mut rows, points, &ranks, part)?;
    }
    Ok(rows)
}

// How many cells a part has.
fn count_of(part: &Part) -> u64
    ensures { result ≡ length part.now.cells.items }
{
    part.cells.len() as u64
}

// How many cells each part has.
fn counts_of(alloc: Global, parts: &[Part]) -> Result<Vec<u64>, AllocError>
    ensures { IfOk result (λ counts. counts.items ≡ map length (parts_seen parts.now)) }
{
    let mut counts = Vec::with_capacity(alloc, parts.len())?;
    for part in parts {
        counts.push(count_of(part))?;
    }
    Ok(counts)
}

// The rows of the parts of a set and the cells of its complex.
fn part_rows(alloc: Global, set: &[Point], all: &[Cell], alpha: u64) -> Result<Parts, AllocError>
    requires cloud { IsCloud set.now all.now }
    requires alpha { alpha < 2 ^ 34 }
    ensures { IfOk result (λ p. ArePartRows set.now alpha p.cells.items p.counts.items) }
{
    let faces = few_faces(alloc, all)?;
    let made = parts(alloc, &faces, alpha)?;
    let cells = cells_of(alloc, set, &made)?;
    let counts = counts_of(alloc, &made)?;
    Ok(Parts { cells, counts })
}

/// The solid parts of the alpha complex of the points at the given places, in the order of their least cells.
///
/// # Errors
/// Each `Stop`.
pub fn parts_of(alloc: Global, given: &[Place], alpha: u64) -> Result<Parts, Stop>
    requires { alpha < 2 ^ 34 }
    ensures parts { IfOk result (λ p. AreParts given.now alpha p.cells.items p.counts.items) }
    ensures refused { IfErr result (λ stop. IsStopCause given.now stop) }
    ensures first { HasOutside given.now → IsErrOf result Outside }
{
    let cloud = cloud_of(alloc, given)?;
    let made = part_rows(alloc, &cloud.points, &cloud.cells, alpha)?;
    Ok(made)
}

/// How many rows parts have.
pub fn part_sizes(made: &Parts) -> PartSizes
    ensures cells { result.cells ≡ length made.now.cells.items }
    ensures parts { result.parts ≡ length made.now.counts.items }
{
    PartSizes {
        cells: made.cells.len() as u64,
        parts: made.counts.len() as u64,
    }
}

/// Whether some room is less than parts of these sizes take.
pub fn lacks_part_room(sizes: &PartSizes, cells: &[CellRow], counts: &[u64]) -> bool
    ensures { IsTrue result ↔ LacksPartRoom sizes.now (length cells.now) (length counts.now) }
{
    (cells.len() as u64) < sizes.cells || (counts.len() as u64) < sizes.parts
}

/// Puts parts to the fronts of rooms. What is behind their rows stays as it was.
pub fn put_parts(made: &Parts, cells: &mut [CellRow], counts: &mut [u64])
    requires cells { length made.now.cells.items ≤ length cells.old }
    requires counts { length made.now.counts.items ≤ length counts.old }
    ensures cells { AreRowsPut made.now.cells.items cells.old cells.new }
    ensures counts { AreRowsPut made.now.counts.items counts.old counts.new }
{
    put(cells, &made.cells);
    put(counts, &made.counts);
}
