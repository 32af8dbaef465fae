//! The points at given places, and the cells of their complex.

ghost use Rattle.std.specs.Prelude.{◌≡◌, ◌⊎◌, ◌<◌, ◌≤◌, ◌^◌, ◌∷◌, ◌++◌, [], map, length, true, false, IfOk, IfErr};
ghost use Rattle.std.specs.Prelude.{IsErrOf, IsTrue, OnOk};
ghost use Rattle.point_order.specs.Coordinates.{IsKey};
ghost use Rattle.point_order.specs.Solid.{is_solid};
ghost use Rattle.del_laws.specs.Keys.{AreKeys};
ghost use Rattle.mesh_rows.specs.Rows.{point_place, LiesOutside};
ghost use Rattle.mesh_rows.specs.Meshes.{HasOutside, IsStopCause, IsCloud, IsSetOf};
ghost use Rattle.mesh_rows.specs.declared.stop.Stop.TheVariants.{Outside};

use crate::rows::Place;
use crate::stop::Stop;
use edit_history::find_four;
use net_digs::complex_of_points;
use point_order::{Cell, Point, points_in_order};
use std::alloc::{AllocError, Global};

/// The points, ascending, each once, and the cells of their complex, in order: Full ones first.
#[derive(Drop)]
pub struct Cloud {
    pub points: Vec<Point>,
    pub cells: Vec<Cell>,
}

/// The point at a place.
///
/// # Errors
/// `Stop::Outside` where a coordinate is not 0 to 16383.
pub fn point_at(place: &Place) -> Result<Point, Stop>
    ensures place { IfOk result (λ p. point_place p ≡ place.now) }
    ensures key { IfOk result (λ p. IsKey p) }
    ensures refused { IfErr result (λ stop. (stop ≡ Outside) × LiesOutside place.now) }
{
    match Point::new(place.x, place.y, place.z) {
        Ok(p) => Ok(p),
        Err(_) => Err(Stop::Outside),
    }
}

// Whether some place is that of no point.
fn has_outside(given: &[Place]) -> bool
    ensures some { result ≡ true → HasOutside given.now }
    ensures none { result ≡ false → HasOutside given.now → ⊥ }
{
    for place in given {
        match point_at(place) {
            Ok(_) => {}
            Err(_) => return true,
        }
    }
    false
}

// Puts a point behind the others.
fn put_point(points: &mut Vec<Point>, p: Point) -> Result<(), AllocError>
    ensures { OnOk result (points.new.items ≡ points.old.items ++ p ∷ []) }
{
    points.push(p)?;
    Ok(())
}

// The points at the places, in the order of those.
fn points_of(alloc: Global, given: &[Place]) -> Result<Vec<Point>, Stop>
    ensures points { IfOk result (λ points. map point_place points.items ≡ given.now) }
    ensures keys { IfOk result (λ points. AreKeys points.items) }
    ensures refused { IfErr result (λ stop. IsStopCause given.now stop) }
{
    let mut points = Vec::with_capacity(alloc, given.len())?;
    for place in given {
        put_point(&mut points, point_at(place)?)?;
    }
    Ok(points)
}

/// The points at the places, ascending, each once. All places are looked at before any memory is taken.
///
/// # Errors
/// `Stop::Outside` where some place is that of no point, else `Stop::Memory`.
pub fn set_of(alloc: Global, given: &[Place]) -> Result<Vec<Point>, Stop>
    ensures set { IfOk result (λ points. IsSetOf given.now points.items) }
    ensures refused { IfErr result (λ stop. IsStopCause given.now stop) }
    ensures first { HasOutside given.now → IsErrOf result Outside }
{
    if has_outside(given) {
        return Err(Stop::Outside);
    }
    let points = points_of(alloc, given)?;
    Ok(points_in_order(points))
}

/// Whether 32 bits number the points and the cells.
pub fn are_few(points: &[Point], cells: &[Cell]) -> bool
    ensures points { IsTrue result → length points.now < 2 ^ 32 }
    ensures cells { IsTrue result → length cells.now < 2 ^ 32 }
    ensures many { result ≡ false → (2 ^ 32 ≤ length points.now) ⊎ (2 ^ 32 ≤ length cells.now) }
{
    points.len() < 1 << 32 && cells.len() < 1 << 32
}

/// Whether four of the points are independent.
pub fn are_solid(points: &[Point]) -> bool
    ensures { result ≡ is_solid points.now }
{
    find_four(points).is_ok()
}

/// The points at the given places, and the cells of their complex.
///
/// # Errors
/// Each `Stop`.
pub fn cloud_of(alloc: Global, given: &[Place]) -> Result<Cloud, Stop>
    ensures set { IfOk result (λ cloud. IsSetOf given.now cloud.points.items) }
    ensures cloud { IfOk result (λ cloud. IsCloud cloud.points.items cloud.cells.items) }
    ensures refused { IfErr result (λ stop. IsStopCause given.now stop) }
    ensures first { HasOutside given.now → IsErrOf result Outside }
{
    let points = set_of(alloc, given)?;
    if !are_solid(&points) {
        return Err(Stop::Flat);
    }
    let cells = complex_of_points(alloc, &points)?;
    if !are_few(&points, &cells) {
        return Err(Stop::Full);
    }
    Ok(Cloud { points, cells })
}
