//! The text of a verdict.

ghost use Rattle.std.specs.Prelude.{◌≡◌, ◌++◌, IfOk, OnOk};
ghost use Rattle.point_order.specs.Sets.{IsAscending};
ghost use Rattle.del_laws.specs.Keys.{AreKeys};
ghost use Rattle.mesh_check.specs.Flaws.{as_cells};
ghost use Rattle.mesh_check.specs.Laws.{AreCells, IsTold};
ghost use Rattle.mesh_check.specs.Text.{flaw_words, is_good as is_good_of, places_text};
ghost use Rattle.mesh_check.specs.Text.{verdict_text as verdict_text_of, verdict_words};

use crate::flaw::{Flaw, Verdict};
use crate::judging::check_beside;
use cell_lists::QuadList;
use cloud_cells::Made;
use itoa::Buffer;
use point_order::{Point, Tri};
use std::alloc::{AllocError, Global};
use text_sheets::Indices;

// Appends points as indices, each with a space before it.
fn put_places(text: &mut Vec<u8>, indices: &Indices, points: &[Point]) -> Result<(), AllocError>
    ensures { OnOk result (text.new.items ≡ text.old.items ++ places_text indices.now points.now) }
{
    for point in points {
        let mut buffer = Buffer::new();
        text.extend_from_slice(b" ")?;
        text.extend_from_slice(buffer.format(indices.index(*point)).as_bytes())?;
    }
    Ok(())
}

// Appends a flaw, and the points that it names.
fn put_flaw(text: &mut Vec<u8>, indices: &Indices, flaw: &Flaw) -> Result<(), AllocError>
    ensures { OnOk result (text.new.items ≡ text.old.items ++ flaw_words indices.now flaw.now) }
{
    match flaw {
        Flaw::Empty => text.extend_from_slice(b"bad empty"),
        Flaw::FlatCell(cell) => {
            text.extend_from_slice(b"bad flat")?;
            put_places(text, indices, cell.points())
        }
        Flaw::Sides { tri, e, f } => {
            text.extend_from_slice(b"bad sides")?;
            put_places(text, indices, tri.points())?;
            put_places(text, indices, &[*e, *f])
        }
        Flaw::Inside { cell, point } => {
            text.extend_from_slice(b"bad inside")?;
            put_places(text, indices, cell.points())?;
            put_places(text, indices, &[*point])
        }
        Flaw::OpenFacet(facet) => {
            text.extend_from_slice(b"bad facet")?;
            put_places(text, indices, facet.points())
        }
    }
}

// Appends a verdict.
fn put_verdict(text: &mut Vec<u8>, points: &[Point], verdict: &Verdict) -> Result<(), AllocError>
    requires { IsAscending points.now }
    ensures { OnOk result (text.new.items ≡ text.old.items ++ verdict_words points.now verdict.now) }
{
    match verdict {
        Verdict::Good => text.extend_from_slice(b"good"),
        Verdict::Bad(flaw) => put_flaw(text, &Indices::new(points), flaw),
    }
}

/// The text of a verdict on lists of cells of these points: `mesh3-check 1`, and then a line with `good`, or with the
/// flaw and the points that it names, by their indices in the list.
///
/// # Errors
/// `AllocError` where there is no memory for the text.
pub fn verdict_text(
    alloc: Global,
    points: &[Point],
    verdict: &Verdict,
) -> Result<Vec<u8>, AllocError>
    requires { IsAscending points.now }
    ensures { IfOk result (λ text. text.items ≡ verdict_text_of points.now verdict.now) }
{
    let mut text = Vec::from_slice(alloc, b"mesh3-check 1\n")?;
    put_verdict(&mut text, points, verdict)?;
    text.extend_from_slice(b"\n")?;
    Ok(text)
}

// Whether the verdict names no flaw.
fn is_good(verdict: &Verdict) -> bool
    ensures { result ≡ is_good_of verdict.now }
{
    match verdict {
        Verdict::Good => true,
        Verdict::Bad(_) => false,
    }
}

/// What is told of lists of cells.
#[derive(Drop)]
pub struct Told {
    /// Whether they are the complex of the points.
    pub good: bool,
    /// The text of the verdict.
    pub text: Vec<u8>,
}

// What is told of a verdict.
fn told_of(alloc: Global, points: &[Point], verdict: &Verdict) -> Result<Told, AllocError>
    requires { IsAscending points.now }
    ensures good { IfOk result (λ told. told.good ≡ is_good_of verdict.now) }
    ensures text { IfOk result (λ told. told.text.items ≡ verdict_text_of points.now verdict.now) }
{
    let good = is_good(verdict);
    let text = verdict_text(alloc, points, verdict)?;
    Ok(Told { good, text })
}

/// Judges lists of cells, as `check` does, and tells of the verdict. The complex may have been made of the points
/// before, and is then not made again.
///
/// # Errors
/// Want of memory.
pub fn tell(
    alloc: Global,
    made: Option<Made>,
    points: &[Point],
    cells: &QuadList,
    hull: &[Tri],
) -> Result<Told, AllocError>
    requires points { IsAscending points.now }
    requires keys { AreKeys points.now }
    requires cells { AreCells points.now (as_cells cells.now hull.now) }
    ensures { IfOk result (λ told. IsTold points.now (as_cells cells.now hull.now) told.good told.text.items) }
{
    match check_beside(alloc, made, points, cells, hull) {
        Ok(verdict) => told_of(alloc, points, &verdict),
        Err(refused) => Err(refused),
    }
}
