//! Snapshots beside writers.

ghost use Rattle.std.specs.Prelude.{◌≡◌, ◌<◌, ◌≤◌, IfOk, length};
ghost use Rattle.std.specs.Thread.{IsSync};
ghost use Rattle.grid_claims.specs.Tries.{IsStill};
ghost use Rattle.worked_cases.specs.Two.{AreTwo};

use crate::gates::{Pace, reaches};
use crate::judging::is_right;
use crate::orders::{shown, worked};
use crate::passes::{ended, opened_two, parted};
use crate::reading::{list_at, number_at};
use crate::telling::Answer;
use bucket_grid::Grid;
use cell_store::Mesh;
use edit_history::Entry;
use edit_workers::List;
use grid_claims::{MeshTable, Pass, Refused, Snapshot};
use std::alloc::{AllocError, Global};
use std::sync::atomic::Ordering;
use std::thread::{Threads, join};

// How often a snapshot is tried before the reader gives up.
const TRIES: u64 = 1_000_000;

// More edits than any scene has.
const ALL: u64 = 1_000_000_000;

// Has the lists worked on side by side, each by a part of the pass, and answers how many edits were left over.
fn write_all<R: Threads + Sync>(
    rt: &R,
    alloc: Global,
    table: &MeshTable,
    mut pass: Pass,
    lists: &[List],
    pace: &Pace,
) -> Result<(Pass, usize), AllocError>
    requires table { pass.table ≡ table.now }
    requires lists { (0 < length lists.now) × (length lists.now ≤ 64) }
    requires parts { pass.parts ≡ length lists.now }
    ensures { IfOk result (λ r. IsStill pass r.0) }
{
    if let [list] = lists {
        let mut pairs = Vec::new(alloc);
        pairs.extend_from_slice(&list.pairs)?;
        let left = worked(alloc, table, &mut pass, List { pairs }, pace)?;
        return Ok((pass, left.pairs.len()));
    }
    let (low, high) = lists.split_at(lists.len() / 2);
    let given = pass.left() / 2;
    let other = parted(alloc, table, &mut pass, high.len() as u32, given)?;
    let (a, b) = join(
        rt,
        || -> Result<(Pass, usize), AllocError>
            requires { IsSync R.row × (pass.table ≡ table.now) × (0 < length low.now) × (length low.now ≤ 64)
                × (pass.parts ≡ length low.now) }
            ensures { IfOk result (λ r. IsStill pass r.0) }
        { write_all(rt, alloc, table, pass, low, pace) },
        || -> Result<(Pass, usize), AllocError>
            requires { IsSync R.row × (other.table ≡ table.now) × (0 < length high.now) × (length high.now ≤ 64)
                × (other.parts ≡ length high.now) }
            ensures { IfOk result (λ r. IsStill other r.0) }
        { write_all(rt, alloc, table, other, high, pace) },
    );
    let (mut pass, left) = a?;
    let (other, more) = b?;
    table.join(&mut pass, other);
    Ok((pass, left.saturating_add(more)))
}

// Tries a snapshot until it is taken.
fn taken(alloc: Global, table: &MeshTable, pass: &mut Pass) -> Result<Option<Snapshot>, AllocError>
    requires { pass.old.table ≡ table.now }
    ensures { IsStill pass.old pass.new }
{
    for _ in 0..TRIES {
        match shown(alloc, table, pass) {
            Ok(snapshot) => return Ok(Some(snapshot)),
            Err(Refused::Memory) => return Err(AllocError),
            Err(_) => {}
        }
    }
    Ok(None)
}

// Takes a snapshot for every two edits that the writers made, so many.
fn read_all(
    alloc: Global,
    table: &MeshTable,
    pass: &mut Pass,
    count: u32,
    pace: &Pace,
) -> Result<Vec<Snapshot>, AllocError>
    requires { pass.old.table ≡ table.now }
    ensures { IsStill pass.old pass.new }
{
    let mut all = Vec::new(alloc);
    for turn in 0..count {
        let _ = reaches(&pace.made, u64::from(turn) * 2);
        let Some(snapshot) = taken(alloc, table, pass)? else {
            return Ok(all);
        };
        all.push(snapshot)?;
        pace.taken.store(u64::from(turn) + 1, Ordering::SeqCst);
    }
    Ok(all)
}

// The same, and lets the writers go on to their end.
fn read_and_free(
    alloc: Global,
    table: &MeshTable,
    mut pass: Pass,
    count: u32,
    pace: &Pace,
) -> (Pass, Result<Vec<Snapshot>, AllocError>)
    requires { pass.table ≡ table.now }
    ensures { IsStill pass result.0 }
{
    let all = read_all(alloc, table, &mut pass, count, pace);
    pace.taken.store(ALL, Ordering::SeqCst);
    (pass, all)
}

// The lists of edits behind the first two lists of a scene.
fn lists_of(alloc: Global, told: &mut Answer, lists: &str) -> Result<Vec<List>, AllocError> {
    let mut all = Vec::new(alloc);
    for words in lists.split(';').skip(2) {
        all.push(List {
            pairs: told.all(words),
        })?;
    }
    Ok(all)
}

// The lists worked on side by side, and the reader beside them.
fn side_by_side<R: Threads + Sync>(
    rt: &R,
    alloc: Global,
    table: &MeshTable,
    passes: (Pass, Pass),
    lists: &[List],
    count: u32,
    pace: &Pace,
) -> (
    Result<(Pass, usize), AllocError>,
    (Pass, Result<Vec<Snapshot>, AllocError>),
)
    requires writers { passes.0.table ≡ table.now }
    requires reader { passes.1.table ≡ table.now }
    requires lists { (0 < length lists.now) × (length lists.now ≤ 64) }
    requires parts { passes.0.parts ≡ length lists.now }
    ensures writers { IfOk result.0 (λ r. IsStill passes.0 r.0) }
    ensures reader { IsStill passes.1 result.1.0 }
{
    let (writers, reader) = passes;
    join(
        rt,
        || -> Result<(Pass, usize), AllocError>
            requires { (writers.table ≡ table.now) × (0 < length lists.now) × (length lists.now ≤ 64)
                × (writers.parts ≡ length lists.now) }
            ensures { IfOk result (λ r. IsStill writers r.0) }
        { write_all(rt, alloc, table, writers, lists, pace) },
        || -> (Pass, Result<Vec<Snapshot>, AllocError>)
            requires { reader.table ≡ table.now }
            ensures { IsStill reader result.0 }
        { read_and_free(alloc, table, reader, count, pace) },
    )
}

// Puts down how many snapshots were taken, and how many of them were right, and went on with the one before.
fn put_shots(alloc: Global, told: &mut Answer, shots: &[Snapshot]) -> Result<(), AllocError> {
    let (mut right, mut going_on) = (0u32, 0u32);
    let mut before: &[Entry] = &[];
    for shot in shots {
        if is_right(alloc, &shot.history, &shot.complex)? {
            right = right.saturating_add(1);
        }
        if shot.history.starts_with(before) {
            going_on = going_on.saturating_add(1);
        }
        before = &shot.history;
    }
    let taken = shots.len();
    write!(
        told,
        " {taken} snapshots {right} right {going_on} going on;"
    );
    Ok(())
}

// Has the lists worked on beside a reader, to the end of the table: the mesh, how
// many edits were left over, and the snapshots.
fn write_and_read<R: Threads + Sync>(
    rt: &R,
    alloc: Global,
    table: MeshTable,
    passes: (Pass, Pass),
    lists: &[List],
    count: u32,
) -> Result<(Mesh, usize, Vec<Snapshot>), AllocError>
    requires two { AreTwo table passes.0 passes.1 (length lists.now) }
    requires lists { (0 < length lists.now) × (length lists.now ≤ 64) }
{
    let pace = Pace::new();
    let (written, (reader, shots)) = side_by_side(rt, alloc, &table, passes, lists, count, &pace);
    let (pass, left) = written?;
    let shots = shots?;
    Ok((ended(table, pass, reader), left, shots))
}

// Puts down whether a mesh is right, and how many entries and edits left over there are.
fn put_end(alloc: Global, told: &mut Answer, mesh: &Mesh, left: usize) -> Result<(), AllocError> {
    let history = one_mesh::history(alloc, mesh)?;
    let complex = one_mesh::complex(alloc, mesh)?;
    let is_right = is_right(alloc, &history, &complex)?;
    write!(
        told,
        " the end {} {} made or left over",
        if is_right { "right" } else { "wrong" },
        history.len().saturating_add(left)
    );
    Ok(())
}

/// Plays a scene of a reader beside writers.
///
/// # Errors
/// Want of memory.
pub(crate) fn play<R: Threads + Sync>(
    rt: &R,
    alloc: Global,
    told: &mut Answer,
    grid: Grid,
    lists: &str,
) -> Result<(), AllocError> {
    let points = told.all(list_at(lists, 0));
    let count = number_at(list_at(lists, 1), 0);
    let all = lists_of(alloc, told, lists)?;
    if all.is_empty() || all.len() > 63 {
        told.put("no lists");
        return Ok(());
    }
    let parts = all.len() as u32 + 1;
    let two = opened_two(alloc, told, grid, &points, (parts, 1024), (1, 0))?;
    let Some((table, pass, reader)) = two else {
        return Ok(());
    };
    let (mesh, left, shots) = write_and_read(rt, alloc, table, (pass, reader), &all, count)?;
    put_shots(alloc, told, &shots)?;
    put_end(alloc, told, &mesh, left)
}
