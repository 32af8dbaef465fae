//! Segment after segment, the lists of each at once, each by a worker of its own.

ghost use Rattle.std.specs.Prelude.{◌≡◌, ◌⊎◌, ◌+◌, ◌^◌, ◌<◌, ◌≤◌, ◌++◌, IfOk, OnOk, length, All, true, false};
ghost use Rattle.std.specs.Thread.{IsSync};
ghost use Rattle.grid_claims.specs.Tries.{joined};
ghost use Rattle.edit_lists.specs.Dealing.{segments_of, pairs_in, CanBeDone, all_of, count_in_all, count_all};
ghost use Rattle.edit_workers.specs.Running.{AreRun, IsSegmentRun, CanRun, AreWorked, AreHalves, AreRunBut, AreApplied};
ghost use Rattle.edit_workers.specs.Running.{AreByTag};

use crate::arranging::in_place;
use crate::lists::Left;
use crate::rounds::work_in_rounds;
use cell_store::Mesh;
use edit_gates::Gate;
use edit_history::Edit;
use edit_lists::{List, Lists};
use grid_claims::{MeshTable, Pass};
use one_mesh::apply;
use std::alloc::{AllocError, Global};
use std::thread::{Threads, available_parallelism, join};

// A segment that is one of several and has fewer pairs than so many is made without workers: to start them and to open
// a table takes longer.
const FEW: u64 = 8;

// How many pairs the lists have.
fn pair_count(lists: &[List]) -> u64
    requires { count_in_all (pairs_in lists.now) ≤ 2 ^ 32 }
    ensures { result ≡ count_in_all (pairs_in lists.now) }
{
    let mut count = 0;
    for list in lists {
        count += list.pairs.len() as u64;
    }
    count
}

// Does the one list that there is, by the pass. `count` tells how many parts the table has.
fn work_alone<G: Gate>(
    alloc: Global,
    table: &MeshTable,
    mut pass: Pass,
    lists: &[List],
    count: u32,
    gate: &G,
) -> Result<(Pass, Left), AllocError>
    requires one { length lists.now ≡ 1 }
    requires run { CanRun table.now (pairs_in lists.now) pass }
    requires count { (0 < count) × (count ≡ table.now.parts) }
    ensures { IfOk result (λ r. AreWorked (pairs_in lists.now) r.1.pairs.items pass r.0) }
{
    let list = in_place(alloc, &lists[0], pass.first(), count)?;
    let left = work_in_rounds(alloc, table, &mut pass, &list, gate)?;
    Ok((pass, left))
}

// Joins two passes, the second of which comes behind the first, and what they left over.
fn together(
    table: &MeshTable,
    low: (Pass, Left),
    high: (Pass, Left),
) -> Result<(Pass, Left), AllocError>
    requires low { low.0.table ≡ table.now }
    requires high { high.0.table ≡ table.now }
    requires next { high.0.first ≡ low.0.first + low.0.parts }
    ensures pass { IfOk result (λ r. r.0 ≡ joined low.0 high.0) }
    ensures left { IfOk result (λ r. r.1.pairs.items ≡ low.1.pairs.items ++ high.1.pairs.items) }
{
    let (mut pass, mut left) = low;
    let (other, mut more) = high;
    table.join(&mut pass, other);
    left.pairs.append(&mut more.pairs)?;
    Ok((pass, left))
}

// Halves lists, and splits off of the pass a part for each list of the second half.
fn halves<'a>(
    alloc: Global,
    table: &MeshTable,
    pass: &mut Pass,
    lists: &'a [List],
) -> Result<(Pass, &'a [List], &'a [List]), AllocError>
    requires several { 1 < length lists.now }
    requires run { CanRun table.now (pairs_in lists.now) pass.old }
    ensures halves { IfOk result (λ r. AreHalves table.now (pairs_in lists.now) (pairs_in r.1.now) (pairs_in r.2.now)
        pass.old pass.new r.0) }
    ensures fewer_low { IfOk result (λ r. length r.1.now < length lists.now) }
    ensures fewer_high { IfOk result (λ r. length r.2.now < length lists.now) }
{
    let (low, high) = lists.split_at(lists.len() / 2);
    let other = table.split(alloc, pass, high.len() as u32, pair_count(high))?;
    Ok((other, low, high))
}

// Does the lists, each by a part of the pass, one after another. `count` tells how many parts the table has.
fn work_in_turn<G: Gate>(
    alloc: Global,
    table: &MeshTable,
    mut pass: Pass,
    lists: &[List],
    count: u32,
    gate: &G,
) -> Result<(Pass, Left), AllocError>
    requires run { CanRun table.now (pairs_in lists.now) pass }
    requires count { (0 < count) × (count ≡ table.now.parts) }
    ensures { IfOk result (λ r. AreWorked (pairs_in lists.now) r.1.pairs.items pass r.0) }
{
    if lists.len() == 1 {
        return work_alone(alloc, table, pass, lists, count, gate);
    }
    let (other, low, high) = halves(alloc, table, &mut pass, lists)?;
    let a = work_in_turn(alloc, table, pass, low, count, gate)?;
    let b = work_in_turn(alloc, table, other, high, count, gate)?;
    together(table, a, b)
}

// Does the lists, each by a part of the pass: halves side by side, as long as there are threads for both. `count` tells
// how many parts the table has.
fn work_all<G: Gate + Sync, R: Threads + Sync>(
    rt: &R,
    alloc: Global,
    table: &MeshTable,
    mut pass: Pass,
    lists: &[List],
    count: u32,
    threads: usize,
    gate: &G,
) -> Result<(Pass, Left), AllocError>
    requires run { CanRun table.now (pairs_in lists.now) pass }
    requires count { (0 < count) × (count ≡ table.now.parts) }
    ensures { IfOk result (λ r. AreWorked (pairs_in lists.now) r.1.pairs.items pass r.0) }
{
    if lists.len() == 1 || threads < 2 {
        return work_in_turn(alloc, table, pass, lists, count, gate);
    }
    let (other, low, high) = halves(alloc, table, &mut pass, lists)?;
    let (a, b) = join(
        rt,
        || -> Result<(Pass, Left), AllocError>
            requires { IsSync R.row × IsSync G.row × CanRun table.now (pairs_in low.now) pass × (0 < count)
                × (count ≡ table.now.parts) }
            ensures { IfOk result (λ r. AreWorked (pairs_in low.entry.now) r.1.pairs.items pass r.0) }
        { work_all(rt, alloc, table, pass, low, count, threads / 2, gate) },
        || -> Result<(Pass, Left), AllocError>
            requires { IsSync R.row × IsSync G.row × CanRun table.now (pairs_in high.now) other × (0 < count)
                × (count ≡ table.now.parts) }
            ensures { IfOk result (λ r. AreWorked (pairs_in high.entry.now) r.1.pairs.items other r.0) }
        {
            work_all(
                rt,
                alloc,
                table,
                other,
                high,
                count,
                threads - threads / 2,
                gate,
            )
        },
    );
    together(table, a?, b?)
}

// How many threads do lists at once: as many as there are processors, but two at least, so that workers can meet.
fn thread_count<R: Threads>(rt: &R) -> usize
    ensures { 2 ≤ result }
{
    match available_parallelism(rt) {
        Ok(count) => count.get().max(2),
        Err(_) => 2,
    }
}

// Does the lists side by side on the mesh, all but the pairs that are left over.
fn side_by_side<G: Gate + Sync, R: Threads + Sync>(
    rt: &R,
    alloc: Global,
    mesh: Mesh,
    lists: &[List],
    gate: &G,
) -> Result<(Mesh, Left), AllocError>
    requires lists { CanBeDone (pairs_in lists.now) }
    requires room { length mesh.history + count_in_all (pairs_in lists.now) ≤ 2 ^ 32 }
    ensures run { IfOk result (λ r. AreRunBut (pairs_in lists.now) r.1.pairs.items mesh.history r.0.history) }
    ensures grid { IfOk result (λ r. r.0.grid ≡ mesh.grid) }
{
    let count = lists.len() as u32;
    let (table, pass) = MeshTable::open(alloc, mesh, count, pair_count(lists))?;
    let (pass, left) = work_all(
        rt,
        alloc,
        &table,
        pass,
        lists,
        count,
        thread_count(rt),
        gate,
    )?;
    Ok((table.close(pass), left))
}

// Puts pairs in the order of their tags.
fn sort_by_tag(left: &mut Left)
    ensures { AreByTag left.old.pairs.items left.new.pairs.items }
{
    left.pairs.sort_unstable_by_key(|pair| pair.0);
}

// Makes the edits of pairs on the mesh, one by one.
fn apply_all(alloc: Global, mesh: &mut Mesh, pairs: &[(u32, Edit)]) -> Result<(), AllocError>
    requires room { length mesh.old.history + length pairs.now ≤ 2 ^ 32 }
    ensures applied { OnOk result (AreApplied pairs.now mesh.old.history mesh.new.history) }
    ensures grid { OnOk result (mesh.new.grid ≡ mesh.old.grid) }
{
    for (tag, edit) in pairs {
        apply(alloc, mesh, *tag, *edit)?;
    }
    Ok(())
}

// Makes the edits of lists on the mesh, one by one.
fn apply_lists(alloc: Global, mesh: &mut Mesh, lists: &[List]) -> Result<(), AllocError>
    requires room { length mesh.old.history + count_in_all (pairs_in lists.now) ≤ 2 ^ 32 }
    ensures applied { OnOk result (AreApplied (all_of (pairs_in lists.now)) mesh.old.history mesh.new.history) }
    ensures grid { OnOk result (mesh.new.grid ≡ mesh.old.grid) }
{
    for list in lists {
        apply_all(alloc, mesh, &list.pairs)?;
    }
    Ok(())
}

// Does the lists side by side on the mesh, and then what they leave over.
fn run_beside<G: Gate + Sync, R: Threads + Sync>(
    rt: &R,
    alloc: Global,
    mesh: Mesh,
    lists: &[List],
    gate: &G,
) -> Result<Mesh, AllocError>
    requires lists { CanBeDone (pairs_in lists.now) }
    requires room { length mesh.history + count_in_all (pairs_in lists.now) ≤ 2 ^ 32 }
    ensures run { IfOk result (λ m. IsSegmentRun (pairs_in lists.now) mesh.history m.history) }
    ensures grid { IfOk result (λ m. m.grid ≡ mesh.grid) }
{
    let (mut mesh, mut left) = side_by_side(rt, alloc, mesh, lists, gate)?;
    sort_by_tag(&mut left);
    // Nothing is read: the call promises that the history is legal.
    let _ = mesh.count();
    apply_all(alloc, &mut mesh, &left.pairs)?;
    Ok(mesh)
}

// The pairs of all lists.
fn all_pairs(alloc: Global, lists: &[List]) -> Result<Left, AllocError>
    ensures { IfOk result (λ all. all.pairs.items ≡ all_of (pairs_in lists.now)) }
{
    let mut pairs = Vec::new(alloc);
    for list in lists {
        let mut more = Vec::from_slice(alloc, &list.pairs)?;
        pairs.append(&mut more)?;
    }
    Ok(Left { pairs })
}

// Does the lists on the mesh without workers, by their tags.
fn run_alone(alloc: Global, mesh: &mut Mesh, lists: &[List]) -> Result<(), AllocError>
    requires lists { CanBeDone (pairs_in lists.now) }
    requires room { length mesh.old.history + count_in_all (pairs_in lists.now) ≤ 2 ^ 32 }
    ensures run { OnOk result (IsSegmentRun (pairs_in lists.now) mesh.old.history mesh.new.history) }
    ensures grid { OnOk result (mesh.new.grid ≡ mesh.old.grid) }
{
    // Nothing is read: the call promises that the history is legal.
    let _ = mesh.count();
    if lists.len() == 1 {
        apply_lists(alloc, mesh, lists)?;
        return Ok(());
    }
    let mut all = all_pairs(alloc, lists)?;
    sort_by_tag(&mut all);
    apply_all(alloc, mesh, &all.pairs)?;
    Ok(())
}

// Whether a segment, and whether it is one of several, needs no workers: one of few pairs, and one of several that has
// one list.
fn needs_none(lists: &[List], is_of_several: bool) -> bool
    requires { count_in_all (pairs_in lists.now) ≤ 2 ^ 32 }
    ensures several { result ≡ true → (length lists.now ≡ 1) ⊎ (count_in_all (pairs_in lists.now) < 8) }
    ensures one { is_of_several ≡ false → result ≡ true → count_in_all (pairs_in lists.now) < 2 }
{
    let few = if is_of_several { FEW } else { 2 };
    pair_count(lists) < few || is_of_several && lists.len() == 1
}

// Does the lists of a segment on the mesh.
fn run_segment<G: Gate + Sync, R: Threads + Sync>(
    rt: &R,
    alloc: Global,
    mesh: Mesh,
    lists: &[List],
    is_of_several: bool,
    gate: &G,
) -> Result<Mesh, AllocError>
    requires lists { CanBeDone (pairs_in lists.now) }
    requires room { length mesh.history + count_in_all (pairs_in lists.now) ≤ 2 ^ 32 }
    ensures run { IfOk result (λ m. IsSegmentRun (pairs_in lists.now) mesh.history m.history) }
    ensures grid { IfOk result (λ m. m.grid ≡ mesh.grid) }
{
    if needs_none(lists, is_of_several) {
        let mut mesh = mesh;
        run_alone(alloc, &mut mesh, lists)?;
        return Ok(mesh);
    }
    Ok(run_beside(rt, alloc, mesh, lists, gate)?)
}

/// Makes the edits of all segments on the mesh, one segment after another. Each list of a segment is done by a worker
/// of its own, as many side by side as there are processors, and two at least; then what they leave over, in the order
/// of its tags. A segment of one pair needs no workers, nor does one of less than eight pairs, or of one list, among
/// several: one thread makes it, in the order of its tags.
///
/// The history goes on with each pair of the segments once: those of a segment before those of the next, those of a
/// segment that share a point by their tags, and each entry by a number below the number of lists of its segment; with
/// one list in each segment just the pairs in their order. In a segment first come entries by the worker of their list,
/// and then what was left over, by 0. The grid stays.
///
/// In each segment there are to be 1 to 64 lists, with ascending tags in each and no point in two of them, and a pair
/// that moves is to share no point with another one. There are to be at most 2^32 entries with all that may come.
///
/// # Errors
/// Want of memory. The mesh is then dropped.
pub fn run_edits<G: Gate + Sync, R: Threads + Sync>(
    rt: &R,
    alloc: Global,
    mesh: Mesh,
    lists: &Lists,
    gate: &G,
) -> Result<Mesh, AllocError>
    requires segments { All CanBeDone (segments_of lists.now) }
    requires room { length mesh.history + count_all (segments_of lists.now) ≤ 2 ^ 32 }
    ensures run { IfOk result (λ m. AreRun (segments_of lists.now) mesh.history m.history) }
    ensures grid { IfOk result (λ m. m.grid ≡ mesh.grid) }
{
    let is_of_several = lists.segments.len() > 1;
    let mut made = mesh;
    for segment in &lists.segments {
        made = run_segment(rt, alloc, made, &segment.each, is_of_several, gate)?;
    }
    Ok(made)
}
