//! Edits in a hold of all buckets, whose words name the passes that hold them.

ghost use Rattle.std.specs.Prelude.{◌≡◌, ◌≢◌, ◌↔◌, IsTrue, true, false, ℕ, ◌*◌, ◌+◌, ◌<◌, List, All, length, IfOk};
ghost use Rattle.std.specs.Prelude.{OnOk, OnErr, IsSome};
ghost use Rattle.edit_history.specs.Edits.{HasKeys, edit_points, reply_to};
ghost use Rattle.point_order.specs.Facets.{points_of};
ghost use Rattle.cell_store.specs.Buckets.{bucket_at};
ghost use Rattle.bucket_grid.specs.Grids.{bucket_of};
ghost use Rattle.cell_store.specs.Meshes.{IsWhole};
ghost use Rattle.cell_store.specs.Shares.{Shows};
ghost use Rattle.claim_rule.specs.Making.{IsExchangedIn, EditGives};
ghost use Rattle.claim_rule.specs.Trials.{NamesPass};

use crate::trial::trial_of;
use bucket_grid::Grid;
use cell_store::Hold;
use edit_history::{Edit, Entry};
use point_order::{Cell, Point};
use std::alloc::{AllocError, Global};

// Whether the word of the bucket names the pass.
pub(crate) fn names(words: &[u64], b: u32, n: u32) -> bool
    ensures { IsTrue result ↔ NamesPass n words.now b }
{
    match words.get(b as usize) {
        Some(word) => *word == u64::from(n) + 1,
        None => false,
    }
}

// Whether the words of the buckets of all these points name the pass.
fn names_points(words: &[u64], grid: Grid, n: u32, points: &[Point]) -> bool
    ensures { IsTrue result ↔ All (λ p. NamesPass n words.now (bucket_of grid p)) points.now }
{
    points.iter().all(|p| names(words, grid.bucket_of(*p), n))
}

// Whether the words of the buckets of all points of these cells name the pass.
fn names_cells(words: &[u64], grid: Grid, n: u32, cells: &[Cell]) -> bool
    ensures { IsTrue result ↔ All (λ c. All (λ p. NamesPass n words.now (bucket_of grid p)) (points_of c)) cells.now }
{
    cells
        .iter()
        .all(|c| names_points(words, grid, n, c.points()))
}

// Whether no bucket's word names the pass.
pub(crate) fn holds_nothing(words: &[u64], n: u32) -> bool
    ensures { IsTrue result ↔ All (λ w. w ≢ n + 1) words.now }
{
    words.iter().all(|w| *w != u64::from(n) + 1)
}

// Whether the words of the buckets of the edit's points name the pass.
fn names_own(words: &[u64], grid: Grid, n: u32, edit: &Edit) -> bool
    ensures { IsTrue result ↔ All (λ p. NamesPass n words.now (bucket_of grid p)) (edit_points edit.now) }
{
    match *edit {
        Edit::Add(p) | Edit::Take(p) => names_points(words, grid, n, &[p]),
        Edit::Move(a, b) => names_points(words, grid, n, &[a, b]),
    }
}

// Whether the words of the buckets of the edit's points and of all points of these cells name the pass.
fn names_touched(words: &[u64], grid: Grid, n: u32, edit: &Edit, near: &[Cell]) -> bool
    ensures { IsTrue result ↔ (All (λ p. NamesPass n words.now (bucket_of grid p)) (edit_points edit.now)
        × All (λ c. All (λ p. NamesPass n words.now (bucket_of grid p)) (points_of c)) near.now) }
{
    names_own(words, grid, n, edit) && names_cells(words, grid, n, near)
}

// The points of an edit are keys of points. Nothing is read: the calls promise it.
fn know_keys(edit: &Edit)
    ensures { HasKeys edit.now }
{
    match *edit {
        Edit::Add(p) | Edit::Take(p) => {
            let _ = p.key();
        }
        Edit::Move(a, b) => {
            let _ = a.key();
            let _ = b.key();
        }
    }
}

// Exchanges the cells in a hold of all buckets, puts in the place to which a point has moved, and notes the entry.
fn exchange(
    alloc: Global,
    hold: &mut Hold,
    gone: &[Cell],
    fresh: &[Cell],
    entry: Entry,
) -> Result<(), AllocError>
    requires whole { IsWhole hold.old }
    requires right { (s : List ℕ) × Shows hold.old s × (entry.reply ≡ reply_to s entry.edit) }
    ensures exchanged { OnOk result (IsExchangedIn gone.now fresh.now entry hold.old hold.new) }
    ensures refused { OnErr result (hold.new ≡ hold.old) }
{
    hold.reserve(alloc, gone, fresh, &entry.edit)?;
    hold.swap_cells(gone, fresh);
    hold.put_goal(&entry);
    hold.push_entry(entry);
    Ok(())
}

// Makes the edit in a hold of all buckets, as the entry with the number, where the words of all buckets that it touches
// name the pass; answers whether they do.
pub(crate) fn edit_in(
    alloc: Global,
    hold: &mut Hold,
    words: &[u64],
    number: u64,
    n: u32,
    tag: u32,
    edit: Edit,
) -> Result<bool, AllocError>
    requires all { (b : ℕ) → b < length words.now → IsSome (bucket_at hold.old.places b) }
    requires as_many { length words.now ≡ hold.old.grid * hold.old.grid * hold.old.grid }
    requires shows { (s : List ℕ) × Shows hold.old s }
    ensures keys { IfOk result (λ made. HasKeys edit) }
    ensures unmade { IfOk result (λ made. made ≡ false → hold.new ≡ hold.old) }
    ensures made { IfOk result (λ made. (s : List ℕ) → Shows hold.old s →
        EditGives words.now s number n tag edit hold.old made hold.new) }
    ensures refused { OnErr result (hold.new ≡ hold.old) }
{
    let grid = hold.grid();
    know_keys(&edit);
    let trial = trial_of(alloc, hold, edit)?;
    let own = names_touched(words, grid, n, &edit, &trial.near);
    if own {
        let entry = Entry {
            number,
            by: n,
            tag,
            edit,
            reply: trial.reply,
        };
        exchange(alloc, hold, &trial.gone, &trial.fresh, entry)?;
    }
    Ok(own)
}
