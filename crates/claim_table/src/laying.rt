//! What a new table is laid out of: its words, its slots, and empty hands.

ghost use Rattle.std.specs.Prelude.{◌≡◌, ◌+◌, ◌*◌, ◌^◌, ◌<◌, ◌≤◌, ◌∷◌, [], IfOk, length, replicate, vec_capacity};
ghost use Rattle.cell_store.specs.Buckets.{empty_hold};
ghost use Rattle.cell_store.specs.Meshes.{AllInHand};
ghost use Rattle.claim_table.specs.Faces.{opening_of, buckets_of};
ghost use Rattle.claim_table.specs.Rule.{opening_view};

use crate::slot::Slot;
use crate::view::{Board, Key, Place};
use bucket_grid::Grid;
use cell_store::{Hold, Mesh};
use std::alloc::{AllocError, Global};
use std::snapshot::Snapshot as Told;

// The ticket, and 0 for each bucket.
fn first_words(alloc: Global, ticket: u64, count: u32) -> Result<Vec<u64>, AllocError>
    ensures { IfOk result (λ words. words.items ≡ ticket ∷ replicate count 0) }
{
    let mut words = Vec::with_capacity(alloc, count as usize + 1)?;
    words.push(ticket)?;
    for _ in 0..count {
        words.push(0)?;
    }
    Ok(words)
}

// The buckets of a hold, which are all to be in hand, in order.
fn laid_out(alloc: Global, hold: Hold) -> Result<Vec<Option<Slot>>, AllocError>
    requires { AllInHand hold }
    ensures { IfOk result (λ slots. slots.items ≡ hold.places) }
{
    let mut rest = hold;
    let count = rest.grid().count();
    let mut slots = Vec::with_capacity(alloc, count as usize)?;
    for b in 0..count {
        slots.push_reserved(Some(Slot::of(rest.take(b))));
    }
    Ok(slots)
}

/// An empty hold, and room for the order of as many claims as there are buckets.
///
/// # Errors
/// Want of memory.
pub fn empty_hands(alloc: Global, grid: Grid) -> Result<(Hold, Vec<u32>), AllocError>
    ensures hold { IfOk result (λ r. r.0 ≡ empty_hold grid) }
    ensures order { IfOk result (λ r. (r.1.items ≡ []) × (grid * grid * grid ≤ vec_capacity r.1)) }
{
    let hold = Hold::empty(alloc, grid)?;
    let order = Vec::with_capacity(alloc, grid.count() as usize)?;
    Ok((hold, order))
}

/// The board of a new table, and the seat of its first pass. There are to be 1 to 64 parts, and at most 2^32 entries
/// with all that may come.
///
/// # Errors
/// Want of memory. The mesh is then dropped.
pub fn board_for(
    alloc: Global,
    mesh: Mesh,
    parts: u32,
    allowance: u64,
) -> Result<(Board, Place), AllocError>
    requires parts { (0 < parts) × (parts ≤ 64) }
    requires room { length mesh.history + allowance ≤ 2 ^ 32 }
    ensures grid { IfOk result (λ r. r.0.shared.key.grid ≡ mesh.grid) }
    ensures parts { IfOk result (λ r. r.0.shared.key.parts ≡ parts) }
    ensures most { IfOk result (λ r. r.0.shared.key.most ≡ length mesh.history + allowance) }
    ensures opening { IfOk result (λ r. opening_of r.0.shared.key ≡ mesh.history) }
    ensures words { IfOk result (λ r. r.0.shared.table_id.words ≡ buckets_of r.0.shared.key + 1) }
    ensures slots { IfOk result (λ r. r.0.shared.table_id.slots ≡ buckets_of r.0.shared.key) }
    ensures table { IfOk result (λ r. r.1.table_id ≡ r.0.shared.table_id) }
    ensures seat { IfOk result (λ r. r.1.me ≡ (opening_view r.0.shared.key, [])) }
{
    let grid = mesh.grid();
    let count = grid.count();
    let ticket = mesh.count();
    let words = first_words(alloc, ticket, count)?;
    let key = Key {
        grid,
        parts,
        most: ticket + allowance,
        mesh: Told::of(&mesh),
    };
    let home = mesh.into_hold();
    // Nothing is read: the call promises that each bucket stands at its place.
    let _ = home.grid();
    let slots = laid_out(alloc, home)?;
    match Board::new(alloc, &words, slots, &key) {
        Ok(made) => Ok(made),
        Err(_) => Err(AllocError),
    }
}
