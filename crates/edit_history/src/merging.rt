//! Entries that are kept in several lists.

ghost use Rattle.std.specs.Prelude.{◌≡◌, ◌<◌, IfOk, IsPermutation};
ghost use Rattle.std.specs.List.{flat_map};
ghost use Rattle.edit_history.specs.Merging.{AreNumbered, numbers, places_of};

use crate::history::Entry;
use std::alloc::{AllocError, Global};

/// The entries of all lists, in the order of their numbers: the entry at place `i` has number `i`.
///
/// The numbers of all lists together are to be 0, 1, 2 and so on, each once.
///
/// # Errors
/// Want of memory.
pub fn merge(alloc: Global, lists: &[Vec<Entry>]) -> Result<Vec<Entry>, AllocError>
    requires { AreNumbered (flat_map (λ list. list.items) lists.now) }
    ensures entries { IfOk result (λ merged. IsPermutation (flat_map (λ list. list.items) lists.now) merged.items) }
    ensures order { IfOk result (λ merged. numbers merged.items ≡ places_of merged.items) }
{
    let mut merged = Vec::new(alloc);
    for list in lists {
        merged.extend_from_slice(list)?;
    }
    merged.sort_unstable_by_key(|entry| entry.number);
    Ok(merged)
}
