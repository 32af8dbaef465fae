//! The numbers of the cells, of which one is the least alpha at which there are few parts.

ghost use Rattle.std.specs.Prelude.{◌≡◌, ◌<◌, ◌^◌, ◌↔◌, ℕ, map, max, length, IsTrue, IfOk};
ghost use Rattle.std.specs.List.{list_all, list_any};
ghost use Rattle.point_order.specs.Sets.{IsIn};
ghost use Rattle.alpha_complex.specs.Judged.{is_small_cell};
ghost use Rattle.alpha_complex.specs.Leasts.{AreKnown, IsLeastOf};
ghost use Rattle.std.specs.List.Sorted.{IsNonDecreasingBy};
ghost use Rattle.solid_parts.specs.Levels.{AreLevels};
ghost use Rattle.solid_parts.specs.Links.{count_to};

use alpha_complex::Alphas;
use std::alloc::{AllocError, Global};

/// The greater of two numbers.
pub fn greater(m: u64, n: u64) -> u64
    ensures { result ≡ max m n }
{
    if m < n { n } else { m }
}

/// The least alpha at which some admitted cell has each of the points, by their numbers.
pub fn cover_least(known: &Alphas) -> u64
    requires { AreKnown known.now }
    ensures { IsLeastOf
        (λ alpha. list_all (list_any (is_small_cell alpha)) (map (λ f. f.1) known.now.faces.now.points)) result }
{
    let mut least = 0;
    for index in 0..known.faces.points().len() {
        least = greater(least, known.point(index).regular);
    }
    least
}

/// The numbers in order, each once.
///
/// # Errors
/// Want of memory.
pub fn in_order(alloc: Global, numbers: &[u64]) -> Result<Vec<u64>, AllocError>
    ensures { IfOk result (λ v. AreLevels numbers.now v.items) }
{
    let mut levels = Vec::from_slice(alloc, numbers)?;
    levels.sort_unstable();
    levels.dedup();
    Ok(levels)
}

/// The numbers in order.
///
/// # Errors
/// Want of memory.
pub fn sorted(alloc: Global, numbers: &[u64]) -> Result<Vec<u64>, AllocError>
    ensures order { IfOk result (λ v. IsNonDecreasingBy (λ n. n) v.items) }
    ensures same { IfOk result (λ v. (alpha : ℕ) → count_to v.items alpha ≡ count_to numbers.now alpha) }
{
    let mut sorted = Vec::from_slice(alloc, numbers)?;
    sorted.sort_unstable();
    Ok(sorted)
}
