//! Counts as numbers of 32 bits.

ghost use Rattle.std.specs.Prelude.{◌≡◌, ◌<◌, ◌≤◌, ◌+◌, ◌^◌, IfOk, OnOk, OnErr};

use std::alloc::AllocError;

/// A count as a number of 32 bits, in which cells and the places of their lists are numbered.
///
/// # Errors
/// Want of memory, exactly where the count is 2^32 or more.
pub fn number_of(count: usize) -> Result<u32, AllocError>
    ensures value { IfOk result (λ number. number ≡ count) }
    ensures few { OnOk result (count < 2 ^ 32) }
    ensures many { OnErr result (2 ^ 32 ≤ count) }
{
    match u32::try_from(count) {
        Ok(number) => Ok(number),
        Err(_) => Err(AllocError),
    }
}

/// The sum of two counts.
///
/// # Errors
/// Want of memory, where it is 2^64 or more.
pub(crate) fn sum_of(a: usize, b: usize) -> Result<usize, AllocError>
    ensures { IfOk result (λ sum. sum ≡ a + b) }
{
    match a.checked_add(b) {
        Some(sum) => Ok(sum),
        None => Err(AllocError),
    }
}
