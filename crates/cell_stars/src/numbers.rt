//! Numbers of 32 bits, in which places and stars are counted.

ghost use Rattle.std.specs.Prelude.{◌≡◌, ◌+◌, ◌<◌, ◌≤◌, ◌^◌, IfOk, OnOk, OnErr, None, Some};
ghost use Rattle.point_order.specs.Sets.{IsAscending, is_among};

use std::alloc::AllocError;

/// A count as a number of 32 bits.
///
/// # Errors
/// Want of memory, exactly where the count is 2^32 or more.
pub fn as_number(count: usize) -> Result<u32, AllocError>
    ensures value { IfOk result (λ number. number ≡ count) }
    ensures few { OnOk result (count < 2 ^ 32) }
    ensures many { OnErr result (2 ^ 32 ≤ count) }
{
    match u32::try_from(count) {
        Ok(number) => Ok(number),
        Err(_) => Err(AllocError),
    }
}

// The number behind one. Want of memory, exactly where the one is the last of 32 bits.
pub(crate) fn number_behind(n: u32) -> Result<u32, AllocError>
    ensures next { IfOk result (λ next. next ≡ n + 1) }
    ensures last { OnErr result (n + 1 ≡ 2 ^ 32) }
{
    match n.checked_add(1) {
        Some(next) => Ok(next),
        None => Err(AllocError),
    }
}

// Up to so many numbers are looked through in turn.
const FEW: usize = 32;

// Whether the number is one of these.
pub(crate) fn has_number(list: &[u32], i: u32) -> bool
    requires { IsAscending list.now }
    ensures { result ≡ is_among i list.now }
{
    is_listed(list, i)
}

// The same of any list, as far as it ascends.
pub(crate) fn is_listed(list: &[u32], i: u32) -> bool
    ensures { IsAscending list.now → result ≡ is_among i list.now }
{
    if list.len() <= FEW {
        list.contains(&i)
    } else {
        list.binary_search(&i).is_ok()
    }
}
