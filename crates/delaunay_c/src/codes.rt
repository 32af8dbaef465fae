//! The numbers that tell refusals.

ghost use Rattle.std.specs.Prelude.{◌≡◌};
ghost use Rattle.delaunay_c.specs.Codes.{status_after, status_number};

use mesh_handle::Refusal;

// The status of a refusal.
pub(crate) fn status_of(refusal: Refusal) -> u8
    ensures { result ≡ status_number refusal }
{
    match refusal {
        Refusal::Memory => 1,
        Refusal::Outside => 2,
        Refusal::Empty => 5,
        Refusal::Full => 6,
        Refusal::Unknown => 7,
    }
}

// The status of a call for many.
pub(crate) fn status_of_many(refusal: Option<Refusal>) -> u8
    ensures { result ≡ status_after refusal }
{
    match refusal {
        None => 0,
        Some(refusal) => status_of(refusal),
    }
}
