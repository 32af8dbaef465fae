//! Whole numbers: identities between polynomials, and the signs and sizes of sums and products.
//!
//! Each function here does nothing, and its contract is a law of the crate. Crates above use the laws through
//! `proofs/Cited`: identities and signs by computing (`Ring`), and the laws of `Whole`, `Signs` and `Bounds`.
#![tactic(auto)]

ghost use Rattle.whole_ring.specs.Laws.{RingLaw, CombinationLaw, NonnegativeLaw, PositiveLaw, SignOfProduct};
ghost use Rattle.whole_ring.specs.Laws.{ZeroFactor, SizeOfSum, SizeOfProduct};

/// Two expressions have the same value at every list of numbers, where their difference computes to the polynomial 0;
/// and at every list where given equations hold, where it is a combination of those.
pub fn ring_law()
    ensures same_polynomial { RingLaw }
    ensures by_combination { CombinationLaw }
{}

/// The sign of a number, where a positive multiple of it is a sum of products of known signs.
pub fn sign_by_products()
    ensures nonnegative { NonnegativeLaw }
    ensures positive { PositiveLaw }
{}

/// The sign of a product, and when it is 0.
pub fn sign_of_product()
    ensures product { SignOfProduct }
    ensures zero { ZeroFactor }
{}

/// How large a sum and a product can be.
pub fn size_of_terms()
    ensures sum { SizeOfSum }
    ensures product { SizeOfProduct }
{}
