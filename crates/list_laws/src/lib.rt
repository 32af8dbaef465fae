//! Lists: members, distinct and ascending lists, filters, places; and truth values, options and numbers as proofs need
//! them.
//!
//! Each function here does nothing, and its contract is a law. The definitions are in `specs/`. The lemmas are in
//! `proofs/`, a file for each topic, and those that crates above cite are passed on by `proofs/Cited`.
#![tactic(auto)]

ghost use Rattle.list_laws.specs.Laws.{SameMembers, FewerMembers, LeastRatio, Handshake, AnotherOfEven, NoneIsEven};
ghost use Rattle.list_laws.specs.Laws.{OneIsOdd, TwoAreEven, CountOfPart, CountOfLess};

/// Ascending lists of the same numbers are one list.
pub fn same_members()
    ensures { SameMembers }
{}

/// A list in which no element stands twice is no longer than a list that has all its elements.
pub fn fewer_members<T>()
    ensures { FewerMembers T }
{}

/// A list has a member of least ratio, among those where the denominator is positive, unless it is positive at none.
pub fn least_ratio<T>()
    ensures { LeastRatio T }
{}

/// The handshake lemma: evenly many nodes of a graph have an odd degree. So where one has, another has.
pub fn handshake<T>()
    ensures degrees { Handshake T }
    ensures another { AnotherOfEven T }
{}

/// How many members of a list pass a test, as even or odd: none, exactly one, exactly two.
pub fn parity_of_few<T>()
    ensures none { NoneIsEven T }
    ensures one { OneIsOdd T }
    ensures two { TwoAreEven T }
{}

/// A stricter test counts at most as many members of a list, and fewer where a member passes the other test alone.
pub fn count_of_part<T>()
    ensures most { CountOfPart T }
    ensures less { CountOfLess T }
{}
