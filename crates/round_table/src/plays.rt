//! What each step on the table tells.

use crate::view::View;
use atomic_table::{Join, Play, Split};

pub(crate) struct Claim;

impl<T> Play<Option<T>, View<T>> for Claim {
    ghost use Rattle.round_table.specs.Plays.{Told};

    ghost then = { Told };
}

pub(crate) struct Newcomer;

impl<T> Play<Option<T>, View<T>> for Newcomer {
    ghost use Rattle.round_table.specs.Plays.{Comes};

    ghost then = { Comes };
}

// The first pass of a seat moves to a seat of its own.
pub(crate) struct First;

impl<T> Split<View<T>> for First {
    ghost use Rattle.round_table.specs.Plays.{first_of, but_first};

    ghost left = { but_first };

    ghost right = { first_of };
}

// All that a seat knows moves to a seat that holds no slot.
pub(crate) struct Whole;

impl<T> Split<View<T>> for Whole {
    ghost use Rattle.round_table.specs.Plays.{emptied};

    ghost left = { emptied };

    ghost right = { λ v. v };
}

// The passes of two seats stand in one.
pub(crate) struct Together;

impl<T> Join<View<T>> for Together {
    ghost use Rattle.round_table.specs.Plays.{joins, spent};

    ghost both = { joins };

    ghost spent = { spent };
}
