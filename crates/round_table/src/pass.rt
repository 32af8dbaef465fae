//! Passes.

ghost use Rattle.std.specs.Prelude.{◌≡◌};

use crate::view::Place;
use std::marker::Model;

/// The leave to claim buckets of a table in a round. What it claims stays with its worker.
#[derive(Drop)]
pub struct Pass<T> {
    pub(crate) place: Place<T>,
    pub(crate) number: u32,
}

impl<T> Model for Pass<T> {
    ghost use Rattle.std.specs.Prelude.{◌≡◌, ◌∷◌, []};
    ghost use Rattle.round_table.specs.Rounds.{Standing, standing, claims_of};

    ghost Value = { Standing T };

    ghost view = { λ p. standing p.place.table_id p.place.me.0 p.number };

    ghost invariant = { λ p. p.place.me.0.hands ≡ record { number = p.number; claims = claims_of p.place.me.0.hands }
        ∷ [] };
}

impl<T> Pass<T> {
    /// Its number, by which other passes are told of it.
    pub fn number(&self) -> u32
        ensures { result ≡ self.now.number }
    {
        self.number
    }
}
