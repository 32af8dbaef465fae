//! Plans of exchanges, which are carried out without memory and without a search.

ghost use Rattle.std.specs.Option.{option_map};

use crate::around::Around;
use crate::free::Free;
use crate::joins::Joint;
use crate::parts::KeyPart;
use crate::slots::Slot;
use std::fmt::{self, Debug, Formatter};
use std::marker::Model;

/// What stands at some places after an exchange.
#[derive(Drop)]
pub(crate) struct PlacesPlan {
    pub(crate) grown: Option<Vec<Slot>>,
    pub(crate) slots: Vec<(u32, Slot)>,
    pub(crate) free: Free,
    pub(crate) rim: Vec<Joint>,
}

/// What some parts of the keys are after an exchange.
#[derive(Drop)]
pub(crate) struct KeysPlan {
    pub(crate) more: Option<Vec<KeyPart>>,
    pub(crate) parts: Vec<(u32, KeyPart)>,
}

/// What some stars are after an exchange.
#[derive(Drop)]
pub(crate) struct StarsPlan {
    pub(crate) more: Option<Vec<Around>>,
    pub(crate) stars: Vec<(u32, Around)>,
    pub(crate) keys: KeysPlan,
    pub(crate) spare: Free,
}

/// What an exchange makes of the cells of a bucket: what stands at some places after it, and what some stars are then.
#[derive(Drop)]
pub struct Plan {
    pub(crate) places: PlacesPlan,
    pub(crate) stars: StarsPlan,
}

impl Debug for Plan {
    fn fmt<W: fmt::Write>(&self, f: &mut Formatter<W>) -> fmt::Result {
        f.debug_struct("Plan").finish_non_exhaustive()
    }
}

impl Model for Plan {
    ghost use Rattle.std.specs.Option.{option_map};
    ghost use Rattle.cell_stars.specs.Plans.{PlanView};

    ghost Value = { PlanView };

    ghost view = { λ p. record {
      grown = option_map (λ v. v.items) p.places.grown;
      slots = p.places.slots.items;
      more = option_map (λ v. v.items) p.stars.more;
      stars = p.stars.stars.items;
      parts = option_map (λ v. v.items) p.stars.keys.more;
      keys = p.stars.keys.parts.items;
    } };
}
