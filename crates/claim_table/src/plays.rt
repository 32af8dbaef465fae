//! What each step on the table tells.

use crate::slot::Slot;
use crate::view::View;
use atomic_table::{Join, Play, Split};
use std::marker::{Brand, PhantomData};

pub(crate) struct Claim;

impl Play<Option<Slot>, View> for Claim {
    ghost use Rattle.claim_table.specs.Plays.{Claimed};

    ghost then = { Claimed };
}

pub(crate) struct Release;

impl Play<Option<Slot>, View> for Release {
    ghost use Rattle.claim_table.specs.Plays.{Released};

    ghost then = { Released };
}

pub(crate) struct Look;

impl Play<Option<Slot>, View> for Look {
    ghost use Rattle.claim_table.specs.Plays.{Looked};

    ghost then = { Looked };
}

pub(crate) struct Show;

impl Play<Option<Slot>, View> for Show {
    ghost use Rattle.claim_table.specs.Plays.{Shown};

    ghost then = { λ st. Shown };
}

/// The entry that a pass is about to commit. Each call picks it.
pub trait Intent {
    ghost use Rattle.std.specs.Prelude.{ℕ};
    ghost use Rattle.edit_history.specs.declared.history.Edit.{Edit};
    ghost use Rattle.edit_history.specs.declared.history.Reply.{Reply};

    ghost tag: { ℕ };

    ghost edit: { Edit };

    ghost reply: { Reply };
}

impl Intent for Brand {
    ghost use Rattle.edit_history.specs.declared.history.Edit.TheVariants.{Add};
    ghost use Rattle.edit_history.specs.declared.history.Reply.TheVariants.{Inserted};

    ghost tag = { 0 };

    ghost edit = { Add 0 };

    ghost reply = { Inserted };
}

pub(crate) struct Commit<J> {
    intent: PhantomData<J>,
}

impl<J: Intent> Play<Option<Slot>, View> for Commit<J> {
    ghost use Rattle.claim_table.specs.Plays.{Committed};

    ghost then = { λ st. Committed J.tag J.edit J.reply };
}

/// What a pass is about to give away. Each call picks it.
pub trait Portion {
    ghost use Rattle.std.specs.Prelude.{ℕ};

    ghost parts: { ℕ };

    ghost left: { ℕ };
}

impl Portion for Brand {
    ghost parts = { 0 };

    ghost left = { 0 };
}

// The load that makes the new pass, which stands in the old one's view.
pub(crate) struct Part<J> {
    portion: PhantomData<J>,
}

impl<J: Portion> Play<Option<Slot>, View> for Part<J> {
    ghost use Rattle.claim_table.specs.Plays.{SplitTold};

    ghost then = { λ st. SplitTold J.parts J.left };
}

// The new pass moves to a seat of its own. No pass changes.
pub(crate) struct Seated;

impl Split<View> for Seated {
    ghost use Rattle.claim_table.specs.Plays.{without_child, child_of};

    ghost left = { without_child };

    ghost right = { child_of };
}

/// The pass of one seat is joined to that of another.
pub struct Together;

impl Join<View> for Together {
    ghost use Rattle.claim_table.specs.Plays.{joins, no_pass};

    ghost both = { joins };

    ghost spent = { no_pass };
}
