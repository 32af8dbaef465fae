//! Laws of rounds. Each function here does nothing, and its contract is a law.

ghost use Rattle.std.specs.Prelude.{◌≡◌, ℕ, ◌++◌, List, Option, Some, map, IsPermutation, slice_get};
ghost use Rattle.round_table.specs.Rounds.{AreParted, held};
ghost use Rattle.round_table.specs.Laws.{NoneClaimed, OneOwner};

/// The contents that were handed out, and those that are left, are all with which the table was opened, each once.
pub fn contents_stay<T>()
    ensures { (contents : List T) (claims : List ℕ) (hands : List T) (rest : List (Option T)) →
        AreParted contents claims rest → map Some hands ≡ map (slice_get contents) claims →
        IsPermutation contents (hands ++ held rest) }
{}

/// Between any two steps: where no word tells of a pass, none has claimed anything in this round, and every bucket has
/// in its slot what the table was opened with.
pub fn none_claimed<T>()
    ensures { NoneClaimed T }
{}

/// Between any two steps: a bucket whose word tells of a pass was claimed once, by that pass.
pub fn one_owner<T>()
    ensures { OneOwner T }
{}
