//! The least alpha of a face.

ghost use Rattle.std.specs.Prelude.{◌≡◌};
ghost use Rattle.alpha_steps.specs.Seen.{threshold_of as threshold_of_it};

/// The least alpha at which a face is admitted.
#[derive(Clone, Copy, Debug, PartialEq, Eq)]
pub enum Threshold {
    /// This one, below 2^34.
    At(u64),
    /// There is none below 2^34.
    Never,
}

/// The threshold that a least alpha tells: none where it is 2^34 or more.
pub(crate) fn threshold_of(least: u64) -> Threshold
    ensures { result ≡ threshold_of_it least }
{
    if least < 1 << 34 {
        Threshold::At(least)
    } else {
        Threshold::Never
    }
}
