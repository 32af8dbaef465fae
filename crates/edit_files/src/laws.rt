//! Laws of edit files. They take part in no run: each is the contract of a function with nothing in it.

ghost use Rattle.std.specs.Prelude.{◌≡◌, ◌≤◌, ◌⊎◌, ℕ, List, true};
ghost use Rattle.point_order.specs.Solid.{is_solid};
ghost use Rattle.plain_laws.specs.Plain.{IsAnchored};
ghost use Rattle.edit_files.specs.Content.{Content};
ghost use Rattle.edit_files.specs.Grammar.{IsFile, Limits, up_to};
ghost use Rattle.edit_files.specs.Generator.{generated, most_edits};
ghost use Rattle.edit_files.specs.Faults.{IsFault};
ghost use Rattle.edit_files.specs.Writing.{file_text};
ghost use Rattle.edit_files.specs.Held.{IsWithinLimits};
ghost use Rattle.text_readings.specs.declared.fault.Fault.{Fault};
ghost use Rattle.edit_files.specs.declared.version.Version.TheVariants.{One};

/// A text is of at most one file.
pub fn one_file()
    ensures { (limits : Limits) (bytes : List ℕ) (f g : Content) → IsFile limits bytes f → IsFile limits bytes g →
        f ≡ g }
{}

/// A text that is of a file has no fault.
pub fn file_has_no_fault()
    ensures { (limits : Limits) (bytes : List ℕ) (f : Content) (fault : Fault) → IsFile limits bytes f →
        IsFault limits bytes fault → ⊥ }
{}

/// A text is of a file, or it has a fault.
pub fn file_or_fault()
    ensures { (limits : Limits) (bytes : List ℕ) →
        ((f : Content) × IsFile limits bytes f) ⊎ ((fault : Fault) × IsFault limits bytes fault) }
{}

/// A text has at most one fault.
pub fn one_fault()
    ensures { (limits : Limits) (bytes : List ℕ) (a b : Fault) → IsFault limits bytes a → IsFault limits bytes b →
        a ≡ b }
{}

/// The text that is written of a file is of that file, where the file is within what a text may hold.
pub fn written_is_read()
    ensures { (limits : Limits) (f : Content) → IsWithinLimits limits f → IsFile limits (file_text f) f }
{}

/// What a text can be of is within what a text may hold.
pub fn file_is_within()
    ensures { (limits : Limits) (bytes : List ℕ) (f : Content) → IsFile limits bytes f → IsWithinLimits limits f }
{}

/// The file of a count and a start has independent points, and no edit takes one of its opening four.
pub fn generated_is_anchored()
    ensures { (count start : ℕ) → IsAnchored (generated count start).points (generated count start).edits }
{}

/// Its points are solid.
pub fn generated_is_solid()
    ensures { (count start : ℕ) → is_solid (generated count start).points ≡ true }
{}

/// With at most 262,140 edits it is within what a text may hold.
pub fn generated_is_within()
    ensures { (count start : ℕ) → count ≤ most_edits → IsWithinLimits (up_to One) (generated count start) }
{}
