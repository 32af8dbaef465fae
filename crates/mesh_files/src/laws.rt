//! A law of reports. It takes part in no run: it is the contract of a function with nothing in it.

ghost use Rattle.mesh_files.specs.Reading.{WrittenIsRead};

/// The text that is written of a report without shapes and without an order block is read again as its own replies,
/// points, cells and hull.
pub fn written_is_read()
    ensures { WrittenIsRead }
{}
