//! How far the cells at hand reach.

/// Whether they are all cells of a complex, or a part of them. In a part the cell across a facet may be a foreign one.
#[derive(Clone, Copy)]
pub enum Reach {
    Whole,
    Part,
}
