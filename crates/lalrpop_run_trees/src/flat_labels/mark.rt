//! Marks of flat labels.

/// A mark of a flat label.
#[derive(Clone, Copy, PartialEq, Eq, Hash)]
pub enum LabelMark {
    /// The given action with this number.
    Given(usize),
    /// A symbol that was kept.
    Kept,
}
