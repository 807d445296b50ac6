//! The written tree of a node of a parse, by the action of its production and the written trees of its children.
//!
//! `tree_of_action` makes it: a given action tells the written choice that it stands for, and one that inlining added tells by its record
//! which symbols were inlined. `ActionLabels` in `specs/` says which label an action tells, `LabelledTrees` which written tree a label has,
//! and when written trees stand for trees over productions.

mod choosing;
mod recorded;

pub use recorded::tree_of_action;
