//! Flat labels: the given actions of which the action of a production is made, in reading order, and by them the place of the production.
//!
//! `flat_label` tells an action's, and `LabelTable` finds the productions of a grammar by theirs. `FlatLabels` in `specs/` says what a flat
//! label is, `LabelTables` what a table has.

mod label_table;
mod mark;
mod of_action;

pub use label_table::LabelTable;
pub use mark::LabelMark;
pub use of_action::flat_label;
