//! Whether the items of a state with the dot in front are the closure of its others: a part of the test of states.
//!
//! In a state the items with the dot in front are to be the productions of just the names that the other items bring, and in state
//! 0 of those that the start begins with. Names and productions are marked by their numbers. The marks are lent from state to state
//! with the lists of what is marked, so a state takes time by its items and the names that they bring, not by all names.
//!
//! `MarkGains` in `specs/` says what marks gain, `MarkLists` that just what is marked is listed, `BeginClauses` by which clauses a name
//! begins with others, `BeginLists` how these are listed and followed, `RuleLists` how the rules of names are, `NamesBehind` which
//! names stand behind dots, `EdgeTargets` to which states edges lead, and `UnmovedItems` which items with the dot in front a list has.

mod begins;
mod closing;
mod closure_items;
mod listed_marks;
mod lookup;
mod name_lists;
mod names_behind;
mod targets;
mod unmoved;

pub use closure_items::has_closure_items;
