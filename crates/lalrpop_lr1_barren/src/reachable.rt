//! Reachable and productive nonterminals, as least sets of names: parts of the test of states.
//!
//! Both are least sets of names. In `specs/`, `Clauses` has such sets by numbers: what follows from marks by clauses. `RuleClauses`
//! says which clauses a grammar's rules make, `NameMarks` what marks say of names. Other parts of the test that need a least set of
//! names make their own `Clause`s and `close` their marks. Clauses are followed as rules for trees are (`ClauseRules`): a number follows
//! where it has a tree.

mod barren;
mod clauses;
mod lookup;
mod named;
mod rule_names;

pub use barren::{no_marks, productive_names, reached_names, set_mark};
pub use clauses::{Clause, close, is_marked};
pub use lookup::place_of;
pub use named::NamedProductions;
pub use rule_names::reach_clause;
