//! What the judge and the macro pass both ask of a written grammar: closed symbols, and the conditions of alternatives.
//!
//! Each call says that its answer is the one that the definitions of the written language give.

mod binding;
mod closed_symbol;
mod closing;
mod comparing;
mod condition;
mod shared;

pub use binding::{Binding, Bound, bound_to, occurrences_in, owner_count, rule_count, sum};
pub use closed_symbol::ClosedSymbol;
pub use closing::right_side;
pub use comparing::{same_name, same_terminal, show_as};
pub use condition::{ConditionFault, Finder, Finding, holds};
pub use shared::Shared;
