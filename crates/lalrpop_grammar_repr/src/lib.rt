//! The lowered grammar: plain productions over names and terminals, each with the number of its action. The normalizer
//! answers it, and tables are built from it.
//!
//! The names are those of LALRPOP's module `repr`. Contracts see a map as the list of its entries, keys ascending.
#![tactic(auto)]

mod action;
mod algorithm;
mod grammar;
mod map;
pub mod methods;
mod norm_error;
mod production;
mod session;
mod terminal_set;
mod try_clone;
mod types;

pub use action::{
    ActionFn, ActionFnDefn, ActionFnDefnKind, InlineActionFnDefn, InlinedSymbol,
    LookaroundActionFnDefn, UserActionFnDefn,
};
pub use algorithm::{Algorithm, read_algorithm};
pub use grammar::Grammar;
pub use lalrpop_grammar::{NominalTypeRepr, TypeRepr};
pub use map::Map;
pub use norm_error::{NormError, NormErrorKind};
pub use production::{NonterminalData, Production, Symbol};
pub use session::{NormFault, NormResult, Session};
pub use terminal_set::TerminalSet;
pub use try_clone::TryClone;
pub use types::Types;
