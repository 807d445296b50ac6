//! Shared texts, lists and boxes that contracts see as plain data, and what every layer builds from them: spans,
//! terminals, names and symbols.
//!
//! An `Atom` is seen as its bytes, a `List` as the list of its elements, a `Boxed` as what is in the box. So `≡` on a
//! symbol means what it says.
#![tactic(auto)]

mod atom;
mod boxed;
mod list;
mod names;
mod span;
mod subsymbols;
mod symbol;
mod symbol_map;
mod symbol_walk;
mod terminal;
mod terminal_text;
mod texts;

pub use atom::Atom;
pub use boxed::Boxed;
pub use list::List;
pub use names::{Name, NonterminalString};
pub use span::Span;
pub use subsymbols::Subsymbols;
pub use symbol::{
    ExprSymbol, MacroSymbol, RepeatOp, RepeatSymbol, Symbol, SymbolKind, clone_symbols,
};
pub use symbol_map::SymbolMap;
pub use symbol_walk::subsymbols_of;
pub use terminal::{MatchSymbol, TerminalLiteral, TerminalString};
