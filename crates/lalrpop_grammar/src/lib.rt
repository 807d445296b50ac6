//! The written grammar, parse trees in terms of it, and tokens; re-exports symbols and streams.
//!
//! Values are plain data to a contract: an `Atom` is seen as its bytes, a `List` as the list of its elements, a
//! `Boxed` as what is in the box. So `≡` on a symbol, a tree or a grammar means what it says.
#![tactic(auto)]

mod alternative;
mod condition;
mod extern_token;
mod grammar;
mod intern_token;
mod leaves;
mod match_token;
mod nonterminal;
mod origin;
mod rules;
mod token;
mod tree;
pub mod types;
mod walk;

pub use crate::types::{Attribute, AttributeArg, NominalTypeRepr, TypeRef, TypeRepr};
pub use alternative::{ActionKind, Alternative};
pub use condition::{Condition, ConditionOp};
pub use extern_token::{AssociatedType, Conversion, EnumToken, ExternToken};
pub use grammar::{Grammar, GrammarItem};
pub use intern_token::{InternToken, MatchEntry};
pub use lalrpop_grammar_streams::{
    MAX_BYTES, MAX_CALLS, Sink, Source, SourceError, Watched, read_all, write_all,
};
pub use lalrpop_grammar_symbols::{
    Atom, Boxed, ExprSymbol, List, MacroSymbol, MatchSymbol, Name, NonterminalString, RepeatOp,
    RepeatSymbol, Span, Subsymbols, Symbol, SymbolKind, SymbolMap, TerminalLiteral, TerminalString,
    subsymbols_of,
};
pub use leaves::{Leaf, Leaves};
pub use match_token::{MatchContents, MatchItem, MatchMapping, MatchToken};
pub use nonterminal::{NonterminalData, Visibility};
pub use origin::Origin;
pub use rules::GrammarRules;
pub use token::ScanToken;
pub use tree::WrittenTree;
