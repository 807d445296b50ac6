//! Patterns, and how their text is read.

pub use lalrpop_lexer_pattern::{
    CharacterSet, Class, Hir, Look, Range, Refusal, Regex, Repeats, parse_literal,
};
pub use lalrpop_lexer_regex::{RegexError, parse_regex};
