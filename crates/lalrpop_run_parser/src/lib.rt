//! From a prepared grammar to its parser, or to certificates of the conflicts for which it has none; and from a text to its tokens and its written tree.
#![tactic(auto)]

pub mod conflicts;
pub mod folding;
mod generating;
mod limits;
mod parse_error;
mod parser;
mod parsing;
pub mod witnesses;
mod written_stack;

pub use crate::witnesses::{Prepared, prepare, witness};
pub use generating::generate;
pub use lalrpop_judge::certificates::{Certificate, Move, check_conflict};
pub use lalrpop_lexer_scan::{ScanError, TokenReceiver};
pub use parse_error::ParseError;
pub use parser::Parser;
