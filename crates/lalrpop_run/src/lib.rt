//! The answers of the program: from the words, a grammar's JSON and a text to what is written.
//!
//! In `specs/`, `RightAnswer` says what the right answer is, `Judge`, `Tokens`, `Check`, `Parse` and `Report` have the replies of each command,
//! `Parsers` why a grammar has no parser, and `Runs` the whole run.
#![tactic(auto)]

mod answering;
mod checking;
mod conflicts;
mod judging;
mod laws;
mod parsing;
mod preparing;
pub mod questions;
pub mod replies;
mod reporting;
mod running;
mod tokens;
mod words;

pub use crate::replies::{Answer, FoldError, Reply, fold, foldings_are_inverse, unfold};
pub use answering::answer;
pub use lalrpop_json_grammar::writer::{WriteError, write_grammar};
pub use lalrpop_json_grammar::{
    Fault, FaultKind, Key, ReadError, Step, TreeText, print_tree, read_grammar, read_tree,
};
pub use lalrpop_run_options::{Method, Options, OptionsError, Task, options};
pub use lalrpop_run_parser::{
    Certificate, Move, ParseError, Parser, Prepared, ScanError, check_conflict, generate, prepare,
    witness,
};
pub use lalrpop_run_prepare::refusals::GenerateError;
pub use laws::{answers_are_one, expansions_are_alike};
pub use running::run;
pub use words::run_words;
