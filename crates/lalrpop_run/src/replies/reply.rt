//! What the program has to say.

use lalrpop_grammar::{Atom, WrittenTree};
use lalrpop_json_grammar::Fault;
use lalrpop_run_parser::conflicts::WrittenConflict;
use lalrpop_run_prepare::refusals::GenerateError;

/// What the program has to say, before it is put into words.
#[derive(Drop)]
pub enum Reply {
    /// Whether the grammar admits the tree.
    Judged(bool),
    /// `judge` was given no tree.
    WantsTree,
    /// A text is no JSON.
    NotJson,
    /// The first fault of the grammar's value.
    GrammarFault(Fault),
    /// The first fault of the tree's value.
    TreeFault(Fault),
    /// `judge` doesn't search for the pattern of a condition.
    ConditionLimit,
    /// The text reader's bytes are no text.
    NotUtf8,
    /// Why the grammar is refused.
    Refused(GenerateError<'static>),
    /// The conflicts for which the grammar has no parser.
    Conflicts(Vec<WrittenConflict>),
    /// The grammar has a parser, of so many states.
    Parser(usize),
    /// The tokens of the text, a line for each.
    Tokens(String),
    /// From this byte of the text on nothing is matched.
    NoToken(usize),
    /// The tree of the text.
    Tree(WrittenTree),
    /// The tokens up to and with the one at this byte, which has this text, begin no sentence.
    WrongToken(usize, Atom),
    /// The tokens are no sentence, and begin one.
    EarlyEnd,
    /// A parse would make more moves than this.
    OverLimit(u64),
    /// The report of the tables, and whether they have conflicts.
    Report(String, bool),
}

/// What the program writes, and the status that it ends with.
#[derive(Drop)]
pub struct Answer {
    /// The text, each line with a line feed.
    pub text: String,
    /// The exit status.
    pub status: u8,
}
