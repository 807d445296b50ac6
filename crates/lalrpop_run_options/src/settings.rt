//! What the words ask for.
use crate::Task;
use lalrpop_grammar_repr::methods::Method;

/// What the words ask for.
#[derive(Drop)]
pub struct Options {
    /// What to do: the positional word.
    pub task: Task,
    /// The rule to start from.
    pub start: String,
    /// The text to read, empty where none was given.
    pub text: String,
    /// The tree to judge, as JSON, where one was given.
    pub tree: Option<String>,
    /// The features that are on, in the order of the words: none where none was given.
    pub features: Vec<String>,
    /// How deep macros may call macros: 200 where no number was given.
    pub macro_limit: u16,
    /// How LR(1) states are built: by lane tables where no word was given, with 10,000 copies of states at most where no number
    /// was given.
    pub method: Method,
    /// How many moves a parse may make: 1,000,000 where no number was given.
    pub limit: u64,
}
