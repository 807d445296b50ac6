//! What the words ask of a grammar.

ghost use Rattle.std.specs.Prelude.{◌≡◌, IfOk, map, string_bytes};
ghost use Rattle.lalrpop_run.specs.Questions.{question_of, question_view, reads_grammar, reads_text};

use lalrpop_grammar::Atom;
use lalrpop_grammar_repr::Session;
use lalrpop_run_options::{Method, Options, Task};
use std::alloc::{AllocError, Global};

/// What the words ask.
#[derive(Drop)]
pub struct Question<'a> {
    /// The task.
    pub task: Task,
    /// The rule to start from.
    pub start: Atom,
    /// The features that are on, and how deep macros may call macros.
    pub session: Session,
    /// How states are built.
    pub method: Method,
    /// How many moves a parse may make.
    pub limit: u64,
    /// The tree's JSON, where one was given.
    pub tree: Option<&'a str>,
}

/// The question that the words put.
///
/// # Errors
///
/// Memory is refused.
pub fn question_of<'a>(alloc: Global, options: &'a Options) -> Result<Question<'a>, AllocError>
    ensures { IfOk result (λ q. question_view q ≡ question_of options.entry.now) }
{
    let start = Atom::new(alloc, options.start.as_str())?;
    let features = atoms(alloc, options.features.as_slice())?;
    Ok(Question {
        task: options.task,
        start,
        session: Session {
            features,
            macro_recursion_limit: options.macro_limit,
        },
        method: options.method,
        limit: options.limit,
        tree: options.tree.as_deref(),
    })
}

/// The texts, shared.
fn atoms(alloc: Global, texts: &[String]) -> Result<Vec<Atom>, AllocError>
    ensures { IfOk result (λ shared. shared.items ≡ map string_bytes texts.now) }
{
    let mut shared = Vec::new(alloc);
    for text in texts {
        shared.push(Atom::new(alloc, text.as_str())?)?;
    }
    Ok(shared)
}

/// Whether the grammar is read: `judge` has no use for it where no tree was given.
pub fn reads_grammar(options: &Options) -> bool
    ensures { result ≡ reads_grammar (question_of options.now) }
{
    match options.task {
        Task::Judge => options.tree.is_some(),
        Task::Tokens | Task::Check | Task::Parse | Task::Report => true,
    }
}

/// Whether the text is read: `judge`, `check` and `report` have no use for it.
pub fn reads_text(options: &Options) -> bool
    ensures { result ≡ reads_text (question_of options.now) }
{
    match options.task {
        Task::Judge | Task::Check | Task::Report => false,
        Task::Tokens | Task::Parse => true,
    }
}
