//! What the program has to say: replies, their texts, and the statuses that it ends with.
//!
//! `ReplyTexts` in `specs/` has the text and the status of each reply.

mod putting;
mod refusals;
mod reply;
mod texts;
mod token_lines;

pub use lalrpop_run_parser::conflicts::{
    FoldError, fold, foldings_are_inverse, unfold, written_conflicts,
};
pub use putting::put;
pub use refusals::refusal_reply;
pub use reply::{Answer, Reply};
pub use token_lines::TokenLines;
