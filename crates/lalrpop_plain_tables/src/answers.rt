//! What the tables answer on plain productions that are read from lines: how many states they have, and the trees of tokens.
//!
//! For the command `productions` of `lalrpop_cases`, and for its cases. `Counts` in `specs/` says what is counted, `TokenAnswers`
//! what is told of tokens.

mod canonical;
mod counts;
mod fault;
mod own_terminals;
mod parsable;
mod reading;
mod tokens;

pub use canonical::{Canonical, canonical_states};
pub use counts::{Counts, counts_of};
pub use fault::AnswerFault;
pub use own_terminals::has_its_terminals;
pub use parsable::parsable_states;
pub use reading::{read_productions, start_of};
pub use tokens::{answer_tokens, tell_tokens};
