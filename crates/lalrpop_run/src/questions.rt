//! What the program is asked, and what its bytes are read as.
//!
//! In `specs/`, `Questions` says what the words ask and what has to be read to answer it, and `Inputs` what bytes give.

mod input;
mod json_value;
mod question;

pub use input::{Input, grammar_input, tree_input};
pub use question::{Question, question_of, reads_grammar, reads_text};
