//! What the right answer to a text is: over the written grammar, and over the productions of its expansion.
#![tactic(auto)]

pub mod answers;
pub mod text_answers;
