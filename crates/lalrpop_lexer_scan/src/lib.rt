//! The tokens of a text by the entries of a tokenizer, and the literals of a grammar, of which entries are made.
#![tactic(auto)]

mod blank;
mod entry_terminal;
mod entry_tokens;
mod fault;
mod giving;
mod laws;
mod literals;
mod noting;
mod piece;
mod receiver;
mod scan;
mod scanner;

pub use entry_tokens::EntryTokens;
pub use fault::ScanError;
pub use laws::{cuts_are_unique, tokens_fill_their_text};
pub use literals::{UsedLiteral, entries_of};
pub use receiver::TokenReceiver;
pub use scanner::Scanner;
