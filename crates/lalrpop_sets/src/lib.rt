//! Sets of tokens, maps to collections and queues of kernels, on which the tables of a grammar are built.
//!
//! Contracts see a set of tokens as the ascending list of their numbers: terminals in the order of the grammar's terminals,
//! then the end, then the token of errors.
#![tactic(auto)]

mod collection;
mod common;
mod joined;
mod kernel_set;
mod multimap;
mod next_token;
mod nil;
mod number_texts;
mod order;
mod range_walk;
mod ranges;
mod token;
mod token_range;
mod token_set;
mod token_set_iter;
mod token_text;

pub use collection::Collection;
pub use kernel_set::{Kernel, KernelSet};
pub use multimap::Multimap;
pub use nil::Nil;
pub use token::{Token, TokenRef};
pub use token_set::TokenSet;
pub use token_set_iter::TokenSetIter;
