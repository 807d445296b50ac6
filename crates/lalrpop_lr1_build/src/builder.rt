//! The construction of states as an object: a grammar, its start and what follows that, with epsilon moves and kernels of items.
//!
//! In `specs/`, `FrontItems` says which items a nonterminal behind a dot brings.

mod kernel;
mod lookahead_build;
mod lr;

pub use kernel::Kernel;
pub use lookahead_build::LookaheadBuild;
pub use lr::Lr;
