//! Why a grammar is refused, and how the program says it.

mod refusing;

pub use refusing::GenerateError;
