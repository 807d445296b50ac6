//! The passes of the normalizer behind the one over macros, together: the token check, types and lowering.

mod finishing;

pub use finishing::finish_expanded;
