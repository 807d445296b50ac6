//! From a written grammar to the scanner of its tokens, or to the reason for which it is refused.
//!
//! `carrying` looks for what isn't carried, `starting` asks for the start, `normalized` has both, with the normalizer, in their order.
//! `entries` takes the terminals of the tokenizer's entries, and `tokenizing` makes the scanner of them.

mod carrying;
mod entries;
mod normalized;
mod starting;
mod tokenizing;

pub use entries::terminals_of;
pub use lalrpop_norm::Normalized;
pub use normalized::normalize_for_start;
pub use tokenizing::tokenizer;
