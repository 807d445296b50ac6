//! The levels of rules in order, and the names of the rules that they get once each level has a rule of its own.
//!
//! The loosest level keeps the rule's name, and another is called by that name and its number: `E2`. Where the text is taken,
//! by a rule or a level before it, a number follows behind a tilde: `E2~2`. Macros come last, so that they avoid all others,
//! and each avoids its own parameters too.

mod levels;
mod names;
mod order;
mod taken;

pub use levels::{NamedLevel, RuleLevels};
pub use names::level_names;
pub use taken::TakenTexts;
