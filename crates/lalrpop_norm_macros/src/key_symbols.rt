//! Keys by the names of their rules, closed symbols written back by these names or as they were written, and written rules by name.

mod by_name;
mod names;
mod spelling;
mod symbols;

pub use by_name::{WrittenRules, find_written, written_rules};
pub use names::KeyNames;
pub use spelling::arguments;
pub use symbols::{written_or_error, written_side, written_symbol};
