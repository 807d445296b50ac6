//! Reading of patterns from text.
//!
//! [`parse_regex`] reads the regular expressions of a LALRPOP grammar into trees of `lalrpop_lexer_pattern`:
//!
//! ```text
//! pattern = branch ( "|" branch )*
//! branch  = piece*
//! piece   = atom ( repeat "?"? )*
//! repeat  = "*" | "+" | "?" | "{" n "}" | "{" n "," "}" | "{" n "," m "}"
//! atom    = "." | "^" | "$" | class | "\" escape
//!         | "(" pattern ")" | "(?:" pattern ")" | "(?" flags ":" pattern ")" | "(?" flags ")"
//!         | "(?P<" name ">" pattern ")" | "(?<" name ">" pattern ")"
//!         | a character that is none of  \ . + * ? ( ) | [ { ^ $
//! flags   = letters of i s ( "-" letters of i s )?
//! class   = "[" "^"? item+ "]"
//! item    = char | char "-" char | "[:" "^"? posix ":]" | class | "\" escape
//! ```
//!
//! - A count is at most 1,000, and groups and classes stand at most 250 deep in one another.
//! - A flag holds to the end of its group: `i` lets a character or a class stand for all that share a simple case
//!   folding with it, `s` lets a dot stand for a line feed. Letters after a dash are switched off.
//! - In a class `]` is a character where it comes first, `-` where it comes first or last. `&&`, `--` and `~~` are
//!   refused there. A complement is taken after folding, over all characters.
//! - A backslash makes a character of ASCII punctuation (but `<` and `>`), of `a t n v f r`, and of a number in
//!   hexadecimal after `x`, `u` or `U`; a set of `d D s S w W`, `pX`, `p{..}` and `P` for the complement; and a place
//!   in the text of `A z b B`.
//! - What a name of a set stands for is said by the crate `unicode`; `gc=` or `sc=` in front of it is left out.
//!
//! The definition of all this stands in `specs/`, from `Regex.antt` down; that of classes and of what a backslash begins
//! in the module `classes`, which reads them.
#![tactic(auto)]

mod atom;
pub mod classes;
mod counts;
mod error;
mod flags;
mod group_name;
mod laws;
mod pattern;
pub mod print_law;
mod regex;
mod repeat;

pub use error::RegexError;
pub use laws::escapes_are_read_back;
pub use regex::parse_regex;
