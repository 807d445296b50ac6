//! Character classes of patterns, read from text.
//!
//! A class is what stands in brackets, what a backslash and a letter such as `\d` or `\p{Greek}` stand for, or one
//! character behind a backslash. Each reader takes the text that is left and gives a value and the text after it:
//!
//! ```text
//! class = "[" "^"? item+ "]"
//! item  = char | char "-" char | "[:" "^"? posix ":]" | class | "\" escape
//! ```
//!
//! - `]` is a character where it comes first, `-` where it comes first or last. `&&`, `--` and `~~` are refused where an
//!   item may begin.
//! - `[:`, perhaps `^`, letters and `:]` are a POSIX class, all of them ASCII; any other `[` opens a class in the class.
//! - A backslash makes a character of ASCII punctuation (but `<` and `>`), of `a t n v f r`, and of a number in
//!   hexadecimal after `x`, `u` or `U`; a set of `d D s S w W`, `pX` and `p{..}`, and its complement of `P`.
//! - What a name of a set stands for is said by the crate `unicode`; `gc=` or `sc=` in front of it is left out.
//! - Where case is ignored, a set holds all that share a simple case folding with a member. A complement is taken after
//!   that, over all characters.
//!
//! A fault is told with its [`PatternFaultKind`] and how many characters are left of the text where it stands. The definition of
//! all this stands in `specs/`, from `Classes.antt` down.

mod bracket;
mod class_item;
mod escape;
mod fault;
mod numbers;
mod posix;
mod property;
mod set_escape;
mod text;

pub use bracket::class;
pub use class_item::range_set;
pub use escape::escaped_character;
pub use fault::{PatternError, PatternFaultKind};
pub use set_escape::{escaped_set, is_set_letter};
pub use text::{after, closing, first, syntax};
