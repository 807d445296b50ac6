//! Values of the format in parts: keys, words, numbers, spans, texts and names as JSON, read with the first fault and its
//! path.
//!
//! What reading gives stands as definitions over the JSON value in `specs/`, beside the JSON value that spells each part.
#![tactic(auto)]

mod fault;
mod form;
mod json_object;
mod json_text;
mod key;
mod object;
mod prefix;
mod scalar;
mod strings;
mod telling;
mod word;

pub use fault::{Fault, FaultKind, ReadError, Step};
pub use form::{Form, form_by_key, form_of};
pub use json_object::JsonObject;
pub use json_text::JsonText;
pub use key::Key;
pub use object::{at_index, at_key, here, keys, member, outside};
pub use prefix::{larger, longest_run, prefix_past};
pub use scalar::{
    flag_field, flag_of, is_name, name_field, name_of, null_field, null_of, number_field,
    number_of, optional_text_field, optional_text_of, span_field, span_of, text_field, text_of,
    word_field, word_of,
};
pub use strings::longest_in;
pub use telling::PathText;
pub use word::Word;
