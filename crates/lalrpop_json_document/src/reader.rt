//! JSON texts read into documents, whose keys and strings stay in the text.
//!
//! What a text says is `serde_json`'s own definition `read`; a document says the same data.

mod members;
mod number;
mod reading;

pub use reading::read_document;
