//! Symbols, types and attributes as JSON values.
//!
//! What spells them, and which of them have a spelling, stands as definitions in `specs/`. Here each kind of
//! part has a function that writes it, and one that tells whether it has a spelling.

mod attribute;
mod literal;
mod scalar;
mod symbol;
mod type_ref;

pub use attribute::{are_readable_attributes, attributes_value};
pub use literal::{is_readable_terminal, literal_value, terminal_value};
pub use scalar::{is_readable_span, span_value};
pub use symbol::{are_readable_symbols, symbols_value};
pub use type_ref::{declaration_value, is_readable_declaration};
