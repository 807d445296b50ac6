//! Attributes, the types that rules declare, and types with every name resolved.

mod attribute;
mod lifetime;
mod type_ref;
mod type_repr;

pub use attribute::{Attribute, AttributeArg, clone_attributes};
pub use lifetime::clone_lifetime;
pub use type_ref::TypeRef;
pub use type_repr::{NominalTypeRepr, TypeRepr};
