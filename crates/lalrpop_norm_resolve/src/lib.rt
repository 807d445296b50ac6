//! The passes of the normalizer that drop what the features disable, and that resolve names.
#![tactic(auto)]

mod enabling;
pub mod names;

pub use enabling::{cfg_active, remove_disabled_decls};
