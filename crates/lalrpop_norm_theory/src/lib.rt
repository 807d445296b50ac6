//! Laws of the normalizer: what each pass makes of a grammar, by definitions alone.
#![tactic(auto)]

pub mod back_laws;
pub mod expansion;
pub mod level_laws;
pub mod name_laws;
pub mod place_law;
pub mod use_law;
