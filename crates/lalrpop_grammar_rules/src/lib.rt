//! The enabled rules of a written grammar, found by their names, with the levels of their alternatives.
//!
//! Each call says that its answer is the one that the definitions of the written language give.
#![tactic(auto)]

mod bares;
pub mod closed;
mod enabling;
mod levels;
mod name_set;
mod rule;
pub mod search;
mod start;
mod table;

pub use bares::bare_names;
pub use enabling::{cfg_active, has_attribute, is_named};
pub use levels::{
    ASSOC_ATTR, Assoc, INLINE, LVL_ARG, PREC_ATTR, ParseAssocError, Rank, SIDE_ARG, first_named,
    level_in, rank_after, side_in,
};
pub use name_set::{add_name, has_name};
pub use rule::{Choice, EnabledRule};
pub use start::Start;
pub use table::{Meaning, Rules};
