//! The pass of the normalizer that gives each level of a rule a rule of its own: which rules have levels, what may be wrong
//! with them, and the grammar of the levels' rules.

mod alternatives;
mod buckets;
mod expanding;
mod renaming;
mod rules;

pub use crate::level_faults::{has_prec_attr, level_fault};
pub use expanding::expand_precedence;
pub use lalrpop_grammar_rules::{
    ASSOC_ATTR, Assoc, INLINE, LVL_ARG, PREC_ATTR, ParseAssocError, SIDE_ARG,
};
