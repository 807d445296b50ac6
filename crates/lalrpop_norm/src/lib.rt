//! The normalizer: from a written grammar to plain productions with their origins, or to the fault that stands in it.
//!
//! `normalize` calls all passes one after the other: `prevalidate::validate`, `remove_disabled_decls`, `resolve`,
//! `expand_precedence`, `expand_macros`, `token_check::validate`, `infer_types` and `lower`. What it gives is said over the written
//! grammar alone: `IsNormalized` of `lalrpop_norm_chain`, and `Normalizing` in `specs/` says which fault is told.
#![tactic(auto)]

mod normalizing;
pub mod read_law;
pub mod stages;

pub use lalrpop_grammar_repr::{NormError, NormErrorKind, NormFault, NormResult, Session};
pub use lalrpop_norm_lower::{Normalized, lower};
pub use lalrpop_norm_macros::expand_macros;
pub use lalrpop_norm_precedence::levels::{
    ASSOC_ATTR, Assoc, INLINE, LVL_ARG, PREC_ATTR, ParseAssocError, SIDE_ARG, expand_precedence,
    has_prec_attr,
};
pub use lalrpop_norm_prevalidate::prevalidate;
pub use lalrpop_norm_resolve::names::resolve;
pub use lalrpop_norm_resolve::{cfg_active, remove_disabled_decls};
pub use lalrpop_norm_token_check::{LiteralPlaces, token_check};
pub use lalrpop_norm_tyinfer::infer_types;
pub use normalizing::{normalize, normalize_with_dfa};
