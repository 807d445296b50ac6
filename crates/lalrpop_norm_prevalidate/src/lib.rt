//! The first pass of the normalizer: what must not stand anywhere in a written grammar, whatever is enabled.
//!
//! `prevalidate::validate` looks for a second match block, for attributes that may not stand where they do, for public rules
//! that are marked `inline`, for names that begin with the grammar's prefix, for named symbols where none may stand, and for
//! entries of match blocks that list what an earlier one lists. What it says of a grammar is defined on the written grammar
//! alone: `CheckStands` in `specs/Faults.antt` says which fault stands with which span.
#![tactic(auto)]

mod attributes;
mod blocks;
mod entries;
mod labels;
mod names;
pub mod prevalidate;
