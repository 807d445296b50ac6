//! The pass of the normalizer over precedence levels: a rule for each level, and the faults of levels.
#![tactic(auto)]

pub mod level_faults;
pub mod level_names;
pub mod levels;
