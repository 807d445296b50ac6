//! Kinds of table tests: the files of cases, single calls, and the normalizer.
#![tactic(auto)]

pub mod calls;
pub mod files;
pub mod normalizing;
