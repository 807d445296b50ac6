//! Tests of runs that no table of cases can hold: parses, witnesses of conflicts, and the program's calls.
#![tactic(auto)]

#[cfg(test)]
mod check;
#[cfg(test)]
mod given;
pub mod parses;
pub mod program;
pub mod witnesses;
