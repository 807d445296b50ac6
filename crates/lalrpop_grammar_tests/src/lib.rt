//! Tests of the grammar's layer, of the format and of the judge that no table can hold: leaves and tokens, copies, small questions, grammars
//! that no value spells, and laws.
#![tactic(auto)]

#[cfg(test)]
mod check;
#[cfg(test)]
mod grammars;
#[cfg(test)]
mod judging;
#[cfg(test)]
mod laws;
#[cfg(test)]
mod leaves;
pub mod lowered;
pub mod symbols;
#[cfg(test)]
mod unwritten;
