//! Tests of the lexer's layer that no table can hold: calls at concrete types, small questions, copies and laws.
#![tactic(auto)]

#[cfg(test)]
mod automata;
#[cfg(test)]
mod check;
#[cfg(test)]
mod laws;
#[cfg(test)]
mod patterns;
#[cfg(test)]
mod ranges;
