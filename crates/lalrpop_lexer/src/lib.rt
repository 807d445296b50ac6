//! The lexer's automata: which of several patterns a text begins with, the longest match first.
#![tactic(auto)]

pub mod aliases;
mod alike;
mod automaton;
mod build;
mod dead_ends;
mod decide;
pub mod dfa;
mod edge;
mod error;
mod explore;
mod groups;
mod interpreter;
mod kernels;
mod kind;
mod moves;
pub mod nfa;
mod outcome;
mod outcome_of;
mod partition;
mod pieces;
pub mod re;
mod row;
mod slices;
mod state;
mod states;
mod walk;
mod whole;
