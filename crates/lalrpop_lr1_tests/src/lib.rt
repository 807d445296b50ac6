//! Tests of the tables' layer that no table of cases can hold: sets and maps at concrete types, items, states and their conflicts,
//! copies, paths and completions, and single calls that build states or parse by them.
#![tactic(auto)]

#[cfg(test)]
mod applied_sets;
#[cfg(test)]
mod builds;
#[cfg(test)]
mod check;
#[cfg(test)]
mod completions;
#[cfg(test)]
mod constructions;
#[cfg(test)]
mod firsts;
#[cfg(test)]
mod grammars;
#[cfg(test)]
mod graphs;
#[cfg(test)]
mod interprets;
#[cfg(test)]
mod items;
#[cfg(test)]
mod kernels;
#[cfg(test)]
mod lanes;
#[cfg(test)]
mod lowered;
#[cfg(test)]
mod moves;
#[cfg(test)]
mod multimaps;
#[cfg(test)]
mod reports;
#[cfg(test)]
mod states;
#[cfg(test)]
mod token_sets;
#[cfg(test)]
mod traces;
