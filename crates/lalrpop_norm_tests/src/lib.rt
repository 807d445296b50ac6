//! Tests of the normalizer that no table can hold: each pass called alone, finders of one's own, types, what actions do, where
//! productions stand, and copies.
#![tactic(auto)]

#[cfg(test)]
mod check;
#[cfg(test)]
mod copies;
#[cfg(test)]
mod entries;
#[cfg(test)]
mod expanding;
#[cfg(test)]
mod finders;
#[cfg(test)]
mod grammars;
#[cfg(test)]
mod laws;
#[cfg(test)]
mod lowering;
#[cfg(test)]
mod parts;
#[cfg(test)]
mod types;
#[cfg(test)]
mod whole;
#[cfg(test)]
mod written;
