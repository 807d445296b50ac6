//! Tests of symbols that no table can hold: copies, small questions, walks, and texts of what the format can't spell.

#[cfg(test)]
mod symbol_walks;
#[cfg(test)]
mod symbols;
