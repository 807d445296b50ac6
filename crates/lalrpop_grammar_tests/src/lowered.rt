//! Tests of the lowered grammar that no table can hold: its maps and types at concrete keys, copies, orders and messages.

#[cfg(test)]
mod actions;
#[cfg(test)]
mod algorithms;
#[cfg(test)]
mod maps;
#[cfg(test)]
mod messages;
#[cfg(test)]
mod orders;
#[cfg(test)]
mod parts;
#[cfg(test)]
mod types;
