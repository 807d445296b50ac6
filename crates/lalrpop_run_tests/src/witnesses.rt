//! Tests of certificates of conflicts that no table can hold: certificates that were changed, certificates from anybody, and the
//! certificate of one conflict alone.

#[cfg(test)]
mod changes;
#[cfg(test)]
mod copies;
#[cfg(test)]
mod given;
#[cfg(test)]
mod grammars;
#[cfg(test)]
mod shared_nodes;
#[cfg(test)]
mod trees;
#[cfg(test)]
mod witnesses;
