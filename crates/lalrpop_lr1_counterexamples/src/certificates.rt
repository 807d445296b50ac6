//! Certificates of the conflicts of canonical states: for each conflict two whole sentences that agree up to one place, where one needs the
//! reduction and the other the other action.
//!
//! `ConflictCertificates` in `specs/` says which certificates are those of a conflict.

mod all;
mod one;
mod room;
mod shown;
mod slots;

pub use crate::conflict_laws::told_conflicts_stand;
pub use all::certificates;
