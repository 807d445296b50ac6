//! Conflict certificates: two whole sentences that agree up to one place and need different moves there.
//!
//! `Certificates` in `specs/` says what certifies a conflict. The test reads a grammar's productions alone: whoever made a
//! certificate, and whatever states they had, a yes shows that the grammar isn't LR(1) (`certificates_refute`).

mod certificate;
mod check;
mod entries;
mod laws;
mod membership;
mod moves;
mod root;
mod walk;

pub use certificate::Certificate;
pub use check::check_conflict;
pub use laws::certificates_refute;
pub use moves::Move;
