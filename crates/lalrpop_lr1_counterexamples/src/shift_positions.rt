//! Positions of shifts: by which item a state may shift a terminal, and what stands behind the terminal there.
//!
//! `ShiftPositions` in `specs/` says what such a place is.

mod positions;

pub use positions::{ShiftPosition, shift_position};
