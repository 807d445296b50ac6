//! States by numbers: kernels, their closures, and the edges between states, made from a worklist of kernels.

mod edges;
mod grouping;
mod kernel;
mod kernel_lookahead;
mod merging;
mod numbered_states;

pub use kernel::StateKernel;
pub use kernel_lookahead::KernelLookahead;
pub use numbered_states::{NumberedState, states_by_numbers};
