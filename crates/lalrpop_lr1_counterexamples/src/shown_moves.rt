//! Half of a counterexample: the moves of a whole tree in which a state makes a move that it allows.
//!
//! In front of all of them stand the moves along the state's path. Then comes the reduction or the shift, and what leads out from there to a
//! whole tree. `ShownMoves` in `specs/` says which moves show one.

mod next_completion;
mod shown;

pub use lalrpop_lr1_paths::completions::{
    AnyCompletion, CompletionGraphs, EndCompletion, WantedCompletion, WantedSteps, rest_count,
};
pub use next_completion::NextCompletion;
pub use shown::{with_reduction, with_shift};
