//! Laws of paths to states and of completions: sentences that lead to a state, and on from a position in it to a whole tree.
//!
//! The module has no code but laws. In `specs/`, `PathTrees` says what a path to each state is, `CompletionMoves` which moves lead out, and
//! `Laws` what the laws say.

ghost use Rattle.lalrpop_lr1_theory.specs.CompletionLaws.{ItemsHaveCompletions, LookaheadsHaveCompletions, CompletionsMakeTrees};

/// The law that moves which lead out make a whole tree over each forest on a state's path.
pub fn completions_make_trees()
    ensures { CompletionsMakeTrees }
{}

/// The law that moves lead out before each terminal, or the end, in the lookahead of an item of canonical states.
pub fn lookaheads_have_completions()
    ensures { LookaheadsHaveCompletions }
{}

/// The law that some moves lead out from before each item of canonical states.
pub fn items_have_completions()
    ensures { ItemsHaveCompletions }
{}
