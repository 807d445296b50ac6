//! What folding and unfolding are to each other.

ghost use Rattle.lalrpop_run_parser.specs.Foldings.{FoldedTreesAreOne, UnfoldedTreesAreOne};

use lalrpop_run_theory::answers::forests_correspond;

/// The law that folding and unfolding are inverse: what is unfolded and folded again is the same tree, and what is folded and unfolded again
/// is the same, texts of leaves and spans inside arguments aside.
pub fn foldings_are_inverse()
    ensures folded { FoldedTreesAreOne }
    ensures unfolded { UnfoldedTreesAreOne }
{
    forests_correspond();
}
