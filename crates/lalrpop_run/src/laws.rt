//! Laws on the right answer.

ghost use Rattle.lalrpop_run.specs.AnswersOfExpansions.{CertificatesAreSaidOfAll, CountsAreOne, CountsAreSaidOfAll, Lr1IsSaidOfAll, RunsAreSaidOfAll};
ghost use Rattle.lalrpop_run.specs.OneAnswer.{ConflictsGiveNoAnswer, NumbersAreInOneOrder, TextAnswersAreOne};

/// The law that it doesn't matter which productions of an expansion are taken: whether they are LR(1), how many sets of valid items there are, how many
/// moves runs over tokens have, and what is told of a certificate are the same for any others; and there is one number of sets of items.
pub fn expansions_are_alike()
    ensures lr1 { Lr1IsSaidOfAll }
    ensures counts { CountsAreSaidOfAll }
    ensures runs { RunsAreSaidOfAll }
    ensures certificates { CertificatesAreSaidOfAll }
    ensures one_count { CountsAreOne }
{}

/// The law that a text has one right answer, but that a run may pass the limit before it comes to a wrong token or to the end; and none where
/// conflicts are right. Of two lists of productions that conflicts may be told of, the actions of each nonterminal's are in one order.
pub fn answers_are_one()
    ensures texts { TextAnswersAreOne }
    ensures conflicts { ConflictsGiveNoAnswer }
    ensures numbers { NumbersAreInOneOrder }
{}
