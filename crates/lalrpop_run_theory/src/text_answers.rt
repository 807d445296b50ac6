//! What the right answer to a text is, over the written grammar, and the law that what is right over the productions of its expansion is
//! that answer.
//!
//! The module has no code but laws. The definitions stand in `specs/`: `TextAnswers` (the right answer, by its cases), `TreeChoices` (the
//! choices that a written tree names) and `AnswerLaws` (what the laws on right answers say).

ghost use Rattle.lalrpop_run_theory.specs.AnswerLaws.{RightParsesAreRight, RightParsesHaveAnswers};
ghost use Rattle.lalrpop_run_theory.specs.TreeChoices.{ChoicesAreWritten};

/// The law of right answers: a right answer over the productions of a grammar's expansion, to the terminals of tokens, stands for a
/// written answer, and each one that it stands for is the right answer of the written grammar to the tokens.
pub fn right_parses_are_right()
    ensures right { RightParsesAreRight }
    ensures answers { RightParsesHaveAnswers }
{}

/// The law of choices: the expanded tree of a written tree, its inlined rules put back, has just the choices that the written tree
/// names, in its order, aside from starts, pass-downs, repeats, groups and lookarounds, which name none.
pub fn choices_are_written()
    ensures { ChoicesAreWritten }
{}
