//! The law that the productions of a grammar after inlining have labels that their actions tell: which written choice each was made of, and
//! which symbols were inlined in it, by which choices.
//!
//! The module has no code but the law. `specs/` has what it says; when an action tells a label is defined in `lalrpop_run_trees::written_trees`.

ghost use Rattle.lalrpop_run_prepare.specs.ToldExpansions.{ActionsTellLabels};

/// The law of labels by actions: where a normalized grammar is inlined, its productions are those of the written grammar's expansion, one
/// for each label, and the action of each tells its label, by the origins of the given actions and the records of the added ones.
pub fn actions_tell_labels()
    ensures { ActionsTellLabels }
{}
