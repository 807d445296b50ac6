//! Laws that tie what the program makes of a written grammar to the grammar's expansion: the plain productions of a normalized grammar are
//! those of the expansion before inlining, and the inlined ones those after it.
//!
//! The module has no code but laws. The definitions stand in `specs/`: `NamedLabels` (labels under names, and back), `NamedGrammars` (when
//! a lowered grammar's productions are an expansion's under names) and `NormalizedExpansions` (what the laws say).

ghost use Rattle.lalrpop_run_prepare.specs.NamedGrammars.{LabelsAreNamed};
ghost use Rattle.lalrpop_run_prepare.specs.NormalizedExpansions.{InlinedAreExpansion, NormalizedAreBaseExpansion};

/// The law of normalized grammars: what the theory of tables sees of the plain productions are the productions of the written grammar's
/// expansion, one for each written choice, under the expansion's names. Inlined, they are the productions of the expansion after
/// inlining, one for each label.
pub fn inlined_are_expansion()
    ensures before { NormalizedAreBaseExpansion }
    ensures after { InlinedAreExpansion }
{}

/// The law of labels under names: where a lowered grammar's productions are those of an expansion under names, labels over names and
/// numbers of actions are those over closed symbols and written choices, both ways, and no two of the former are one of the latter.
pub fn labels_are_named()
    ensures { LabelsAreNamed }
{}
