//! What the productions of a grammar's expansion are, as the theory of tables sees them, and what they say of the written grammar: the
//! right answer to a text is told by them.
//!
//! The module has no code but laws, over lists of productions. The definitions stand in `specs/`: `Expansions` (the productions are
//! those of the expansion, one for each label, under names), `ExpansionTrees` (the expanded tree of a written tree over such
//! productions), `Barren` (what the written start reaches without a finite derivation) and `Laws` (what the laws say).

ghost use Rattle.lalrpop_run_theory.specs.Laws.{
  AdmittedHaveForests,
  BarrenNamesAreBarren,
  BeginningsAreYields,
  ForestsAreAdmitted,
  ForestsAreOne,
  ForestsHaveSizes,
  LeastBarrenNamesAreTold,
  NoBarrenNameIsNone,
  NoneBarrenAfterInlining,
  OneWrittenTree,
  SentencesAreYields,
  StartsStandAlone,
  TreesAreOne,
};

/// The law that a start of an expansion stands on none of its right sides.
pub fn starts_stand_alone()
    ensures { StartsStandAlone }
{}

/// The law of barren nonterminals: before inlining, the names that the written start reaches and that no finite tree has at its root
/// are those of barren nonterminals, and the least is the one that is told. Where there are none, the expansion's start reaches none
/// after inlining.
pub fn barren_names_are_told()
    ensures barren { BarrenNamesAreBarren }
    ensures least { LeastBarrenNamesAreTold }
    ensures no_name { NoBarrenNameIsNone }
    ensures after { NoneBarrenAfterInlining }
{}

/// The law that written trees from a start and trees over the productions of the expansion, from that start, are one to one. Each
/// admitted tree has one over the productions, with the terminals and the spans of its tokens; each one over the productions stands for
/// an admitted tree over any tokens with its terminals and spans; no two of the one kind belong to one of the other. A tree over the
/// productions has as many nodes as the expanded tree over labels.
pub fn forests_correspond()
    ensures forests { AdmittedHaveForests }
    ensures admitted { ForestsAreAdmitted }
    ensures one_forest { ForestsAreOne }
    ensures one_tree { TreesAreOne }
    ensures sizes { ForestsHaveSizes }
{}

/// The law that tokens are a sentence of the written grammar exactly where their terminals are the leaves of a tree over the
/// productions, and begin one exactly where these leaves begin so.
pub fn sentences_are_yields()
    ensures sentences { SentencesAreYields }
    ensures beginnings { BeginningsAreYields }
{}

/// The law that no tokens have two written trees, where there are states that the expansion may be parsed with.
pub fn one_written_tree()
    ensures { OneWrittenTree }
{}
