//! The theory of LR(1) tables: what items, states and parses are, and the laws about them.
//!
//! The crate has no code but laws, over lists of productions and of states. Its definitions stand in `specs/`: `Productions`
//! (labelled productions, what may come next), `Trees` (expanded trees without spans, their moves, their forests), `Spans` (with
//! spans), `Places` (places in trees), `FirstSets` (derivations and first sets), `ValidItems` (valid items, what is carried along
//! symbols, barren nonterminals), `Automata` (closures, and states as relations), `States` (states as lists), `Runs` (what states
//! allow, and runs of them), `Answers` (sentences, valid moves, LR(1), right answers), `CheckedStates` (states that may be parsed
//! with), `CanonicalStates` (those that are constructed) and `Laws` (what the laws say). The crates that build, check and run
//! states see their types as these.
#![tactic(auto)]

pub mod check_laws;
pub mod collapse_laws;
pub mod completion_laws;
pub mod lane_laws;
pub mod lr0_laws;

ghost use Rattle.lalrpop_lr1_theory.specs.Laws.{MovesRebuild, MovesDetermine, ForestsFollow, ValidAreCarried, FirstTablesAreExact, CarriedAlongSymbols, CanonicalAreValid, CanonicalAreCounted, ConflictsAreTwoMoves, CanonicalAreChecked, Lr1IsNoConflict, ConflictsHaveForests, CanonicalMovesFollow, CheckedAreLr1, OneTree, EndsAreRight, RunsAreOne};

/// The law that the moves of trees, made from no forest, make these trees. They are as many as the leaves and nodes.
pub fn moves_rebuild()
    ensures { MovesRebuild }
{}

/// The law that trees with the same moves are the same.
pub fn moves_determine()
    ensures { MovesDetermine }
{}

/// The law that a tree's forests follow one another by its moves.
pub fn forests_follow()
    ensures { ForestsFollow }
{}

/// The law that an item is valid on a list of symbols exactly where it is carried along it, where the start reaches no barren
/// nonterminal.
pub fn valid_are_carried()
    ensures { ValidAreCarried }
{}

/// The law that a table of first sets which is closed under the productions, and whose entries are first sets, says exactly
/// the first sets of all lists of symbols.
pub fn first_tables_are_exact()
    ensures { FirstTablesAreExact }
{}

/// The law that what is carried along a graph of states, whatever states, is carried along some symbols that lead to the state.
/// So the lookaheads of collapsed states are those of canonical ones, united.
pub fn carried_along_symbols()
    ensures { CarriedAlongSymbols }
{}

/// The law that a canonical state has, on each list of symbols that leads to it, exactly the valid items.
pub fn canonical_are_valid()
    ensures { CanonicalAreValid }
{}

/// The law that canonical states are as many as the nonempty sets of valid items.
pub fn canonical_are_counted()
    ensures { CanonicalAreCounted }
{}

/// The law that a grammar is LR(1) exactly where no canonical state allows two moves before one terminal or the end. The start
/// may stand on right sides.
pub fn lr1_is_no_conflict()
    ensures { Lr1IsNoConflict }
{}

/// The law that canonical states have no conflict, by the entries of their reductions and by their shifts, exactly where they
/// never allow two moves before one terminal or the end.
pub fn conflicts_are_two_moves()
    ensures { ConflictsAreTwoMoves }
{}

/// The law that canonical states without a conflict are checked, where the start stands alone and reaches no barren nonterminal.
pub fn canonical_are_checked()
    ensures { CanonicalAreChecked }
{}

/// The law that two moves which a canonical state allows before one terminal or the end are both valid there after some forest.
/// So every conflict is real.
pub fn conflicts_have_forests()
    ensures { ConflictsHaveForests }
{}

/// The law that canonical states allow no move before a terminal that can't follow what stands before it, and before the end only where
/// that is a sentence.
pub fn canonical_moves_follow()
    ensures { CanonicalMovesFollow }
{}

/// The law that a grammar with checked states is LR(1).
pub fn checked_are_lr1()
    ensures { CheckedAreLr1 }
{}

/// The law that no sentence has two trees, where checked states stand for a start alone.
pub fn one_tree_each()
    ensures { OneTree }
{}

/// The law that the end of a run over checked states, for a start alone, is the right answer: the tree, the first wrong token, the
/// wrong end, or the limit.
pub fn ends_are_right()
    ensures { EndsAreRight }
{}

/// The law that runs of one length over checked states and the same tokens are one. So how many moves there are, the states and
/// the tokens alone decide.
pub fn runs_are_one()
    ensures { RunsAreOne }
{}
