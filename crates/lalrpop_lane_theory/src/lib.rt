//! The theory of lane tables: from which states lookaheads come, when columns of them meet, and what copied states keep.
//!
//! The crate has no code but laws, over lists of productions and of states. In `specs/`, `Lanes` says from which states and items the
//! lookaheads of an item come and what they are there, `Columns` what columns, rows and tables of tokens hold and when columns meet,
//! `LaneTables` what the traces of a state's moves leave in a table, `SpreadStates` what copies of states and redirected edges are,
//! `CarriedConflicts` when what is carried over states leaves no conflict, `Lalr1Grammars` which grammars are LALR(1), and `LaneLaws` what
//! the laws say.
#![tactic(auto)]

ghost use Rattle.lalrpop_lane_theory.specs.LaneLaws.{AnswersAgree, CarriedAreChecked, CheckedAreNoFewer, ColumnsSucceed, ConflictsAreCarried, FitIsApart, Lalr1IsLr1, Lalr1IsNoCarriedConflict, Lalr1IsNoCollapsedConflict, LanesAreCarried, MergesKeepCover};

/// The law that over states that are reached, as those without lookaheads are, just that is carried to an item of a state which its
/// lane adds somewhere, where the start stands alone.
pub fn lanes_are_carried()
    ensures { LanesAreCarried }
{}

/// The law that entries which are put into columns one after the other all fit exactly where no two columns meet.
pub fn fit_is_apart()
    ensures { FitIsApart }
{}

/// The law that where what is carried leaves no conflict, and the start stands alone, the columns of the moves of a state, each with
/// what the move's trace adds, don't meet.
pub fn columns_succeed()
    ensures { ColumnsSucceed }
{}

/// The law that states which are spread over a cover are a cover, and stay spread where one is copied, with edges that it has or had
/// earlier, and where edges that led to one lead to a copy of it.
pub fn merges_keep_cover()
    ensures { MergesKeepCover }
{}

/// The law that spread states which reduce before just what is carried are checked where they have no conflict, for a start alone that
/// reaches nothing barren.
pub fn carried_are_checked()
    ensures { CarriedAreChecked }
{}

/// The law that states which reduce before just what is carried, by each item once, have no conflict exactly where what is carried
/// leaves none.
pub fn conflicts_are_carried()
    ensures { ConflictsAreCarried }
{}

/// The law that states which may be parsed with are at least as many as the states without lookaheads.
pub fn checked_are_no_fewer()
    ensures { CheckedAreNoFewer }
{}

/// The law that over states without lookaheads what is carried leaves no conflict exactly where the grammar is LALR(1).
pub fn lalr1_is_no_carried_conflict()
    ensures { Lalr1IsNoCarriedConflict }
{}

/// The law that canonical states put together by their cores have no conflict exactly where the grammar is LALR(1).
pub fn lalr1_is_no_collapsed_conflict()
    ensures { Lalr1IsNoCollapsedConflict }
{}

/// The law that an LALR(1) grammar is LR(1).
pub fn lalr1_is_lr1()
    ensures { Lalr1IsLr1 }
{}

/// The law that runs over two lists of checked states end alike, for a start alone, but that over one of them a run may pass the limit
/// where the tokens are no sentence.
pub fn answers_agree()
    ensures { AnswersAgree }
{}
