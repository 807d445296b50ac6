//! What dropping what is disabled, and resolving names, keep of a grammar and make of it.
//!
//! The module has no code but laws. The definitions stand in `specs/`: `Resolving` (what a name stands for, and a grammar with
//! each name resolved), `NameFaults` (what may be wrong with names) and `NameLaws` (what the laws say). Faults are said of a
//! grammar between two passes: where what is disabled was dropped before, they stand in the enabled rules alone.

ghost use Rattle.lalrpop_norm_theory.specs.NameLaws.{DroppingKeeps, DroppingInlinesAlike, DroppingKeepsTypes, DroppingKeepsChains, ResolvingKeeps, ResolvingInlinesAlike};
ghost use Rattle.lalrpop_norm_theory.specs.NameLaws.{DroppedNamesGoBack, ResolvedNamesGoBack};
ghost use Rattle.lalrpop_norm_theory.specs.NameLaws.{ResolvingKeepsTypes, ResolvingKeepsChains, ResolvingResolves, ResolvedStays, ResolvedHasRightNames};

/// The law of what is disabled: what is left of a grammar that was read has the expansion of its enabled grammar, with the
/// same nonterminals inlined, the same types and the same chains of macro calls. Names of what is left are names of the enabled
/// grammar.
pub fn dropping_keeps_expansion()
    ensures kept { DroppingKeeps }
    ensures inlined { DroppingInlinesAlike }
    ensures types { DroppingKeepsTypes }
    ensures chains { DroppingKeepsChains }
    ensures names { DroppedNamesGoBack }
{}

/// The law of resolved names: the expansion stays, with the same nonterminals inlined, the same types and the same chains of
/// macro calls, whatever is wrong with names. Names of the resolved grammar's nonterminals are names of the written one's.
pub fn resolving_keeps_expansion()
    ensures kept { ResolvingKeeps }
    ensures inlined { ResolvingInlinesAlike }
    ensures types { ResolvingKeepsTypes }
    ensures chains { ResolvingKeepsChains }
    ensures names { ResolvedNamesGoBack }
{}

/// The law of resolved grammars: where nothing is wrong with names, resolving them makes a resolved grammar, and nothing is
/// wrong with its names; one whose names are resolved stays as it is.
pub fn resolving_resolves_names()
    ensures resolved { ResolvingResolves }
    ensures stays { ResolvedStays }
    ensures right { ResolvedHasRightNames }
{}
