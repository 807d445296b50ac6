//! Laws of the normalizer's definitions, and those of inlining where nothing is inlined.

ghost use Rattle.std.specs.Prelude.{false};

use lalrpop_grammar_language::labels::{
    InlinedNonterminals, Inlining, expanded_trees_correspond, inlined_labels_have_one_side,
    inlined_trees_correspond, steps_are_exact,
};
use lalrpop_norm_theory::back_laws::{
    levels_keep_chains, levels_keep_types, macros_keep_types, names_go_back, types_compose,
};
use lalrpop_norm_theory::expansion::{
    enabled_rules_are_left, levels_keep_symbols, macros_keep_expansion, passes_compose,
    productions_are_numbered, rounds_find_calls, tables_have_types,
};
use lalrpop_norm_theory::level_laws::{
    levels_keep_expansion, levels_leave_resolved, levels_name_rules, sides_count,
};
use lalrpop_norm_theory::name_laws::{
    dropping_keeps_expansion, resolving_keeps_expansion, resolving_resolves_names,
};
use lalrpop_norm_token_check::{entries_are_unique, literals_have_entries};

/// Nothing is produced, and nothing is inlined.
struct InlinesNothing;

impl Inlining<u64, u64> for InlinesNothing {
    ghost produces = { λ _ _ _. ⊥ };

    ghost is_inlined = { λ _. ⊥ };

    ghost inlined_test = { λ _. false };
}

impl InlinedNonterminals for InlinesNothing {
    ghost is_inlined = { λ _. ⊥ };

    ghost inlined_test = { λ _. false };
}

#[test]
fn laws_are_called() {
    enabled_rules_are_left();
    passes_compose();
    productions_are_numbered();
    rounds_find_calls();
    tables_have_types();
    dropping_keeps_expansion();
    resolving_keeps_expansion();
    resolving_resolves_names();
    macros_keep_expansion();
    levels_keep_symbols();
    levels_leave_resolved();
    levels_keep_expansion();
    levels_name_rules();
    sides_count();
    levels_keep_types();
    levels_keep_chains();
    names_go_back();
    macros_keep_types();
    types_compose();
    entries_are_unique();
    literals_have_entries();
    inlined_trees_correspond::<u64, u64, InlinesNothing>();
    expanded_trees_correspond::<InlinesNothing>();
    steps_are_exact::<u64, u64, InlinesNothing>();
    inlined_labels_have_one_side::<u64, u64, InlinesNothing>();
}
