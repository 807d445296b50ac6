//! The keys of a grammar: its rules that are no macros, the calls of macros that it makes, and the repeats, groups and lookarounds
//! that stand in these.

ghost use Rattle.std.specs.Prelude.{◌≡◌, [], ◌∷◌, IfErr, IfOk, OnOk, None, map};
ghost use Rattle.lalrpop_grammar_symbols.specs.Symbols.{Closed};
ghost use Rattle.lalrpop_grammar.specs.Views.{grammar_view};
ghost use Rattle.lalrpop_grammar_rules.specs.RuleTable.{IsTable, rules_view, rules_with};
ghost use Rattle.lalrpop_grammar_rules.specs.Views.{closed_view, closeds};
ghost use Rattle.lalrpop_norm_theory.specs.Premises.{HasNoLevels};
ghost use Rattle.lalrpop_norm_theory.specs.KeyTables.{IsKeyTable};
ghost use Rattle.lalrpop_norm_theory.specs.UsedKeys.{IsListByUse, KeyUses};
ghost use Rattle.lalrpop_norm_keys.specs.UseSearch.{AddsUsesOf, AreCallsByUse, UsesWithItself};
ghost use Rattle.lalrpop_norm_keys.specs.Tables.{IsKeyIndex, table_keys};
ghost use Rattle.lalrpop_norm_keys.specs.AskedConditions.{AskRightly, AsksRightly, HasAskedConditions};
ghost use Rattle.lalrpop_norm_keys.specs.FoundCalls.{AreCalls, TellsOfAnyCall, TellsOfMadeCall, TellsOfOneCall};
ghost use Rattle.lalrpop_norm_keys.specs.FoundKeys.{AddsStanding, FindsKeys};
ghost use Rattle.lalrpop_norm_keys.specs.Instances.{TellsOfCall};
ghost use Rattle.lalrpop_norm_keys.specs.SearchPremises.{AreAllCalls, CanSearch};

use crate::called::unleveled_call;
use crate::instances::symbols_of;
use crate::key_table::{KeyTable, keys_in_symbols};
use crate::plain::plain_rules;
use lalrpop_grammar::Grammar;
use lalrpop_grammar_repr::NormFault;
use lalrpop_grammar_rules::Rules;
use lalrpop_grammar_rules::closed::{ClosedSymbol, Finder};
use lalrpop_grammar_symbols::Atom;
use std::alloc::Global;

/// Adds the keys that stand in the call of a rule.
fn add_standing<F: Finder>(
    alloc: Global,
    finder: &F,
    rules: &Rules<'_>,
    name: &Atom,
    args: &[ClosedSymbol],
    keys: &mut KeyTable,
) -> Result<(), NormFault>
    requires table { IsTable rules.now }
    requires index { IsKeyIndex keys.old }
    ensures index { OnOk result (IsKeyIndex keys.new) }
    ensures found { OnOk result (HasNoLevels (rules_view rules.now)
        → AddsStanding (rules_with (F.finds finder.now) rules.now)
        (Closed.call name.now (closeds (map closed_view args.now)) None) (table_keys keys.old) (table_keys keys.new)) }
    ensures order { OnOk result (HasNoLevels (rules_view rules.now)
        → AddsUsesOf (KeyUses (rules_with (F.finds finder.now) rules.now))
        (Closed.call name.now (closeds (map closed_view args.now)) None ∷ []) (table_keys keys.old) (table_keys keys.new)) }
    ensures asked { OnOk result (AsksRightly (rules_with (F.finds finder.now) rules.now) (F.too_deep finder.now)
        name.now (closeds (map closed_view args.now))) }
    ensures fault { IfErr result (TellsOfCall (rules_with (F.finds finder.now) rules.now) (F.too_deep finder.now)
        name.now (closeds (map closed_view args.now))) }
{
    let symbols = symbols_of(alloc, finder, rules, name, args)?;
    let found = keys_in_symbols(alloc, symbols.as_slice())?;
    keys.add_all(alloc, found.as_slice())?;
    Ok(())
}

/// Adds the call and the keys that stand in it. In one at a level nothing stands.
fn add_keys_of<F: Finder>(
    alloc: Global,
    finder: &F,
    rules: &Rules<'_>,
    call: &ClosedSymbol,
    keys: &mut KeyTable,
) -> Result<(), NormFault>
    requires table { IsTable rules.now }
    requires index { IsKeyIndex keys.old }
    ensures index { OnOk result (IsKeyIndex keys.new) }
    ensures found { OnOk result (HasNoLevels (rules_view rules.now) → AreCalls (closed_view call.now ∷ [])
        → FindsKeys (rules_with (F.finds finder.now) rules.now)
        (closed_view call.now ∷ []) (table_keys keys.old) (table_keys keys.new)) }
    ensures order { OnOk result (HasNoLevels (rules_view rules.now)
        → AddsUsesOf (UsesWithItself (rules_with (F.finds finder.now) rules.now))
        (closed_view call.now ∷ []) (table_keys keys.old) (table_keys keys.new)) }
    ensures asked { OnOk result (AskRightly (rules_with (F.finds finder.now) rules.now) (F.too_deep finder.now)
        (closed_view call.now ∷ [])) }
    ensures fault { IfErr result (TellsOfOneCall (rules_with (F.finds finder.now) rules.now) (F.too_deep finder.now)
        (closed_view call.now ∷ [])) }
{
    keys.add(alloc, call)?;
    let Some(called) = unleveled_call(call) else {
        return Ok(());
    };
    add_standing(alloc, finder, rules, called.name, called.args, keys)
}

/// Adds the calls, and the keys that stand in them.
fn add_keys_of_calls<F: Finder>(
    alloc: Global,
    finder: &F,
    rules: &Rules<'_>,
    calls: &[ClosedSymbol],
    keys: &mut KeyTable,
) -> Result<(), NormFault>
    requires table { IsTable rules.now }
    requires index { IsKeyIndex keys.old }
    ensures index { OnOk result (IsKeyIndex keys.new) }
    ensures found { OnOk result (HasNoLevels (rules_view rules.now) → AreCalls (map closed_view calls.now)
        → FindsKeys (rules_with (F.finds finder.now) rules.now)
        (map closed_view calls.now) (table_keys keys.old) (table_keys keys.new)) }
    ensures order { OnOk result (HasNoLevels (rules_view rules.now)
        → AddsUsesOf (UsesWithItself (rules_with (F.finds finder.now) rules.now))
        (map closed_view calls.now) (table_keys keys.old) (table_keys keys.new)) }
    ensures asked { OnOk result (AskRightly (rules_with (F.finds finder.now) rules.now) (F.too_deep finder.now)
        (map closed_view calls.now)) }
    ensures fault { IfErr result (TellsOfOneCall (rules_with (F.finds finder.now) rules.now) (F.too_deep finder.now)
        (map closed_view calls.now)) }
{
    for call in calls {
        add_keys_of(alloc, finder, rules, call, keys)?;
    }
    Ok(())
}

/// The keys of the grammar, each once: its rules that are no macros, as they are written, and then these calls, and what stands in
/// both, each where it is used first. That rests on calls that are all that the grammar makes, in order of first use, and on rules
/// without levels, of which no two share a name and the features disable none.
///
/// # Errors
///
/// A condition can't be asked, or memory runs out.
pub fn find_keys<F: Finder>(
    alloc: Global,
    finder: &F,
    grammar: &Grammar,
    rules: &Rules<'_>,
    calls: &KeyTable,
) -> Result<KeyTable, NormFault>
    requires table { IsTable rules.now }
    requires of_grammar { grammar_view rules.now.grammar.now ≡ grammar_view grammar.now }
    ensures index { IfOk result IsKeyIndex }
    ensures keys { IfOk result (λ keys.
        CanSearch (rules_with (F.finds finder.now) rules.now) rules.now.features.now (grammar_view grammar.now)
        → AreAllCalls (rules_with (F.finds finder.now) rules.now) (table_keys calls.now)
        → IsKeyTable (rules_with (F.finds finder.now) rules.now) (table_keys calls.now) (table_keys keys)) }
    ensures order { IfOk result (λ keys.
        CanSearch (rules_with (F.finds finder.now) rules.now) rules.now.features.now (grammar_view grammar.now)
        → AreAllCalls (rules_with (F.finds finder.now) rules.now) (table_keys calls.now)
        → AreCallsByUse (rules_with (F.finds finder.now) rules.now) (table_keys calls.now)
        → IsListByUse (rules_with (F.finds finder.now) rules.now) (table_keys keys)) }
    ensures asked { IfOk result (λ keys.
        CanSearch (rules_with (F.finds finder.now) rules.now) rules.now.features.now (grammar_view grammar.now)
        → AreAllCalls (rules_with (F.finds finder.now) rules.now) (table_keys calls.now)
        → HasAskedConditions (rules_with (F.finds finder.now) rules.now) (F.too_deep finder.now)) }
    ensures fault { IfErr result (λ fault.
        CanSearch (rules_with (F.finds finder.now) rules.now) rules.now.features.now (grammar_view grammar.now)
        → AreAllCalls (rules_with (F.finds finder.now) rules.now) (table_keys calls.now)
        → TellsOfMadeCall (rules_with (F.finds finder.now) rules.now) (F.too_deep finder.now) fault) }
    ensures condition { IfErr result (TellsOfAnyCall (rules_with (F.finds finder.now) rules.now) (F.too_deep finder.now)) }
{
    let mut keys = KeyTable::new(alloc);
    let plain = plain_rules(alloc, grammar)?;
    keys.add_all(alloc, plain.as_slice())?;
    add_keys_of_calls(alloc, finder, rules, plain.as_slice(), &mut keys)?;
    add_keys_of_calls(alloc, finder, rules, calls.keys(), &mut keys)?;
    Ok(keys)
}
