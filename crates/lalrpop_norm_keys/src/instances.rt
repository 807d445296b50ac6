//! The symbols on the right sides of a call.

ghost use Rattle.std.specs.Prelude.{◌≡◌, ◌++◌, ◌∷◌, [], None, IfErr, IfOk, OnOk, map, option_map};
ghost use Rattle.lalrpop_grammar_symbols.specs.Symbols.{Closed};
ghost use Rattle.lalrpop_grammar.specs.WrittenGrammar.{Origin};
ghost use Rattle.lalrpop_grammar.specs.Views.{alternative_view, condition_view};
ghost use Rattle.lalrpop_grammar_language.specs.Enabled.{choice_of};
ghost use Rattle.lalrpop_grammar_language.specs.Levels.{levels, ranked_choices};
ghost use Rattle.lalrpop_grammar_rules.specs.Details.{choices_view, enabled_rule_view, tighter_in};
ghost use Rattle.lalrpop_grammar_rules.specs.Ranks.{rank_view};
ghost use Rattle.lalrpop_grammar_rules.specs.RuleTable.{IsKept, IsTable, rules_view, rules_with};
ghost use Rattle.lalrpop_grammar_rules.specs.Views.{binding_of, closed_view, closeds};
ghost use Rattle.lalrpop_norm_theory.specs.KeyTables.{keys_in_all};
ghost use Rattle.lalrpop_norm_theory.specs.Premises.{HasNoLevels};
ghost use Rattle.lalrpop_norm_theory.specs.UsedKeys.{KeyUses};
ghost use Rattle.lalrpop_norm_keys.specs.AskedConditions.{AreAskable, AsksRightly};
ghost use Rattle.lalrpop_norm_keys.specs.MacroFaults.{IsAskable, TellsOfAlternative};
ghost use Rattle.lalrpop_norm_keys.specs.Instances.{AddsSide, AddsSides, AreTight, HasKeysOf, TellsOfCall, TellsOfSome, kept_from};
ghost use Rattle.lalrpop_norm_keys.specs.StandingCalls.{HasCallsOf};

use crate::conditions::ask_condition;
use lalrpop_grammar_repr::NormFault;
use lalrpop_grammar_rules::closed::{Binding, ClosedSymbol, Finder, right_side};
use lalrpop_grammar_rules::{Choice, EnabledRule, Rules};
use lalrpop_grammar_symbols::{Atom, List};
use std::alloc::{AllocError, Global};

/// Puts the symbols behind the others.
fn append(symbols: &mut List<ClosedSymbol>, more: List<ClosedSymbol>) -> Result<(), AllocError>
    ensures { OnOk result (symbols.new ≡ symbols.old ++ more) }
{
    for symbol in more.into_vec() {
        symbols.push(symbol)?;
    }
    Ok(())
}

/// Puts the right side of the alternative behind the symbols, where its condition holds.
fn add_side<F: Finder>(
    alloc: Global,
    finder: &F,
    rules: &Rules<'_>,
    rule: &EnabledRule<'_>,
    args: &[ClosedSymbol],
    choice: &Choice<'_>,
    symbols: &mut List<ClosedSymbol>,
) -> Result<(), NormFault>
    requires table { IsTable rules.now }
    requires kept { IsKept rules.now.features.now rule.now }
    requires tighter { choice.now.tighter ≡ tighter_in
        (levels (enabled_rule_view rules.now.features.now rule.now)) (option_map rank_view choice.now.rank) }
    ensures added { OnOk result (AddsSide (rules_with (F.finds finder.now) rules.now)
        (enabled_rule_view rules.now.features.now rule.now) (binding_of rule.now.written.now.args args.now)
        (choice_of (Origin.start, alternative_view choice.now.alternative.now), option_map rank_view choice.now.rank)
        (map closed_view symbols.old) (map closed_view symbols.new)) }
    ensures asked { OnOk result (IsAskable (F.finds finder.now) (F.too_deep finder.now)
        (binding_of rule.now.written.now.args args.now)
        (option_map condition_view choice.now.alternative.now.condition)) }
    ensures fault { IfErr result (TellsOfAlternative (F.finds finder.now) (F.too_deep finder.now)
        (binding_of rule.now.written.now.args args.now)
        (option_map condition_view choice.now.alternative.now.condition)) }
{
    let binding = Binding {
        parameters: rule.written.args.as_slice(),
        args,
    };
    if !ask_condition(alloc, finder, rules, binding, &choice.alternative.condition)? {
        return Ok(());
    }
    let side = right_side(alloc, rules, rule, choice, args)?;
    append(symbols, side)?;
    Ok(())
}

/// Puts the right side of the alternative behind the symbols, where it is enabled and its condition holds.
fn add_choice<F: Finder>(
    alloc: Global,
    finder: &F,
    rules: &Rules<'_>,
    rule: &EnabledRule<'_>,
    args: &[ClosedSymbol],
    choice: &Option<Choice<'_>>,
    symbols: &mut List<ClosedSymbol>,
) -> Result<(), NormFault>
    requires table { IsTable rules.now }
    requires kept { IsKept rules.now.features.now rule.now }
    requires tight { AreTight (levels (enabled_rule_view rules.now.features.now rule.now))
        (choices_view rule.now.written.now.name.0 0 (choice.now ∷ [])) }
    ensures added { OnOk result (AddsSides (rules_with (F.finds finder.now) rules.now)
        (enabled_rule_view rules.now.features.now rule.now) (binding_of rule.now.written.now.args args.now)
        (kept_from rule.now.written.now.name.0 0 (choice.now ∷ []))
        (map closed_view symbols.old) (map closed_view symbols.new)) }
    ensures asked { OnOk result (AreAskable (F.finds finder.now) (F.too_deep finder.now)
        (binding_of rule.now.written.now.args args.now) (kept_from rule.now.written.now.name.0 0 (choice.now ∷ []))) }
    ensures fault { IfErr result (TellsOfSome (F.finds finder.now) (F.too_deep finder.now)
        (binding_of rule.now.written.now.args args.now) (kept_from rule.now.written.now.name.0 0 (choice.now ∷ []))) }
{
    match choice {
        Some(choice) => add_side(alloc, finder, rules, rule, args, choice, symbols),
        None => Ok(()),
    }
}

/// The symbols of the right sides of the rule's alternatives whose conditions hold for the arguments, in order.
fn bound_symbols<F: Finder>(
    alloc: Global,
    finder: &F,
    rules: &Rules<'_>,
    rule: &EnabledRule<'_>,
    args: &[ClosedSymbol],
) -> Result<List<ClosedSymbol>, NormFault>
    requires table { IsTable rules.now }
    requires kept { IsKept rules.now.features.now rule.now }
    ensures symbols { IfOk result (λ xs. AddsSides (rules_with (F.finds finder.now) rules.now)
        (enabled_rule_view rules.now.features.now rule.now) (binding_of rule.now.written.now.args args.now)
        (ranked_choices (enabled_rule_view rules.now.features.now rule.now)) [] (map closed_view xs)) }
    ensures asked { OnOk result (AreAskable (F.finds finder.now) (F.too_deep finder.now)
        (binding_of rule.now.written.now.args args.now)
        (ranked_choices (enabled_rule_view rules.now.features.now rule.now))) }
    ensures fault { IfErr result (TellsOfSome (F.finds finder.now) (F.too_deep finder.now)
        (binding_of rule.now.written.now.args args.now)
        (ranked_choices (enabled_rule_view rules.now.features.now rule.now))) }
{
    let mut symbols = List::new(alloc);
    let choices = rule.choices.as_slice();
    for choice in choices {
        add_choice(alloc, finder, rules, rule, args, choice, &mut symbols)?;
    }
    Ok(symbols)
}

/// The symbols on the right sides of the call of a rule: of the alternatives whose conditions hold for the arguments, in order.
/// Their calls are just those that stand in the call; where no rule has levels, so are their keys, which the call uses in this order.
///
/// # Errors
///
/// A condition of the rule is on something else than a quoted literal, or its pattern isn't read, or the search for the pattern is
/// refused, or memory runs out.
pub(crate) fn symbols_of<F: Finder>(
    alloc: Global,
    finder: &F,
    rules: &Rules<'_>,
    name: &Atom,
    args: &[ClosedSymbol],
) -> Result<List<ClosedSymbol>, NormFault>
    requires table { IsTable rules.now }
    ensures calls { IfOk result (λ xs. HasCallsOf (rules_with (F.finds finder.now) rules.now)
        (Closed.call name.now (closeds (map closed_view args.now)) None) (map closed_view xs)) }
    ensures keys { IfOk result (λ xs. HasNoLevels (rules_view rules.now)
        → HasKeysOf (rules_with (F.finds finder.now) rules.now)
        (Closed.call name.now (closeds (map closed_view args.now)) None) (map closed_view xs)) }
    ensures order { IfOk result (λ xs. HasNoLevels (rules_view rules.now)
        → KeyUses (rules_with (F.finds finder.now) rules.now)
        (Closed.call name.now (closeds (map closed_view args.now)) None) (keys_in_all (closeds (map closed_view xs)))) }
    ensures asked { OnOk result (AsksRightly (rules_with (F.finds finder.now) rules.now) (F.too_deep finder.now)
        name.now (closeds (map closed_view args.now))) }
    ensures fault { IfErr result (TellsOfCall (rules_with (F.finds finder.now) rules.now) (F.too_deep finder.now)
        name.now (closeds (map closed_view args.now))) }
{
    let Some(rule) = rules.find(name) else {
        return Ok(List::new(alloc));
    };
    if rule.written.args.len() != args.len() {
        return Ok(List::new(alloc));
    }
    bound_symbols(alloc, finder, rules, rule, args)
}
