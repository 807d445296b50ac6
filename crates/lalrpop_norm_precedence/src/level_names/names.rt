//! Names for the levels of rules.

ghost use Rattle.std.specs.Prelude.{◌≡◌, ◌++◌, ◌-◌, Bool, IfOk, Option, OnOk, map, if◌then◌else◌};
ghost use Rattle.lalrpop_grammar_symbols.specs.Symbols.{Text};
ghost use Rattle.lalrpop_grammar.specs.Views.{grammar_view, nonterminal_view};
ghost use Rattle.lalrpop_grammar.specs.WrittenGrammar.{rules_of};
ghost use Rattle.lalrpop_grammar_language.specs.Starts.{has_none};
ghost use Rattle.lalrpop_grammar_rules.specs.RuleTable.{HasBares, knows};
ghost use Rattle.lalrpop_norm_theory.specs.Between.{grammar_between, rule_between};
ghost use Rattle.lalrpop_norm_theory.specs.Keys.{with_number};
ghost use Rattle.lalrpop_norm_theory.specs.Premises.{IsResolved};
ghost use Rattle.lalrpop_norm_theory.specs.LeveledGrammar.{levels_in_order as in_order};
ghost use Rattle.lalrpop_norm_theory.specs.LevelNames.{HasNoTildes, numbered_text, times_taken};
ghost use Rattle.lalrpop_norm_precedence.specs.LevelTables.{
  HasPlainParameters,
  HoldLevelNames,
  levels_alone,
  named_level_view,
  rule_levels_view,
};
ghost use Rattle.lalrpop_norm_precedence.specs.GivenNames.{
  once_more,
  given_name,
  given_names,
  given_table,
  given_tables,
  taken_behind,
  taken_behind_all,
  taken_behind_rule,
  taken_behind_plain,
  taken_behind_macros,
};
ghost use Rattle.lalrpop_norm_precedence.specs.TakenViews.{taken_times};

use crate::level_names::levels::{NamedLevel, RuleLevels};
use crate::level_names::order::levels_in_order;
use crate::level_names::taken::TakenTexts;
use lalrpop_grammar::{Grammar, NonterminalData};
use lalrpop_grammar_symbols::Atom;
use std::alloc::{AllocError, Global};
use std::collections::HashMap;
use std::vec::Vec;

/// The text of a level: the name of its rule, then its number.
fn level_text(alloc: Global, name: &Atom, level: u32) -> Result<Atom, AllocError>
    ensures { IfOk result (λ text. text ≡ numbered_text name.now level) }
{
    let text = format!(in alloc; "{name}{level}")?;
    Atom::new(alloc, text.as_str())
}

/// The name that takes a text for the time of that number: from the second on the number follows behind a tilde.
fn name_for(alloc: Global, text: Atom, time: u64) -> Result<Atom, AllocError>
    ensures { IfOk result (λ name. name ≡ with_number text (time - 1)) }
{
    if time < 2 {
        return Ok(text);
    }
    let name = format!(in alloc; "{text}~{time}")?;
    Atom::new(alloc, name.as_str())
}

/// The parameters of the rule.
fn parameter_names<'g>(
    alloc: Global,
    rule: &'g NonterminalData,
) -> Result<HashMap<&'g str, ()>, AllocError>
    ensures { IfOk result (λ names. HasBares names (nonterminal_view rule.now).parameters) }
{
    let mut names = HashMap::new(alloc);
    for parameter in rule.args.as_slice() {
        names.insert(parameter.0.as_str(), ())?;
    }
    Ok(names)
}

/// Takes the text once more, where it is a parameter.
fn take_parameter(
    text: &Atom,
    parameters: &HashMap<&str, ()>,
    taken: &mut TakenTexts,
) -> Result<(), AllocError>
    ensures { OnOk result (taken_times taken.new ≡ (if knows parameters.now text.now
        then once_more text.now (taken_times taken.old) else taken_times taken.old)) }
{
    if parameters.contains_key(text.as_str()) {
        taken.take(text)?;
    }
    Ok(())
}

/// The level under a name that isn't taken yet.
fn named_level(
    alloc: Global,
    rule: &NonterminalData,
    level: u32,
    parameters: &HashMap<&str, ()>,
    taken: &mut TakenTexts,
) -> Result<NamedLevel, AllocError>
    requires { HasBares parameters.now (nonterminal_view rule.now).parameters }
    ensures named { IfOk result (λ named. named_level_view named
        ≡ (level, given_name (nonterminal_view rule.now) (taken_times taken.old) level)) }
    ensures taken { OnOk result (taken_times taken.new
        ≡ taken_behind (nonterminal_view rule.now) (taken_times taken.old) level) }
{
    let text = level_text(alloc, &rule.name.0, level)?;
    take_parameter(&text, parameters, taken)?;
    let time = taken.take(&text)?;
    let name = name_for(alloc, text, time)?;
    Ok(NamedLevel { level, name })
}

/// Pushes the levels under names that aren't taken yet.
fn push_named(
    alloc: Global,
    rule: &NonterminalData,
    levels: &[u32],
    taken: &mut TakenTexts,
    named: &mut Vec<NamedLevel>,
) -> Result<(), AllocError>
    ensures named { OnOk result (map named_level_view named.new.items ≡ map named_level_view named.old.items
        ++ given_names (nonterminal_view rule.now) (taken_times taken.old) levels.now) }
    ensures taken { OnOk result (taken_times taken.new
        ≡ taken_behind_all (nonterminal_view rule.now) (taken_times taken.old) levels.now) }
{
    let parameters = parameter_names(alloc, rule)?;
    for level in levels {
        let item = named_level(alloc, rule, *level, &parameters, taken)?;
        named.push(item)?;
    }
    Ok(())
}

/// The levels of the rule in order. The loosest has the rule's name, the others have names that aren't taken yet.
fn named_levels(
    alloc: Global,
    rule: &NonterminalData,
    taken: &mut TakenTexts,
) -> Result<RuleLevels, AllocError>
    ensures named { IfOk result (λ table. rule_levels_view table
        ≡ given_table (nonterminal_view rule.now) (taken_times taken.old)) }
    ensures taken { OnOk result (taken_times taken.new
        ≡ taken_behind_rule (nonterminal_view rule.now) (taken_times taken.old)) }
{
    let order = levels_in_order(alloc, rule)?;
    let mut levels = Vec::new(alloc);
    let Some((loosest, tighter)) = order.as_slice().split_first() else {
        return Ok(RuleLevels { levels });
    };
    let name = rule.name.0.try_clone()?;
    levels.push(NamedLevel {
        level: *loosest,
        name,
    })?;
    push_named(alloc, rule, tighter, taken, &mut levels)?;
    Ok(RuleLevels { levels })
}

/// The levels of the rule under their names, by what is taken for macros where it is one, and else by what is taken for others.
fn named_rule(
    alloc: Global,
    rule: &NonterminalData,
    plain: &mut TakenTexts,
    macros: &mut TakenTexts,
) -> Result<RuleLevels, AllocError>
    ensures named { IfOk result (λ table. rule_levels_view table ≡ given_table (nonterminal_view rule.now)
        (if has_none (nonterminal_view rule.now).parameters then taken_times plain.old else taken_times macros.old)) }
    ensures plain { OnOk result (taken_times plain.new ≡ (if has_none (nonterminal_view rule.now).parameters
        then taken_behind_rule (nonterminal_view rule.now) (taken_times plain.old) else taken_times plain.old)) }
    ensures macros { OnOk result (taken_times macros.new ≡ (if has_none (nonterminal_view rule.now).parameters
        then taken_times macros.old else taken_behind_rule (nonterminal_view rule.now) (taken_times macros.old))) }
{
    if rule.is_macro_def() {
        named_levels(alloc, rule, macros)
    } else {
        named_levels(alloc, rule, plain)
    }
}

/// The levels of each rule under their names.
fn named_rules(
    alloc: Global,
    grammar: &Grammar,
    plain: &mut TakenTexts,
    macros: &mut TakenTexts,
) -> Result<Vec<RuleLevels>, AllocError>
    ensures named { IfOk result (λ tables. map rule_levels_view tables.items
        ≡ given_tables (rules_of (grammar_view grammar.now).items) (taken_times plain.old) (taken_times macros.old)) }
    ensures plain { OnOk result (taken_times plain.new
        ≡ taken_behind_plain (rules_of (grammar_view grammar.now).items) (taken_times plain.old)) }
    ensures macros { OnOk result (taken_times macros.new
        ≡ taken_behind_macros (rules_of (grammar_view grammar.now).items) (taken_times macros.old)) }
{
    let mut tables = Vec::new(alloc);
    for rule in grammar.rules() {
        let table = named_rule(alloc, rule, plain, macros)?;
        tables.push(table)?;
    }
    Ok(tables)
}

/// The names of the rules, each of which is taken.
fn rule_names(alloc: Global, grammar: &Grammar) -> Result<TakenTexts, AllocError>
    ensures { IfOk result (λ taken. (text : Text) → taken_times taken text
        ≡ times_taken text (map (λ r. r.name) (rules_of (grammar_view grammar.now).items))) }
{
    let mut taken = TakenTexts::new(alloc);
    for rule in grammar.rules() {
        taken.take(&rule.name.0)?;
    }
    Ok(taken)
}

/// Takes what the names of a rule's levels will take, where it is no macro.
fn take_plain_rule(
    alloc: Global,
    rule: &NonterminalData,
    taken: &mut TakenTexts,
) -> Result<(), AllocError>
    ensures { OnOk result (taken_times taken.new ≡ (if has_none (nonterminal_view rule.now).parameters
        then taken_behind_rule (nonterminal_view rule.now) (taken_times taken.old) else taken_times taken.old)) }
{
    if !rule.is_macro_def() {
        named_levels(alloc, rule, taken)?;
    }
    Ok(())
}

/// Takes what the names of levels will take, but for those of macros.
fn take_plain_levels(
    alloc: Global,
    grammar: &Grammar,
    taken: &mut TakenTexts,
) -> Result<(), AllocError>
    ensures { OnOk result (taken_times taken.new
        ≡ taken_behind_plain (rules_of (grammar_view grammar.now).items) (taken_times taken.old)) }
{
    for rule in grammar.rules() {
        take_plain_rule(alloc, rule, taken)?;
    }
    Ok(())
}

/// The levels of each rule, in order of the rules, with the names that their rules get.
pub fn level_names(alloc: Global, grammar: &Grammar) -> Result<Vec<RuleLevels>, AllocError>
    ensures order { IfOk result (λ tables. map levels_alone tables.items
        ≡ map (λ r. in_order (rule_between r)) (rules_of (grammar_view grammar.now).items)) }
    ensures names { IfOk result (λ tables. (finds : Text → Text → Option Bool)
        → IsResolved (grammar_between finds (grammar_view grammar.now)) → HasNoTildes (grammar_view grammar.now)
        → HasPlainParameters (grammar_view grammar.now) → HoldLevelNames (grammar_view grammar.now) tables.items) }
{
    let mut plain = rule_names(alloc, grammar)?;
    let mut macros = rule_names(alloc, grammar)?;
    take_plain_levels(alloc, grammar, &mut macros)?;
    named_rules(alloc, grammar, &mut plain, &mut macros)
}
