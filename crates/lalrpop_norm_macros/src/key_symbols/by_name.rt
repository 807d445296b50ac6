//! The rules of a grammar as they are written, found by their names.

ghost use Rattle.std.specs.Prelude.{◌≡◌, ◌∷◌, [], IfOk, OnOk, if◌then◌else◌, map, option_map};
ghost use Rattle.std.specs.Str.{bytes_eq};
ghost use Rattle.lalrpop_grammar_symbols.specs.Symbols.{Text};
ghost use Rattle.lalrpop_grammar.specs.Views.{alternative_view, grammar_view, nonterminal_view};
ghost use Rattle.lalrpop_grammar.specs.WrittenGrammar.{rules_of};
ghost use Rattle.lalrpop_norm_theory.specs.Between.{name_in_origins};
ghost use Rattle.lalrpop_norm_macros.specs.WrittenRules.{HasWritten, first_written, or_rule, spelled_in, written_at};

use lalrpop_grammar::{Alternative, Grammar, NonterminalData, Origin};
use lalrpop_grammar_symbols::Atom;
use std::alloc::{AllocError, Global};
use std::collections::HashMap;

/// Rules by their names.
pub type WrittenRules<'g> = HashMap<&'g str, &'g NonterminalData>;

/// The rules of the grammar by their names, of several with one name the first.
pub fn written_rules<'g>(
    alloc: Global,
    grammar: &'g Grammar,
) -> Result<WrittenRules<'g>, AllocError>
    ensures { IfOk result (λ made. HasWritten made (rules_of (grammar_view grammar.now).items)) }
{
    let mut made = HashMap::new(alloc);
    for rule in grammar.rules() {
        put_rule(rule, &mut made)?;
    }
    Ok(made)
}

/// Puts the rule under its name, unless one is there.
fn put_rule<'g>(rule: &'g NonterminalData, rules: &mut WrittenRules<'g>) -> Result<(), AllocError>
    ensures { OnOk result ((n : Text) → written_at rules.new n
        ≡ or_rule (written_at rules.old n) (first_written n (nonterminal_view rule.now ∷ []))) }
{
    let name = rule.name.0.as_str();
    if rules.contains_key(name) {
        return Ok(());
    }
    rules.insert(name, rule)?;
    Ok(())
}

/// The first rule of that name.
pub fn find_written<'g>(rules: &WrittenRules<'g>, name: &Atom) -> Option<&'g NonterminalData>
    ensures { option_map (λ r. nonterminal_view r.now) result ≡ written_at rules.now name.now }
{
    match rules.get(name.as_str()) {
        Some(rule) => Some(*rule),
        None => None,
    }
}

/// The name that the first of the alternatives tells that tells one, else the other name.
fn told_name<'n>(name: &'n Atom, alternatives: &'n [Alternative]) -> &'n Atom
    ensures { result.now ≡ name_in_origins name.now (map (λ a. a.origin) (map alternative_view alternatives.now)) }
{
    for alternative in alternatives {
        if let Origin::Alternative {
            rule,
            args: _,
            place: _,
        } = &alternative.origin
        {
            return &rule.0;
        }
    }
    name
}

/// The name under which the rule was written: a level's is its rule's.
pub(crate) fn spelled_name(rules: &WrittenRules<'_>, name: &Atom) -> Result<Atom, AllocError>
    ensures { IfOk result (λ spelled. spelled ≡ spelled_in rules.now name.now) }
{
    match find_written(rules, name) {
        Some(rule) => told_name(name, rule.alternatives.as_slice()).try_clone(),
        None => name.try_clone(),
    }
}
