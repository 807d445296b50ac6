//! The starts that are added for public rules.

ghost use Rattle.std.specs.Prelude.{◌≡◌, ◌++◌, IfOk, map};
ghost use Rattle.lalrpop_grammar.specs.Views.{grammar_view, nonterminal_view};
ghost use Rattle.lalrpop_grammar.specs.Views.{is_public as is_public_view};
ghost use Rattle.lalrpop_grammar_language.specs.Starts.{has_none};
ghost use Rattle.lalrpop_grammar.specs.WrittenGrammar.{rules_of};
ghost use Rattle.lalrpop_norm_lower.specs.LoweredLists.{gets_start, rules_with_starts, start_name_entries, start_type_entries};
ghost use Rattle.lalrpop_norm_lower.specs.RuleLists.{rules_at};

use crate::actions::type_of_rule;
use lalrpop_grammar::{Grammar, NonterminalData, Visibility};
use lalrpop_grammar_repr::{TypeRepr, Types};
use lalrpop_grammar_symbols::{Atom, NonterminalString};
use std::alloc::{AllocError, Global};

/// The name of a rule's start: the prefix before the name of the rule.
pub(crate) fn start_name(
    alloc: Global,
    prefix: &Atom,
    name: &NonterminalString,
) -> Result<NonterminalString, AllocError>
    ensures { IfOk result (λ made. made.0 ≡ prefix.now ++ name.now.0) }
{
    let text = format!(in alloc; "{prefix}{name}")?;
    Ok(NonterminalString(Atom::new(alloc, text.as_str())?))
}

/// Whether it is public.
fn is_public(visibility: &Visibility) -> bool
    ensures { result ≡ is_public_view visibility.now }
{
    match visibility {
        Visibility::Pub | Visibility::PubIn(_) => true,
        Visibility::Priv => false,
    }
}

/// Whether there are no parameters.
fn has_no_parameters(parameters: &[NonterminalString]) -> bool
    ensures { result ≡ has_none (map (λ n. n.0) parameters.now) }
{
    parameters.is_empty()
}

/// Whether the rule has a start: it is public, and no macro.
pub(crate) fn is_start_rule(rule: &NonterminalData) -> bool
    ensures { result ≡ gets_start (nonterminal_view rule.now) }
{
    is_public(&rule.visibility) && has_no_parameters(rule.args.as_slice())
}

/// The rules that have starts, in order.
pub(crate) fn start_rules<'g>(
    alloc: Global,
    grammar: &'g Grammar,
) -> Result<Vec<&'g NonterminalData>, AllocError>
    ensures { IfOk result (λ rules. rules_at rules.items ≡ rules_with_starts (rules_of (grammar_view grammar.now).items)) }
{
    let mut rules = Vec::new(alloc);
    for rule in grammar.rules() {
        if is_start_rule(rule) {
            rules.push(rule)?;
        }
    }
    Ok(rules)
}

/// The names of the rules, each with that of its start.
pub(crate) fn start_names(
    alloc: Global,
    prefix: &Atom,
    rules: &[&NonterminalData],
) -> Result<Vec<(NonterminalString, NonterminalString)>, AllocError>
    ensures { IfOk result (λ names. names.items ≡ start_name_entries prefix.now (rules_at rules.now)) }
{
    let mut names = Vec::new(alloc);
    for rule in rules {
        names.push((
            rule.name.try_clone()?,
            start_name(alloc, prefix, &rule.name)?,
        ))?;
    }
    Ok(names)
}

/// The names of the rules' starts, each with the type of its rule.
pub(crate) fn start_types(
    alloc: Global,
    prefix: &Atom,
    rules: &[&NonterminalData],
    types: &Types,
) -> Result<Vec<(NonterminalString, TypeRepr)>, AllocError>
    ensures { IfOk result (λ made. made.items
        ≡ start_type_entries types.now.nonterminal_types prefix.now (rules_at rules.now)) }
{
    let mut made = Vec::new(alloc);
    for rule in rules {
        let name = start_name(alloc, prefix, &rule.name)?;
        made.push((name, type_of_rule(alloc, types, &rule.name)?))?;
    }
    Ok(made)
}
