//! The names of rules and of their parameters.

ghost use Rattle.std.specs.Prelude.{◌≡◌, ◌||◌, [], ◌∷◌, IfErr, IfOk, OnOk};
ghost use Rattle.lalrpop_grammar_symbols.specs.Symbols.{Text};
ghost use Rattle.lalrpop_grammar_symbols.specs.Views.{span_view};
ghost use Rattle.lalrpop_grammar.specs.Views.{nonterminal_view};
ghost use Rattle.lalrpop_grammar_language.specs.Enabled.{has_text};
ghost use Rattle.lalrpop_grammar_rules.specs.RuleTable.{HasBares, knows};
ghost use Rattle.lalrpop_norm_resolve.specs.FoundFaults.{FoundFault, HasNoTwice, TellsOneOf, IsTwiceIn};
ghost use Rattle.lalrpop_norm_resolve.specs.Searches.{macro_names, plain_names};

use lalrpop_grammar::NonterminalData;
use lalrpop_grammar_repr::{NormError, NormErrorKind, NormFault};
use lalrpop_grammar_rules::{add_name, has_name};
use lalrpop_grammar_symbols::{Atom, Span};
use std::alloc::{AllocError, Global};
use std::collections::HashMap;

/// Adds the rule's name to those of macros where it is one, and else to the others.
pub(crate) fn add_rule<'g>(
    rule: &'g NonterminalData,
    plain: &mut HashMap<&'g str, ()>,
    macros: &mut HashMap<&'g str, ()>,
) -> Result<(), AllocError>
    ensures plain { OnOk result ((n : Text) → knows plain.new n
        ≡ (knows plain.old n || has_text n (plain_names (nonterminal_view rule.now ∷ [])))) }
    ensures macros { OnOk result ((n : Text) → knows macros.new n
        ≡ (knows macros.old n || has_text n (macro_names (nonterminal_view rule.now ∷ [])))) }
{
    if rule.is_macro_def() {
        add_name(&rule.name.0, macros)
    } else {
        add_name(&rule.name.0, plain)
    }
}

/// The fault that two things share the name.
pub(crate) fn duplicate_name(span: Span, name: &Atom) -> NormFault
    ensures { TellsOneOf (λ f. f ≡ FoundFault.duplicate name.now (span_view span)) result }
{
    match name.try_clone() {
        Ok(name) => NormFault::Norm(NormError {
            kind: NormErrorKind::DuplicateDefinition(name),
            span,
        }),
        Err(_) => NormFault::Memory,
    }
}

/// The names of the rule's parameters, where none stands twice.
pub(crate) fn known_parameters<'g>(
    alloc: Global,
    rule: &'g NonterminalData,
) -> Result<HashMap<&'g str, ()>, NormFault>
    ensures known { IfOk result (λ names. HasBares names (nonterminal_view rule.now).parameters) }
    ensures once { IfOk result (λ names. HasNoTwice (nonterminal_view rule.now).parameters) }
    ensures fault { IfErr result (TellsOneOf (IsTwiceIn (nonterminal_view rule.now))) }
{
    let mut names = HashMap::new(alloc);
    for parameter in rule.args.as_slice() {
        if has_name(&names, &parameter.0) {
            return Err(duplicate_name(rule.span, &parameter.0));
        }
        add_name(&parameter.0, &mut names)?;
    }
    Ok(names)
}
