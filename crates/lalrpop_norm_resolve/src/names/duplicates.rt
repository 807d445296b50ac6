//! Names that two rules share, or a rule and a mapped bare name.

ghost use Rattle.std.specs.Prelude.{◌≡◌, ◌||◌, None, IfErr, IfOk, option_map};
ghost use Rattle.lalrpop_grammar.specs.Views.{grammar_view, nonterminal_view};
ghost use Rattle.lalrpop_grammar_rules.specs.RuleTable.{knows};
ghost use Rattle.lalrpop_norm_resolve.specs.FoundFaults.{IsNameFault};
ghost use Rattle.lalrpop_norm_resolve.specs.Searches.{first_shared_rule};

use crate::names::definitions::Definitions;
use crate::names::rule_names::duplicate_name;
use lalrpop_grammar::NonterminalData;
use lalrpop_grammar_repr::NormFault;
use lalrpop_grammar_rules::{add_name, has_name};
use lalrpop_grammar_symbols::Atom;
use std::alloc::{AllocError, Global};
use std::collections::HashMap;

/// Whether one of the two sets has the name.
fn is_known(bares: &HashMap<&str, ()>, seen: &HashMap<&str, ()>, name: &Atom) -> bool
    ensures { result ≡ (knows bares.now name.now || knows seen.now name.now) }
{
    has_name(bares, name) || has_name(seen, name)
}

/// The first rule that has the name of an earlier one, or of a mapped bare name.
fn first_shared_rule<'g>(
    alloc: Global,
    definitions: &Definitions<'g>,
) -> Result<Option<&'g NonterminalData>, AllocError>
    ensures { IfOk result (λ found. option_map (λ r. nonterminal_view r.now) found
        ≡ first_shared_rule (grammar_view definitions.now.grammar.now)) }
{
    let mut seen = HashMap::new(alloc);
    for rule in definitions.grammar.rules() {
        if is_known(&definitions.bares, &seen, &rule.name.0) {
            return Ok(Some(rule));
        }
        add_name(&rule.name.0, &mut seen)?;
    }
    Ok(None)
}

/// Sees that no two rules share a name, and no rule a mapped bare name.
pub(crate) fn check_rule_names(
    alloc: Global,
    definitions: &Definitions<'_>,
) -> Result<(), NormFault>
    ensures right { IfOk result (λ done. first_shared_rule (grammar_view definitions.now.grammar.now) ≡ None) }
    ensures fault { IfErr result (IsNameFault (grammar_view definitions.now.grammar.now)) }
{
    match first_shared_rule(alloc, definitions)? {
        Some(rule) => Err(duplicate_name(rule.span, &rule.name.0)),
        None => Ok(()),
    }
}
