//! The pass as a whole.

ghost use Rattle.std.specs.Prelude.{IfErr, IfOk};
ghost use Rattle.lalrpop_grammar.specs.Views.{grammar_view};
ghost use Rattle.lalrpop_grammar.specs.WrittenGrammar.{rules_of};
ghost use Rattle.lalrpop_norm_tyinfer.specs.TypeFaults.{HasNoTypeFault, HasRuleTypes, IsTypeFault, WhereExpanded};
ghost use Rattle.lalrpop_norm_tyinfer.specs.TerminalTypes.{HasTerminalTypes};

use crate::equations::equations;
use crate::ground::RuleTypes;
use crate::names::Names;
use crate::search::inferred_types;
use crate::terminals::terminal_types;
use crate::untyped::check_typed;
use lalrpop_grammar::Grammar;
use lalrpop_grammar_repr::{NormFault, Types};
use std::alloc::Global;

/// The types of the grammar's rules.
fn rule_types(alloc: Global, grammar: &Grammar) -> Result<RuleTypes, NormFault>
    ensures types { IfOk result (λ made. WhereExpanded (grammar_view grammar.now)
        (λ e. HasRuleTypes e (rules_of (grammar_view grammar.now).items) made)) }
    ensures none { IfOk result (λ made. WhereExpanded (grammar_view grammar.now)
        (λ e. HasNoTypeFault e (rules_of (grammar_view grammar.now).items))) }
    ensures fault { IfErr result (IsTypeFault (grammar_view grammar.now)) }
{
    let names = Names::new(alloc, grammar)?;
    let equations = equations(alloc, grammar)?;
    let table = inferred_types(alloc, &names, equations.as_slice())?;
    check_typed(grammar, &table)?;
    Ok(table)
}

/// The types of an expanded grammar's rules and terminals: each rule has the one type that follows in finitely many steps from
/// declared types and alternatives without user code, and each terminal of an alternative is a `&'input str`.
///
/// # Errors
///
/// A rule has two types that differ, by two alternatives without user code, or none, each told with the span of the rule; one of a
/// repeat or a group is told only where no other rule lacks a type. And memory runs out.
pub fn infer_types(alloc: Global, grammar: &Grammar) -> Result<Types, NormFault>
    ensures types { IfOk result (λ made. WhereExpanded (grammar_view grammar.now)
        (λ e. HasRuleTypes e (rules_of (grammar_view grammar.now).items) made.nonterminal_types)) }
    ensures none { IfOk result (λ made. WhereExpanded (grammar_view grammar.now)
        (λ e. HasNoTypeFault e (rules_of (grammar_view grammar.now).items))) }
    ensures terminals { IfOk result (λ made. HasTerminalTypes (grammar_view grammar.now) made.terminal_types) }
    ensures fault { IfErr result (IsTypeFault (grammar_view grammar.now)) }
{
    let nonterminal_types = rule_types(alloc, grammar)?;
    let terminal_types = terminal_types(alloc, grammar)?;
    Ok(Types {
        terminal_types,
        nonterminal_types,
    })
}
