//! Inlining a whole grammar.

ghost use Rattle.std.specs.Prelude.{◌≡◌, ◌<◌, ◌≤◌, ◌^◌, All, IfErr, IfOk, length, map};
ghost use Rattle.lalrpop_grammar_repr.specs.declared.norm_error.NormErrorKind.TheVariants as kinds;
ghost use Rattle.lalrpop_lr1_inline.specs.declared.fault.InlineFault.TheVariants as faults;
ghost use Rattle.lalrpop_lr1_inline.specs.InliningOrders.{IsInliningOrder};
ghost use Rattle.lalrpop_lr1_inline.specs.InliningSteps.{AreInlineSteps, numbers_after};
ghost use Rattle.lalrpop_lr1_inline.specs.InlinedGrammars.{IsInlineFault, IsInlinedGrammar};

use crate::count::{LIMIT, count_numbers};
use crate::fault::InlineFault;
use crate::order::inline_order;
use crate::rules::{map_with, rules_in};
use crate::steps::steps;
use lalrpop_grammar_repr::{ActionFnDefn, Grammar, Map, NonterminalData, NormError, NormErrorKind};
use lalrpop_grammar_symbols::{List, NonterminalString, Span};
use std::alloc::{AllocError, Global};

/// The fault that there are more actions than numbers.
fn too_many() -> InlineFault
    ensures { result ≡ faults.Norm (record { kind = kinds.TooManyActions; span = record { 0 = 0; 1 = 0 } }) }
{
    InlineFault::Norm(NormError {
        kind: NormErrorKind::TooManyActions,
        span: Span(0, 0),
    })
}

/// The rules with the nonterminals of the order inlined. Adds the actions of what that makes.
fn inlined_rules(
    alloc: Global,
    order: &[NonterminalString],
    nonterminals: &Map<NonterminalString, NonterminalData>,
    actions: &mut List<ActionFnDefn>,
) -> Result<Map<NonterminalString, NonterminalData>, AllocError>
    requires known { All (λ e. All (λ p. p.action.0 < length actions.old) e.1.productions) nonterminals.now }
    requires room { numbers_after (map (λ n. n.0) order.now) nonterminals.now (length actions.old) ≤ 2 ^ 32 }
    ensures { IfOk result (λ made. AreInlineSteps (map (λ n. n.0) order.now) nonterminals.now actions.old made actions.new) }
{
    let rules = rules_in(alloc, nonterminals)?;
    let made = steps(alloc, order, rules, actions)?;
    map_with(alloc, made)
}

/// The grammar with the nonterminals of the order inlined.
fn inline_by_order(
    alloc: Global,
    mut grammar: Grammar,
    order: &[NonterminalString],
) -> Result<Grammar, AllocError>
    requires known { All (λ e. All (λ p. p.action.0 < length grammar.action_fn_defns) e.1.productions) grammar.nonterminals }
    requires room { numbers_after (map (λ n. n.0) order.now) grammar.nonterminals (length grammar.action_fn_defns) ≤ 2 ^ 32 }
    ensures steps { IfOk result (λ made. AreInlineSteps (map (λ n. n.0) order.now) grammar.nonterminals grammar.action_fn_defns
        made.nonterminals made.action_fn_defns) }
    ensures others { IfOk result (λ made. made ≡ record grammar {
      nonterminals = made.nonterminals;
      action_fn_defns = made.action_fn_defns;
    }) }
{
    let actions = &mut grammar.action_fn_defns;
    let rules = inlined_rules(alloc, order, &grammar.nonterminals, actions)?;
    grammar.nonterminals = rules;
    Ok(grammar)
}

/// The order in which the nonterminals of the grammar are inlined, for which there are enough numbers.
fn order_within_limit(
    alloc: Global,
    grammar: &Grammar,
) -> Result<Vec<NonterminalString>, InlineFault>
    ensures order { IfOk result (λ order. IsInliningOrder grammar.now.nonterminals (map (λ n. n.0) order.items)) }
    ensures room { IfOk result (λ order. numbers_after (map (λ n. n.0) order.items) grammar.now.nonterminals
        (length grammar.now.action_fn_defns) ≤ 2 ^ 32) }
    ensures fault { IfErr result (IsInlineFault grammar.now) }
{
    let order = inline_order(alloc, grammar)?;
    if count_numbers(alloc, grammar, order.as_slice())? > LIMIT {
        return Err(too_many());
    }
    Ok(order)
}

/// Inlines each nonterminal that is marked `inline`, in the order of `inline_order`, in all rules: a production that names it is
/// replaced by one for each choice of its productions, the last place changing first, with an action of its own that records
/// the choice. Inlined nonterminals stay. Each production's action is one of the grammar's.
///
/// # Errors
///
/// A chain of inlined nonterminals returns to its first (N24); the steps would hand out more than 2^32 numbers, those of the
/// grammar's own actions included (N23, told at 0..0, before anything is written); memory runs out.
pub fn inline(alloc: Global, grammar: Grammar) -> Result<Grammar, InlineFault>
    requires known { All (λ e. All (λ p. p.action.0 < length grammar.action_fn_defns) e.1.productions) grammar.nonterminals }
    ensures inlined { IfOk result (IsInlinedGrammar grammar) }
    ensures fault { IfErr result (IsInlineFault grammar) }
{
    let order = order_within_limit(alloc, &grammar)?;
    Ok(inline_by_order(alloc, grammar, order.as_slice())?)
}
