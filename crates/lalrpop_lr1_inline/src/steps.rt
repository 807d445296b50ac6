//! The steps of inlining, one after another.

ghost use Rattle.std.specs.Prelude.{◌≡◌, ◌<◌, ◌≤◌, ◌^◌, All, IfOk, length, map};
ghost use Rattle.std.specs.Map.{keys_of};
ghost use Rattle.lalrpop_lr1_inline.specs.InliningSteps.{AreInlineSteps, numbers_after, productions_named};

use crate::step::{NamedRule, step};
use lalrpop_grammar_repr::{ActionFnDefn, Production};
use lalrpop_grammar_symbols::{List, NonterminalString};
use std::alloc::{AllocError, Global};

/// Copies of the productions.
fn copies(alloc: Global, productions: &[Production]) -> Result<List<Production>, AllocError>
    ensures { IfOk result (λ copy. copy ≡ productions.now) }
{
    let mut copy = List::new(alloc);
    for production in productions {
        copy.push(production.try_clone(alloc)?)?;
    }
    Ok(copy)
}

/// Copies of the nonterminal's productions.
fn sources(
    alloc: Global,
    rules: &[NamedRule],
    name: &NonterminalString,
) -> Result<List<Production>, AllocError>
    ensures { IfOk result (λ found. found ≡ productions_named rules.now name.now.0) }
{
    for (key, rule) in rules {
        if key.0.as_str() == name.0.as_str() {
            return Ok(copies(alloc, rule.productions.as_slice())?);
        }
    }
    Ok(List::new(alloc))
}

/// Inlines the nonterminals of the order, one after another, in all rules, and adds the actions of what that makes.
pub(crate) fn steps(
    alloc: Global,
    order: &[NonterminalString],
    given: Vec<NamedRule>,
    actions: &mut List<ActionFnDefn>,
) -> Result<Vec<NamedRule>, AllocError>
    requires known { All (λ e. All (λ p. p.action.0 < length actions.old) e.1.productions) given.items }
    requires room { numbers_after (map (λ n. n.0) order.now) given.items (length actions.old) ≤ 2 ^ 32 }
    ensures steps { IfOk result (λ made. AreInlineSteps (map (λ n. n.0) order.now) given.items actions.old made.items actions.new) }
    ensures names { IfOk result (λ made. keys_of made.items ≡ keys_of given.items) }
{
    let mut rules = given;
    for name in order {
        let found = sources(alloc, rules.as_slice(), name)?;
        rules = step(alloc, name, found.as_slice(), rules, actions)?;
    }
    Ok(rules)
}
