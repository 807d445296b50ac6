//! The productions that records make, and their actions.

ghost use Rattle.std.specs.Prelude.{◌≡◌, ◌+◌, ◌<◌, ◌≤◌, ◌^◌, ◌||◌, ◌++◌, ◌∷◌, [], All, IfOk};
ghost use Rattle.std.specs.Prelude.{OnOk, length, map, vec_len};
ghost use Rattle.std.specs.List.{list_any};
ghost use Rattle.lalrpop_lr1_inline.specs.InliningSteps.{AddsDefinitions, IsInlineDefinition, action_fails, entry_fails};
ghost use Rattle.lalrpop_lr1_inline.specs.InliningSteps.{production_of_record, productions_in_place, productions_of_records};
ghost use Rattle.lalrpop_lr1_inline.specs.InliningSteps.{productions_after, records_after, records_in_place};

use crate::records::{Record, has_named, records, side_of};
use lalrpop_grammar_repr::{
    ActionFn, ActionFnDefn, ActionFnDefnKind, InlineActionFnDefn, InlinedSymbol, Production,
};
use lalrpop_grammar_symbols::{List, NonterminalString};
use std::alloc::{AllocError, Global};

/// Whether the action may fail.
fn fails(actions: &[ActionFnDefn], action: ActionFn) -> bool
    ensures { result ≡ action_fails actions.now action.0 }
{
    match actions.get(action.index()) {
        None => false,
        Some(found) => found.fallible,
    }
}

/// Whether a production that was inlined may fail.
fn has_failing(actions: &[ActionFnDefn], entry: &InlinedSymbol) -> bool
    ensures { result ≡ entry_fails actions.now entry.now }
{
    match entry {
        InlinedSymbol::Original(_) => false,
        InlinedSymbol::Inlined(action, _) => fails(actions, *action),
    }
}

/// Whether one of the productions that were inlined may fail.
fn record_fails(actions: &[ActionFnDefn], entries: &[InlinedSymbol]) -> bool
    ensures { result ≡ list_any (entry_fails actions.now) entries.now }
{
    for entry in entries {
        if has_failing(actions, entry) {
            return true;
        }
    }
    false
}

/// Whether what the record makes of a production with this action may fail.
fn made_fails(actions: &[ActionFnDefn], outer: &ActionFnDefn, entries: &[InlinedSymbol]) -> bool
    ensures { result ≡ (outer.now.fallible || list_any (entry_fails actions.now) entries.now) }
{
    outer.fallible || record_fails(actions, entries)
}

/// The action of what the record makes of the production: fallible where one of the actions is, of the production's type.
fn definition(
    alloc: Global,
    actions: &[ActionFnDefn],
    production: &Production,
    made: Record,
) -> Result<ActionFnDefn, AllocError>
    requires { production.now.action.0 < length actions.now }
    ensures { IfOk result (IsInlineDefinition actions.now production.now made) }
{
    let outer = &actions[production.action.index()];
    let fallible = made_fails(actions, outer, made.as_slice());
    let ret_type = outer.ret_type.try_clone(alloc)?;
    let kind = ActionFnDefnKind::Inline(InlineActionFnDefn {
        action: production.action,
        symbols: made,
    });
    Ok(ActionFnDefn {
        fallible,
        ret_type,
        kind,
    })
}

/// What the record makes of the production, with the action of this number.
fn production_by(
    alloc: Global,
    production: &Production,
    made: &[InlinedSymbol],
    number: usize,
) -> Result<Production, AllocError>
    requires { number < 2 ^ 32 }
    ensures { IfOk result (λ p. p ≡ production_of_record production.now made.now number) }
{
    let symbols = side_of(alloc, made)?;
    Ok(Production {
        nonterminal: production.nonterminal.try_clone()?,
        symbols,
        action: ActionFn::new(number),
        span: production.span,
    })
}

/// Adds what the records make of the production, and their actions, which are numbered behind those that are there.
fn add_made(
    alloc: Global,
    actions: &[ActionFnDefn],
    production: &Production,
    records: Vec<Record>,
    definitions: &mut Vec<ActionFnDefn>,
    productions: &mut List<Production>,
) -> Result<(), AllocError>
    requires known { production.now.action.0 < length actions.now }
    requires room { length actions.now + vec_len definitions.old + vec_len records ≤ 2 ^ 32 }
    ensures productions { OnOk result (productions.new ≡ productions.old
        ++ productions_of_records production.now records.items (length actions.now + vec_len definitions.old)) }
    ensures definitions { OnOk result (AddsDefinitions actions.now (map (λ r. (production.now, r)) records.items)
        definitions.old.items definitions.new.items) }
    ensures count { OnOk result (vec_len definitions.new ≡ vec_len definitions.old + vec_len records) }
{
    for made in records {
        let number = actions.len() + definitions.len();
        productions.push(production_by(alloc, production, made.as_slice(), number)?)?;
        definitions.push(definition(alloc, actions, production, made)?)?;
    }
    Ok(())
}

/// Adds what stands in the production's place once the nonterminal is inlined by these productions.
pub(crate) fn replace(
    alloc: Global,
    name: &NonterminalString,
    sources: &[Production],
    actions: &[ActionFnDefn],
    production: Production,
    definitions: &mut Vec<ActionFnDefn>,
    productions: &mut List<Production>,
) -> Result<(), AllocError>
    requires known { production.action.0 < length actions.now }
    requires room { length actions.now + vec_len definitions.old + length (records_in_place name.now.0 sources.now production) ≤ 2 ^ 32 }
    ensures productions { OnOk result (productions.new ≡ productions.old
        ++ productions_in_place name.now.0 sources.now production (length actions.now + vec_len definitions.old)) }
    ensures definitions { OnOk result (AddsDefinitions actions.now
        (map (λ r. (production, r)) (records_in_place name.now.0 sources.now production)) definitions.old.items definitions.new.items) }
    ensures count { OnOk result (vec_len definitions.new
        ≡ vec_len definitions.old + length (records_in_place name.now.0 sources.now production)) }
{
    if has_named(production.symbols.as_slice(), name) {
        let found = records(alloc, production.symbols.as_slice(), name, sources)?;
        add_made(alloc, actions, &production, found, definitions, productions)
    } else {
        productions.push(production)?;
        Ok(())
    }
}

/// What stands in place of the productions once the nonterminal is inlined by those sources.
pub(crate) fn replace_all(
    alloc: Global,
    name: &NonterminalString,
    sources: &[Production],
    actions: &[ActionFnDefn],
    old: List<Production>,
    definitions: &mut Vec<ActionFnDefn>,
) -> Result<List<Production>, AllocError>
    requires known { All (λ p. p.action.0 < length actions.now) old }
    requires room { length actions.now + vec_len definitions.old + length (records_after name.now.0 sources.now old) ≤ 2 ^ 32 }
    ensures productions { IfOk result (λ made. made
        ≡ productions_after name.now.0 sources.now old (length actions.now + vec_len definitions.old)) }
    ensures definitions { OnOk result (AddsDefinitions actions.now (records_after name.now.0 sources.now old)
        definitions.old.items definitions.new.items) }
    ensures count { OnOk result (vec_len definitions.new
        ≡ vec_len definitions.old + length (records_after name.now.0 sources.now old)) }
{
    let mut made = List::new(alloc);
    for production in old.into_vec() {
        replace(
            alloc,
            name,
            sources,
            actions,
            production,
            definitions,
            &mut made,
        )?;
    }
    Ok(made)
}
